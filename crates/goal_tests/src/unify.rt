//! Pairs of types, with whether they could be the same worked out by hand.
use crate::given::{Items, given, plain_trait};
use hir_facts::{
    Canonical, Facts, GenericArg, GenericDefId, HoleKind, ImplId, IntegerTy, List, OpaqueId,
    RawAlias, RawArgs, RawAssocType, RawImpl, RawTraitRef, RawType, Text, TraitId, Ty, TypeAliasId,
    TypeRefId, UintTy,
};
use infer_unify::{could_unify, could_unify_deeply};
use std::alloc::{AllocError, Global};
use std::process::Abort;
use std::test::Fail;

const U8: Ty = Ty::Uint(UintTy::U8);

/// An impl of trait 0 for a written type, whose associated type is another.
fn impl_for(alloc: Global, self_: TypeRefId, ty: TypeRefId) -> Result<RawImpl, AllocError> {
    let mut types = List::new(alloc);
    types.push(RawAssocType {
        alias: TypeAliasId(0),
        ty,
    })?;
    Ok(RawImpl {
        trait_: Some(RawTraitRef {
            trait_: TraitId(0),
            args: RawArgs::Types(List::new(alloc)),
        }),
        params: List::new(alloc),
        preds: List::new(alloc),
        self_,
        fns: List::new(alloc),
        consts: List::new(alloc),
        types,
    })
}

/// The facts of `trait Tr { type Out; }`, and that `Out` of `bool` is `u8`, and of `char` is `bool`.
fn facts(alloc: Global) -> Result<Facts, AllocError> {
    let mut types = List::new(alloc);
    types.push(RawType::Bool)?;
    types.push(RawType::Char)?;
    types.push(RawType::Integer(IntegerTy::Uint(UintTy::U8)))?;
    let mut names = List::new(alloc);
    names.push(TypeAliasId(0))?;
    let mut traits = List::new(alloc);
    traits.push(plain_trait(alloc, "Tr", names)?)?;
    let mut aliases = List::new(alloc);
    aliases.push(RawAlias {
        name: Text::from_string(String::from_str(alloc, "Out")?),
        trait_: TraitId(0),
        bounds: List::new(alloc),
    })?;
    let mut impls = List::new(alloc);
    impls.push(impl_for(alloc, TypeRefId(0), TypeRefId(2))?)?;
    impls.push(impl_for(alloc, TypeRefId(1), TypeRefId(0))?)?;
    let lang = List::new(alloc);
    given(
        alloc,
        Items {
            types,
            traits,
            aliases,
            impls,
            lang,
        },
    )
}

/// `(first, second)`.
fn two(alloc: Global, first: Ty, second: Ty) -> Result<Ty, AllocError> {
    let mut types = List::new(alloc);
    types.push(first)?;
    types.push(second)?;
    Ok(Ty::Tuple(types))
}

/// `(ty,)`.
fn one(alloc: Global, ty: Ty) -> Result<Ty, AllocError> {
    let mut types = List::new(alloc);
    types.push(ty)?;
    Ok(Ty::Tuple(types))
}

fn only(alloc: Global, ty: Ty) -> Result<List<GenericArg>, AllocError> {
    let mut args = List::new(alloc);
    args.push(GenericArg::Ty(ty))?;
    Ok(args)
}

/// `<ty as Tr>::Out`.
fn out(alloc: Global, ty: Ty) -> Result<Ty, AllocError> {
    Ok(Ty::Projection(TypeAliasId(0), only(alloc, ty)?))
}

/// An opaque type at an argument.
fn opaque(alloc: Global, ty: Ty) -> Result<Ty, AllocError> {
    Ok(Ty::Opaque(OpaqueId(0), only(alloc, ty)?))
}

/// Asks both, over holes 0 and 1 for any type and hole 2 for integer types.
fn ask(alloc: Global, facts: &Facts, left: &Ty, right: &Ty) -> Result<(bool, bool), AllocError> {
    let mut vars = List::new(alloc);
    vars.push(HoleKind::Ty)?;
    vars.push(HoleKind::Ty)?;
    vars.push(HoleKind::Int)?;
    let value = (left.dup(alloc)?, right.dup(alloc)?);
    let pair = Canonical { vars, value };
    let env = GenericDefId::ImplId(ImplId(0));
    let could = could_unify(alloc, facts, env, &pair)?;
    let deeply = could_unify_deeply(alloc, facts, env, &pair)?;
    Ok((could, deeply))
}

/// Compares both answers, and those to the types the other way round.
fn check(
    rt: &impl Abort,
    alloc: Global,
    facts: &Facts,
    left: Ty,
    right: Ty,
    wanted: (bool, bool),
) -> Result<(), AllocError> {
    assert_eq!(rt; ask(alloc, facts, &left, &right)?, wanted);
    assert_eq!(rt; ask(alloc, facts, &right, &left)?, wanted);
    Ok(())
}

const YES: (bool, bool) = (true, true);

const NO: (bool, bool) = (false, false);

const OPEN: (bool, bool) = (true, false);

#[test]
fn unifies_types(rt: HostRuntime) -> Result<(), Fail> {
    let alloc = rt.alloc();
    let facts = facts(alloc)?;
    let facts = &facts;
    let left = two(alloc, Ty::Var(0), U8)?;
    check(
        &rt,
        alloc,
        facts,
        left,
        two(alloc, Ty::Bool, Ty::Var(1))?,
        YES,
    )?;
    let left = two(alloc, Ty::Var(0), Ty::Var(0))?;
    check(&rt, alloc, facts, left, two(alloc, U8, Ty::Bool)?, NO)?;
    check(&rt, alloc, facts, Ty::Var(0), one(alloc, Ty::Var(0))?, NO)?;
    check(&rt, alloc, facts, Ty::IntVar(2), U8, YES)?;
    check(&rt, alloc, facts, Ty::IntVar(2), Ty::Bool, NO)?;
    let left = two(alloc, Ty::Var(0), Ty::Var(0))?;
    check(
        &rt,
        alloc,
        facts,
        left,
        two(alloc, Ty::IntVar(2), Ty::Bool)?,
        NO,
    )?;
    check(&rt, alloc, facts, Ty::Param(0), Ty::Param(0), YES)?;
    check(&rt, alloc, facts, Ty::Param(0), Ty::Param(1), NO)?;
    check(&rt, alloc, facts, Ty::Error, U8, YES)?;
    let left = opaque(alloc, Ty::Var(0))?;
    check(&rt, alloc, facts, left, opaque(alloc, U8)?, YES)?;
    check(
        &rt,
        alloc,
        facts,
        opaque(alloc, U8)?,
        opaque(alloc, Ty::Bool)?,
        NO,
    )?;
    check(&rt, alloc, facts, opaque(alloc, U8)?, U8, NO)?;
    Ok(())
}

#[test]
fn unifies_associated_types(rt: HostRuntime) -> Result<(), Fail> {
    let alloc = rt.alloc();
    let facts = facts(alloc)?;
    let facts = &facts;
    check(&rt, alloc, facts, out(alloc, Ty::Var(0))?, U8, OPEN)?;
    check(&rt, alloc, facts, out(alloc, Ty::Bool)?, U8, YES)?;
    check(&rt, alloc, facts, out(alloc, Ty::Bool)?, Ty::Char, NO)?;
    check(&rt, alloc, facts, out(alloc, Ty::Bool)?, Ty::Var(0), YES)?;
    let left = out(alloc, Ty::Bool)?;
    check(&rt, alloc, facts, left, out(alloc, Ty::Char)?, NO)?;
    let left = two(alloc, Ty::Var(0), out(alloc, Ty::Var(0))?)?;
    check(&rt, alloc, facts, left, two(alloc, Ty::Bool, U8)?, YES)?;
    let left = two(alloc, Ty::Var(0), out(alloc, Ty::Var(0))?)?;
    check(&rt, alloc, facts, left, two(alloc, Ty::Char, U8)?, NO)?;
    let inner = out(alloc, out(alloc, Ty::Char)?)?;
    check(&rt, alloc, facts, inner, U8, YES)?;
    let left = two(alloc, out(alloc, Ty::Var(0))?, Ty::Var(0))?;
    let right = two(alloc, Ty::Var(1), out(alloc, Ty::Char)?)?;
    check(&rt, alloc, facts, left, right, YES)?;
    Ok(())
}
