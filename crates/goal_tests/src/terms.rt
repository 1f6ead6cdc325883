//! Terms of types, with answers that were worked out by hand.
ghost use Rattle.std.specs.Prelude.{IfOk};
ghost use Rattle.goal_tests.specs.Words.{term_of, HasHeads};

use goal_terms::{
    Binding, Term, args_term, can_be_itself, can_be_same, filled, find, find_common, find_match,
    is_concrete, push_holes, staying_term, term_args, term_type, type_term,
};
use hir_types::{
    AliasBound, Boxed, Const, GenericArg, Hole, List, Safety, TraitId, TraitRef, Ty, TypeAliasId,
    UintTy,
};
use std::alloc::{AllocError, Global};
use std::test::Fail;

const ITEM: TypeAliasId = TypeAliasId(4);

fn pair(alloc: Global, first: Ty, second: Ty) -> Result<Ty, AllocError> {
    let mut types = List::new(alloc);
    types.push(first)?;
    types.push(second)?;
    Ok(Ty::Tuple(types))
}

fn item_of(alloc: Global, ty: Ty) -> Result<Ty, AllocError> {
    let mut args = List::new(alloc);
    args.push(GenericArg::Ty(ty))?;
    Ok(Ty::Projection(ITEM, args))
}

fn term(alloc: Global, ty: Result<Ty, AllocError>) -> Result<Term, AllocError>
    ensures { IfOk result (λ made. HasHeads (term_of made)) }
{
    let ty = ty?;
    type_term(alloc, &ty)
}

/// What they have in common; a target that isn't read is an error.
fn common(
    alloc: Global,
    part: Result<Ty, AllocError>,
    target: Result<Ty, AllocError>,
) -> Result<Option<Vec<Binding>>, AllocError> {
    let part = term(alloc, part)?;
    let target = term(alloc, target)?;
    if !target.is_read() {
        return Err(AllocError);
    }
    find_common(alloc, &part, &target)
}

/// Whether hole 0 stands for the type.
fn zero_is(alloc: Global, fills: Option<Vec<Binding>>, ty: Ty) -> Result<bool, AllocError> {
    let Some(fills) = fills else {
        return Ok(false);
    };
    let wanted = term(alloc, Ok(ty))?;
    match find(&fills, Hole::Ty(0)) {
        Some(given) => Ok(given.is_same(&wanted)),
        None => Ok(false),
    }
}

#[test]
fn matches_a_hole_twice(rt: HostRuntime) -> Result<(), Fail> {
    let alloc = rt.alloc();
    let part = term(alloc, pair(alloc, Ty::Var(0), Ty::Var(0)))?;
    let same = term(alloc, pair(alloc, Ty::Var(7), Ty::Var(7)))?;
    let fills = find_match(alloc, &part, &same)?;
    assert!(rt; zero_is(alloc, fills, Ty::Var(7))?);
    let other = term(alloc, pair(alloc, Ty::Var(7), Ty::Bool))?;
    assert!(rt; find_match(alloc, &part, &other)?.is_none());
    Ok(())
}

#[test]
fn matches_an_alias_with_anything(rt: HostRuntime) -> Result<(), Fail> {
    let alloc = rt.alloc();
    let part = term(alloc, pair(alloc, Ty::Var(0), item_of(alloc, Ty::Var(0))?))?;
    let target = term(alloc, pair(alloc, Ty::Char, Ty::Bool))?;
    let fills = find_match(alloc, &part, &target)?;
    assert!(rt; zero_is(alloc, fills, Ty::Char)?);
    Ok(())
}

#[test]
fn fills_a_term(rt: HostRuntime) -> Result<(), Fail> {
    let alloc = rt.alloc();
    let part = term(alloc, Ok(Ty::Var(0)))?;
    let target = term(alloc, Ok(Ty::Bool))?;
    let fills = find_match(alloc, &part, &target)?.ok_or(AllocError)?;
    let made = filled(
        alloc,
        &term(alloc, pair(alloc, Ty::Var(0), Ty::Char))?,
        &fills,
    )?;
    assert_eq!(rt; made, term(alloc, pair(alloc, Ty::Bool, Ty::Char))?);
    Ok(())
}

#[test]
fn finds_what_is_common(rt: HostRuntime) -> Result<(), Fail> {
    let alloc = rt.alloc();
    let part = pair(alloc, Ty::Var(0), item_of(alloc, Ty::Var(0))?);
    let fills = common(alloc, part, pair(alloc, Ty::Var(7), Ty::Bool))?;
    assert!(rt; zero_is(alloc, fills, Ty::Var(7))?);
    let twice = pair(alloc, Ty::Var(0), Ty::Var(0));
    let fills = common(alloc, twice, pair(alloc, Ty::Var(7), Ty::Bool))?;
    assert!(rt; zero_is(alloc, fills, Ty::Bool)?);
    assert!(rt; common(alloc, Ok(Ty::Str), Ok(Ty::IntVar(0)))?.is_none());
    Ok(())
}

#[test]
fn tells_what_can_be_the_same(rt: HostRuntime) -> Result<(), Fail> {
    let alloc = rt.alloc();
    let integer = term(alloc, Ok(Ty::IntVar(0)))?;
    let byte = term(alloc, Ok(Ty::Uint(UintTy::U8)))?;
    let text = term(alloc, Ok(Ty::Str))?;
    assert!(rt; can_be_same(alloc, &integer, &byte)?);
    assert!(rt; !can_be_same(alloc, &integer, &text)?);
    let turned = term(alloc, pair(alloc, Ty::Var(0), Ty::Bool))?;
    let other = term(alloc, pair(alloc, Ty::Char, Ty::Var(0)))?;
    assert!(rt; can_be_same(alloc, &turned, &other)?);
    Ok(())
}

#[test]
fn tells_what_can_be_itself(rt: HostRuntime) -> Result<(), Fail> {
    let alloc = rt.alloc();
    let args = term(alloc, Ok(Ty::Var(0)))?;
    let open = term(alloc, Ok(Ty::Var(1)))?;
    let bool = term(alloc, Ok(Ty::Bool))?;
    assert!(rt; can_be_itself(alloc, &args, &open, ITEM)?);
    assert!(rt; !can_be_itself(alloc, &args, &args, ITEM)?);
    assert!(rt; !can_be_itself(alloc, &args, &bool, ITEM)?);
    let itself = staying_term(alloc, ITEM, &args)?;
    assert!(rt; itself.is_read());
    Ok(())
}

/// `(fn(?7, [?2; 3]) -> bool, dyn Trait<{const}, Item = str> + Auto)`.
fn large(alloc: Global) -> Result<Ty, AllocError> {
    let mut inputs = List::new(alloc);
    inputs.push(Ty::Var(7))?;
    inputs.push(Ty::Array(Boxed::new(alloc, Ty::IntVar(2))?, Const::Value(3)))?;
    let function = Ty::FnPtr {
        safety: Safety::Safe,
        inputs,
        output: Boxed::new(alloc, Ty::Bool)?,
    };
    let mut args = List::new(alloc);
    args.push(GenericArg::Const(Const::Unknown))?;
    let mut projections = List::new(alloc);
    projections.push(AliasBound {
        alias: ITEM,
        ty: Ty::Str,
    })?;
    let mut auto_traits = List::new(alloc);
    auto_traits.push(TraitId(9))?;
    let object = Ty::Dynamic {
        principal: Some(TraitRef {
            id: TraitId(8),
            args,
        }),
        projections,
        auto_traits,
    };
    pair(alloc, function, object)
}

#[test]
fn reads_types_back(rt: HostRuntime) -> Result<(), Fail> {
    let alloc = rt.alloc();
    let ty = large(alloc)?;
    let read = term_type(alloc, &type_term(alloc, &ty)?)?;
    assert!(rt; read.is_same(&ty));
    let mut args = List::new(alloc);
    args.push(GenericArg::Ty(ty))?;
    args.push(GenericArg::Const(Const::Var(1)))?;
    let read = term_args(alloc, &args_term(alloc, &args)?)?;
    assert!(rt; read == args);
    Ok(())
}

#[test]
fn tells_holes_and_what_is_concrete(rt: HostRuntime) -> Result<(), Fail> {
    let alloc = rt.alloc();
    let large = type_term(alloc, &large(alloc)?)?;
    let mut holes = Vec::new(alloc);
    push_holes(&large, &mut holes)?;
    push_holes(&term(alloc, Ok(Ty::Var(7)))?, &mut holes)?;
    assert_eq!(rt;
        holes.as_slice(),
        [Hole::Ty(7), Hole::Int(2), Hole::Ty(7)].as_slice()
    );
    assert!(rt; !is_concrete(&large));
    assert!(rt; is_concrete(&term(alloc, pair(alloc, Ty::Var(7), Ty::Str))?));
    assert!(rt; !is_concrete(&term(alloc, item_of(alloc, Ty::Str))?));
    Ok(())
}
