//! Terms as types, and what is in them.
ghost use Rattle.std.specs.Prelude.{◌≡◌, ◌++◌, ◌↔◌, IsTrue, IfOk, OnOk, List, map};
ghost use Rattle.goal_terms.specs.Words.{Ty, GenericArg, no_label, pair, leaf, chain, term, arg_term, mark, read, read_type, read_const, read_part, type_of_hole, type_of_term, const_of_term, types, first_type, first_const, leading_args, all_but_last, principal_of, bound_before, bounds_of, autos_of, IsConcreteHead, IsConcrete};
ghost use Rattle.hir_types.specs.declared.ty.Ty.TheVariants as ty;
ghost use Rattle.hir_types.specs.Faithful.{last};
ghost use Rattle.goal_terms.specs.Own.{term_of, part_read, parts_read, leading, types_with, bounds_with, autos_with, holes_of};

use crate::levels::one_level;
use crate::term::Term;
use hir_types::{
    AdtId, AliasBound, Boxed, CallableDefId, ClosureId, Const, GenericArg, Head, Hole, List,
    MOST_LEVELS, Mutability, OpaqueId, Region, Safety, Text, TraitId, TraitRef, Ty, TypeAliasId,
};
use std::alloc::{AllocError, Global};

/// A part of a term: a mark, a type, a const, or none of them.
#[derive(Clone, Copy, Debug)]
enum TermPart<'a> {
    Mark(Head),
    Ty(&'a Term),
    Const(Const),
    Unread,
}

// ---- parts

fn head_const(head: Head) -> Const
    ensures { result ≡ read_const (mark head) }
{
    match head {
        Head::Value(number) => Const::Value(number),
        Head::ConstParam(number) => Const::Param(number),
        Head::ConstHole => Const::Hole,
        _ => Const::Unknown,
    }
}

fn first_part_const(first: &Term) -> Const
    ensures { result ≡ read_const (read (term_of first.now)).part }
{
    match first {
        Term::Leaf(head) => head_const(*head),
        Term::Hole(_) | Term::Pair(_, _) => Const::Unknown,
    }
}

/// The const that a term is of.
#[tactic(auto, using(crate::specs::Terms::term_is))]
fn term_const(term: &Term) -> Const
    ensures { result ≡ const_of_term (term_of term.now) }
{
    match term {
        Term::Hole(Hole::Const(number)) => Const::Var(*number),
        Term::Hole(_) | Term::Leaf(_) => Const::Unknown,
        Term::Pair(first, _) => first_part_const(first.get()),
    }
}

fn marked<'a>(head: Head, value: &'a Term) -> TermPart<'a>
    ensures { part_read result ≡ read_part (mark head) (type_of_term (term_of value.now)) (const_of_term (term_of value.now)) }
{
    match head {
        Head::TypePart => TermPart::Ty(value),
        Head::ConstPart => TermPart::Const(term_const(value)),
        _ => TermPart::Unread,
    }
}

#[tactic(auto, using(crate::specs::Terms::term_is))]
fn part_behind<'a>(first: &Term, value: &'a Term) -> TermPart<'a>
    ensures { part_read result ≡ (read (pair (term_of first.now) (term_of value.now))).part }
{
    match first {
        Term::Leaf(head) => marked(*head, value),
        Term::Hole(_) | Term::Pair(_, _) => TermPart::Unread,
    }
}

#[tactic(auto, using(crate::specs::Terms::term_is))]
fn part_of(term: &Term) -> TermPart<'_>
    ensures { part_read result ≡ (read (term_of term.now)).part }
{
    match term {
        Term::Hole(_) => TermPart::Unread,
        Term::Leaf(head) => TermPart::Mark(*head),
        Term::Pair(first, value) => part_behind(first.get(), value.get()),
    }
}

#[tactic(auto, using(crate::specs::Terms::term_is))]
fn push_parts<'a>(parts: &mut Vec<TermPart<'a>>, term: &'a Term) -> Result<(), AllocError>
    ensures { OnOk result (parts_read parts.new.items ≡ parts_read parts.old.items ++ (read (term_of term.now)).parts) }
{
    match term {
        Term::Hole(_) | Term::Leaf(_) => Ok(()),
        Term::Pair(first, rest) => {
            parts.push(part_of(first.get()))?;
            push_parts(parts, rest.get())?;
            Ok(())
        }
    }
}

/// The parts of a chain of them.
fn parts_of(alloc: Global, term: &Term) -> Result<Vec<TermPart<'_>>, AllocError>
    ensures { IfOk result (λ parts. parts_read parts.items ≡ (read (term_of term.now)).parts) }
{
    let mut parts = Vec::new(alloc);
    push_parts(&mut parts, term)?;
    Ok(parts)
}

// ---- lists among the parts

#[cycle(read)]
fn push_type(
    alloc: Global,
    part: &TermPart<'_>,
    levels: u32,
    made: &mut Vec<Ty>,
) -> Result<(), AllocError>
    ensures { OnOk result (made.new.items ≡ made.old.items ++ types_with (part_read part.now)) }
{
    match part {
        TermPart::Ty(term) => {
            made.push(type_within(alloc, term, levels)?)?;
            Ok(())
        }
        TermPart::Mark(_) | TermPart::Const(_) | TermPart::Unread => Ok(()),
    }
}

/// The types among the parts.
#[cycle(read)]
fn types_of(alloc: Global, parts: &[TermPart<'_>], levels: u32) -> Result<Vec<Ty>, AllocError>
    ensures { IfOk result (λ made. made.items ≡ types (parts_read parts.now)) }
{
    let mut made = Vec::new(alloc);
    for part in parts {
        push_type(alloc, part, levels, &mut made)?;
    }
    Ok(made)
}

#[cycle(read)]
fn first_type(alloc: Global, parts: &[TermPart<'_>], levels: u32) -> Result<Ty, AllocError>
    ensures { IfOk result (λ made. made ≡ first_type (parts_read parts.now)) }
{
    match parts.first() {
        Some(TermPart::Ty(term)) => type_within(alloc, term, levels),
        Some(_) | None => Ok(Ty::Error),
    }
}

fn first_const(parts: &[TermPart<'_>]) -> Const
    ensures { result ≡ first_const (parts_read parts.now) }
{
    for part in parts {
        match part {
            TermPart::Const(value) => return *value,
            TermPart::Mark(_) | TermPart::Ty(_) | TermPart::Unread => {}
        }
    }
    Const::Unknown
}

#[cycle(read)]
fn arg_of(alloc: Global, part: &TermPart<'_>, levels: u32) -> Result<Option<GenericArg>, AllocError>
    ensures { IfOk result (λ made. made ≡ leading (part_read part.now)) }
{
    match part {
        TermPart::Ty(term) => Ok(Some(GenericArg::Ty(type_within(alloc, term, levels)?))),
        TermPart::Const(value) => Ok(Some(GenericArg::Const(*value))),
        TermPart::Mark(_) | TermPart::Unread => Ok(None),
    }
}

/// The arguments before the first mark.
#[cycle(read)]
fn leading_args(
    alloc: Global,
    parts: &[TermPart<'_>],
    levels: u32,
) -> Result<List<GenericArg>, AllocError>
    ensures { IfOk result (λ made. made ≡ leading_args (parts_read parts.now)) }
{
    let mut made = List::new(alloc);
    for part in parts {
        match arg_of(alloc, part, levels)? {
            Some(arg) => made.push(arg)?,
            None => return Ok(made),
        }
    }
    Ok(made)
}

#[cycle(read)]
fn principal_of(
    alloc: Global,
    parts: &[TermPart<'_>],
    levels: u32,
) -> Result<Option<TraitRef>, AllocError>
    ensures { IfOk result (λ made. made ≡ principal_of (parts_read parts.now)) }
{
    match parts.split_first() {
        Some((TermPart::Mark(Head::Principal(id)), rest)) => Ok(Some(TraitRef {
            id: *id,
            args: leading_args(alloc, rest, levels)?,
        })),
        Some(_) | None => Ok(None),
    }
}

fn push_auto(part: &TermPart<'_>, made: &mut List<TraitId>) -> Result<(), AllocError>
    ensures { OnOk result (made.new ≡ made.old ++ autos_with (part_read part.now)) }
{
    match part {
        TermPart::Mark(Head::AutoTrait(id)) => made.push(*id),
        TermPart::Mark(_) | TermPart::Ty(_) | TermPart::Const(_) | TermPart::Unread => Ok(()),
    }
}

fn autos_of(alloc: Global, parts: &[TermPart<'_>]) -> Result<List<TraitId>, AllocError>
    ensures { IfOk result (λ made. made ≡ autos_of (parts_read parts.now)) }
{
    let mut made = List::new(alloc);
    for part in parts {
        push_auto(part, &mut made)?;
    }
    Ok(made)
}

/// Pushes the bound that these parts begin with, if they do.
#[cycle(read)]
fn push_bound(
    alloc: Global,
    parts: &[TermPart<'_>],
    levels: u32,
    made: &mut List<AliasBound>,
) -> Result<(), AllocError>
    ensures { OnOk result (made.new ≡ made.old ++ bounds_with (parts_read parts.now)) }
{
    match (parts.get(0), parts.get(1)) {
        (Some(TermPart::Mark(Head::Bound(alias))), Some(TermPart::Ty(term))) => {
            let ty = type_within(alloc, term, levels)?;
            made.push(AliasBound { alias: *alias, ty })
        }
        _ => Ok(()),
    }
}

#[cycle(read)]
fn bounds_of(
    alloc: Global,
    parts: &[TermPart<'_>],
    levels: u32,
) -> Result<List<AliasBound>, AllocError>
    ensures { IfOk result (λ made. made ≡ bounds_of (parts_read parts.now)) }
{
    let mut made = List::new(alloc);
    for i in 0..parts.len() {
        push_bound(alloc, &parts[i..], levels, &mut made)?;
    }
    Ok(made)
}

// ---- types

#[cycle(read)]
fn tuple_type(alloc: Global, parts: &[TermPart<'_>], levels: u32) -> Result<Ty, AllocError>
    ensures { IfOk result (λ made. made ≡ ty.Tuple (types (parts_read parts.now))) }
{
    let types = types_of(alloc, parts, levels)?;
    Ok(Ty::Tuple(List::from_vec(types)))
}

#[cycle(read)]
fn boxed_type(alloc: Global, parts: &[TermPart<'_>], levels: u32) -> Result<Boxed<Ty>, AllocError>
    ensures { IfOk result (λ made. made ≡ first_type (parts_read parts.now)) }
{
    let ty = first_type(alloc, parts, levels)?;
    Boxed::new(alloc, ty)
}

#[cycle(read)]
fn array_type(alloc: Global, parts: &[TermPart<'_>], levels: u32) -> Result<Ty, AllocError>
    ensures { IfOk result (λ made. made ≡ ty.Array (first_type (parts_read parts.now)) (first_const (parts_read parts.now))) }
{
    let ty = boxed_type(alloc, parts, levels)?;
    Ok(Ty::Array(ty, first_const(parts)))
}

#[cycle(read)]
fn slice_type(alloc: Global, parts: &[TermPart<'_>], levels: u32) -> Result<Ty, AllocError>
    ensures { IfOk result (λ made. made ≡ ty.Slice (first_type (parts_read parts.now))) }
{
    let ty = boxed_type(alloc, parts, levels)?;
    Ok(Ty::Slice(ty))
}

fn erased_region(alloc: Global) -> Region
    ensures { result ≡ no_label }
{
    Region(Text::from_string(String::new(alloc)))
}

#[cycle(read)]
fn ref_type(
    alloc: Global,
    mutability: Mutability,
    parts: &[TermPart<'_>],
    levels: u32,
) -> Result<Ty, AllocError>
    ensures { IfOk result (λ made. made ≡ ty.Ref mutability no_label (first_type (parts_read parts.now))) }
{
    let ty = boxed_type(alloc, parts, levels)?;
    Ok(Ty::Ref(mutability, erased_region(alloc), ty))
}

#[cycle(read)]
fn raw_ptr_type(
    alloc: Global,
    mutability: Mutability,
    parts: &[TermPart<'_>],
    levels: u32,
) -> Result<Ty, AllocError>
    ensures { IfOk result (λ made. made ≡ ty.RawPtr mutability (first_type (parts_read parts.now))) }
{
    let ty = boxed_type(alloc, parts, levels)?;
    Ok(Ty::RawPtr(mutability, ty))
}

#[cycle(read)]
fn adt_type(alloc: Global, id: AdtId, parts: &[TermPart<'_>], levels: u32) -> Result<Ty, AllocError>
    ensures { IfOk result (λ made. made ≡ ty.Adt id (leading_args (parts_read parts.now))) }
{
    let args = leading_args(alloc, parts, levels)?;
    Ok(Ty::Adt(id, args))
}

#[cycle(read)]
fn fn_def_type(
    alloc: Global,
    id: CallableDefId,
    parts: &[TermPart<'_>],
    levels: u32,
) -> Result<Ty, AllocError>
    ensures { IfOk result (λ made. made ≡ ty.FnDef id (leading_args (parts_read parts.now))) }
{
    let args = leading_args(alloc, parts, levels)?;
    Ok(Ty::FnDef(id, args))
}

#[cycle(read)]
fn projection_type(
    alloc: Global,
    alias: TypeAliasId,
    parts: &[TermPart<'_>],
    levels: u32,
) -> Result<Ty, AllocError>
    ensures { IfOk result (λ made. made ≡ ty.Projection alias (leading_args (parts_read parts.now))) }
{
    let args = leading_args(alloc, parts, levels)?;
    Ok(Ty::Projection(alias, args))
}

#[cycle(read)]
fn associated_type(
    alloc: Global,
    alias: TypeAliasId,
    parts: &[TermPart<'_>],
    levels: u32,
) -> Result<Ty, AllocError>
    ensures { IfOk result (λ made. made ≡ ty.AssociatedType alias (leading_args (parts_read parts.now))) }
{
    let args = leading_args(alloc, parts, levels)?;
    Ok(Ty::AssociatedType(alias, args))
}

#[cycle(read)]
fn opaque_type(
    alloc: Global,
    id: OpaqueId,
    parts: &[TermPart<'_>],
    levels: u32,
) -> Result<Ty, AllocError>
    ensures { IfOk result (λ made. made ≡ ty.Opaque id (leading_args (parts_read parts.now))) }
{
    let args = leading_args(alloc, parts, levels)?;
    Ok(Ty::Opaque(id, args))
}

/// The last of the types, taken from them.
fn take_last(types: &mut Vec<Ty>) -> Ty
    ensures rest { types.new.items ≡ all_but_last types.old.items }
    ensures last { result ≡ last types.old.items }
{
    match types.pop() {
        Some(ty) => ty,
        None => Ty::Error,
    }
}

#[cycle(read)]
fn fn_ptr_type(
    alloc: Global,
    safety: Safety,
    parts: &[TermPart<'_>],
    levels: u32,
) -> Result<Ty, AllocError>
    ensures { IfOk result (λ made. made ≡ ty.FnPtr safety (all_but_last (types (parts_read parts.now))) (last (types (parts_read parts.now)))) }
{
    let mut types = types_of(alloc, parts, levels)?;
    let output = take_last(&mut types);
    Ok(Ty::FnPtr {
        safety,
        inputs: List::from_vec(types),
        output: Boxed::new(alloc, output)?,
    })
}

#[cycle(read)]
fn closure_type(
    alloc: Global,
    id: ClosureId,
    parts: &[TermPart<'_>],
    levels: u32,
) -> Result<Ty, AllocError>
    ensures { IfOk result (λ made. made ≡ ty.Closure id (all_but_last (types (parts_read parts.now))) (last (types (parts_read parts.now)))) }
{
    let mut types = types_of(alloc, parts, levels)?;
    let output = take_last(&mut types);
    Ok(Ty::Closure {
        id,
        inputs: List::from_vec(types),
        output: Boxed::new(alloc, output)?,
    })
}

#[cycle(read)]
fn dynamic_type(alloc: Global, parts: &[TermPart<'_>], levels: u32) -> Result<Ty, AllocError>
    ensures { IfOk result (λ made. made ≡ ty.Dynamic (principal_of (parts_read parts.now)) (bounds_of (parts_read parts.now)) (autos_of (parts_read parts.now))) }
{
    Ok(Ty::Dynamic {
        principal: principal_of(alloc, parts, levels)?,
        projections: bounds_of(alloc, parts, levels)?,
        auto_traits: autos_of(alloc, parts)?,
    })
}

/// A type by its head and the parts behind it.
#[cycle(read)]
fn type_at(alloc: Global, head: Head, parts: &[TermPart<'_>], levels: u32) -> Result<Ty, AllocError>
    ensures { IfOk result (λ made. made ≡ read_type (mark head) (parts_read parts.now)) }
{
    match head {
        Head::Bool => Ok(Ty::Bool),
        Head::Char => Ok(Ty::Char),
        Head::Int(int) => Ok(Ty::Int(int)),
        Head::Uint(uint) => Ok(Ty::Uint(uint)),
        Head::Float(float) => Ok(Ty::Float(float)),
        Head::Str => Ok(Ty::Str),
        Head::Never => Ok(Ty::Never),
        Head::Tuple => tuple_type(alloc, parts, levels),
        Head::Array => array_type(alloc, parts, levels),
        Head::Slice => slice_type(alloc, parts, levels),
        Head::Ref(mutability) => ref_type(alloc, mutability, parts, levels),
        Head::RawPtr(mutability) => raw_ptr_type(alloc, mutability, parts, levels),
        Head::Adt(id) => adt_type(alloc, id, parts, levels),
        Head::FnDef(id) => fn_def_type(alloc, id, parts, levels),
        Head::FnPtr(safety) => fn_ptr_type(alloc, safety, parts, levels),
        Head::Closure(id) => closure_type(alloc, id, parts, levels),
        Head::Dynamic => dynamic_type(alloc, parts, levels),
        Head::Param(number) => Ok(Ty::Param(number)),
        Head::Projection(alias) => projection_type(alloc, alias, parts, levels),
        Head::AssociatedType(alias) => associated_type(alloc, alias, parts, levels),
        Head::Opaque(id) => opaque_type(alloc, id, parts, levels),
        Head::Hole => Ok(Ty::Hole),
        _ => Ok(Ty::Error),
    }
}

/// The type whose term has these two parts.
#[cycle(read)]
#[tactic(auto, using(crate::specs::Terms::term_is))]
fn type_of(alloc: Global, first: &Term, rest: &Term, levels: u32) -> Result<Ty, AllocError>
    ensures { IfOk result (λ made. made ≡ type_of_term (pair (term_of first.now) (term_of rest.now))) }
{
    match first {
        Term::Leaf(head) => {
            let parts = parts_of(alloc, rest)?;
            type_at(alloc, *head, &parts, levels)
        }
        Term::Hole(_) | Term::Pair(_, _) => Ok(Ty::Error),
    }
}

fn hole_type(hole: Hole) -> Ty
    ensures { result ≡ type_of_hole hole }
{
    match hole {
        Hole::Ty(number) => Ty::Var(number),
        Hole::Int(number) => Ty::IntVar(number),
        Hole::Const(_) => Ty::Error,
    }
}

#[cycle(read)]
#[tactic(auto, using(crate::specs::Terms::term_is))]
fn type_within(alloc: Global, term: &Term, levels: u32) -> Result<Ty, AllocError>
    ensures { IfOk result (λ made. made ≡ type_of_term (term_of term.now)) }
{
    let below = one_level(levels)?;
    match term {
        Term::Hole(hole) => Ok(hole_type(*hole)),
        Term::Leaf(_) => Ok(Ty::Error),
        Term::Pair(first, rest) => type_of(alloc, first.get(), rest.get(), below),
    }
}

/// The type that a term is of, without lifetimes.
pub fn term_type(alloc: Global, from: &Term) -> Result<Ty, AllocError>
    ensures read { IfOk result (λ made. made ≡ type_of_term (term_of from.now)) }
    ensures is { IfOk result (λ made. (t : Ty) → term t ≡ term_of from.now → term made ≡ term_of from.now) }
{
    let ty = type_within(alloc, from, MOST_LEVELS)?;
    Ok(ty)
}

/// The arguments that a term is of, without lifetimes.
pub fn term_args(alloc: Global, from: &Term) -> Result<List<GenericArg>, AllocError>
    ensures read { IfOk result (λ made. made ≡ leading_args (read (term_of from.now)).parts) }
    ensures is { IfOk result (λ made. (xs : List GenericArg) → chain (map arg_term xs) ≡ term_of from.now → chain (map arg_term made) ≡ term_of from.now) }
{
    let parts = parts_of(alloc, from)?;
    let args = leading_args(alloc, &parts, MOST_LEVELS)?;
    Ok(args)
}

// ---- what is in terms

fn is_concrete_head(head: Head) -> bool
    ensures { IsTrue result ↔ IsConcreteHead head }
{
    match head {
        Head::Projection(_) | Head::AssociatedType(_) | Head::Opaque(_) => false,
        Head::Bound(_) => false,
        Head::Error | Head::UnknownConst => false,
        _ => true,
    }
}

/// Whether neither an alias, nor an opaque type, nor `{unknown}` is in the term.
#[tactic(auto, using(crate::specs::Terms::term_is))]
pub fn is_concrete(term: &Term) -> bool
    ensures { IsTrue result ↔ IsConcrete (term_of term.now) }
{
    match term {
        Term::Hole(_) => true,
        Term::Leaf(head) => is_concrete_head(*head),
        Term::Pair(left, right) => is_concrete(left.get()) && is_concrete(right.get()),
    }
}

/// Pushes the holes of the term in order, each as often as it stands there.
#[tactic(auto, using(crate::specs::Terms::term_is))]
pub fn push_holes(term: &Term, holes: &mut Vec<Hole>) -> Result<(), AllocError>
    ensures { OnOk result (holes.new.items ≡ holes.old.items ++ holes_of (term_of term.now)) }
{
    match term {
        Term::Hole(hole) => {
            holes.push(*hole)?;
            Ok(())
        }
        Term::Leaf(_) => Ok(()),
        Term::Pair(left, right) => {
            push_holes(left.get(), holes)?;
            push_holes(right.get(), holes)?;
            Ok(())
        }
    }
}
