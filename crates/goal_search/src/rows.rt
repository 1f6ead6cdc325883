//! Goals that hold without an impl: what has a size, and what is copied.
ghost use Rattle.std.specs.Prelude.{◌≡◌, IfOk, option_map};
ghost use Rattle.goal_search.specs.Words.{leaf, hole_number, types_of, copied, copied_head, tuple_tail, field_tail, head_tail, tail_of, term_of};
ghost use Rattle.hir_types.specs.declared.head.Head.TheVariants as head;
ghost use Rattle.goal_search.specs.Own.{kind_of, asked_list, system, copied_of, tail_as, IsLastPartIf, IsLastIf, IsNthIf, IsFieldAt, IsPartKind, PushesGoals, PartsAre, CopiesAre};

use crate::answer::Answer;
use crate::parts::{is_among, only, self_type};
use crate::sources::{Asked, Kind, Sources};
use goal_terms::Term;
use hir_types::{AdtId, Head, Hole, Mutability};
use std::alloc::{AllocError, Global};

/// What has to be copied so that a type is.
#[derive(Clone, Copy)]
pub enum Copied<'a> {
    /// Nothing.
    Whole,
    /// The types among these parts.
    WithParts(&'a Term),
    /// What impls say.
    ByImpls,
    /// What stands outermost isn't known.
    Unclear,
}

/// Where it is decided whether a type has a size.
#[derive(Clone, Copy)]
pub enum Tail<'a> {
    HasSize,
    HasNone,
    /// At the type of the last field, at these arguments.
    Field(&'a Term, &'a Term),
    /// At the last of these parts.
    Last(&'a Term),
    /// By a clause or a bound.
    Asked,
    /// What stands outermost isn't known.
    Unclear,
}

fn copied_head<'a>(head: Head, parts: &'a Term) -> Copied<'a>
    ensures { copied_of result ≡ copied_head head (term_of parts.now) }
{
    match head {
        Head::Never | Head::FnDef(_) | Head::FnPtr(_) | Head::RawPtr(_) => Copied::Whole,
        Head::Ref(Mutability::Not) => Copied::Whole,
        Head::Tuple | Head::Array => Copied::WithParts(parts),
        _ => Copied::ByImpls,
    }
}

/// What has to be copied so that the type is.
#[tactic(auto, using(crate::specs::Words::term_is))]
pub fn copied_by(ty: &Term) -> Copied<'_>
    ensures { copied_of result ≡ copied (term_of ty.now) }
{
    match ty {
        Term::Pair(first, parts) => match first.get() {
            Term::Leaf(head) => copied_head(*head, parts.get()),
            Term::Hole(_) | Term::Pair(_, _) => Copied::Unclear,
        },
        Term::Hole(_) | Term::Leaf(_) => Copied::Unclear,
    }
}

#[tactic(auto, using(crate::specs::Words::term_is))]
fn tuple_tail(parts: &Term) -> Tail<'_>
    ensures { tail_as result ≡ tuple_tail (term_of parts.now) }
{
    match parts {
        Term::Hole(_) => Tail::Unclear,
        Term::Leaf(_) => Tail::HasSize,
        Term::Pair(_, _) => Tail::Last(parts),
    }
}

fn adt_tail<'a>(sources: &'a Sources, adt: AdtId, args: &'a Term) -> Tail<'a>
    ensures { tail_as result ≡ field_tail ((system sources.now).last_field adt) (term_of args.now) }
{
    match sources.last_fields.get(adt.0 as usize) {
        Some(Some(field)) => Tail::Field(field, args),
        Some(None) | None => Tail::HasSize,
    }
}

fn head_tail<'a>(sources: &'a Sources, head: Head, parts: &'a Term) -> Tail<'a>
    ensures { tail_as result ≡ head_tail (system sources.now) head (term_of parts.now) }
{
    match head {
        Head::Str | Head::Slice | Head::Dynamic => Tail::HasNone,
        Head::Adt(adt) => adt_tail(sources, adt, parts),
        Head::Tuple => tuple_tail(parts),
        Head::Param(_) | Head::AssociatedType(_) | Head::Opaque(_) => Tail::Asked,
        _ => Tail::HasSize,
    }
}

/// Where it is decided whether the type has a size.
#[tactic(auto, using(crate::specs::Words::term_is))]
pub fn tail_of<'a>(sources: &'a Sources, ty: &'a Term) -> Tail<'a>
    ensures { tail_as result ≡ tail_of (system sources.now) (term_of ty.now) }
{
    match ty {
        Term::Pair(first, parts) => match first.get() {
            Term::Leaf(head) => head_tail(sources, *head, parts.get()),
            Term::Hole(_) | Term::Pair(_, _) => Tail::Unclear,
        },
        Term::Hole(_) | Term::Leaf(_) => Tail::Unclear,
    }
}

#[tactic(auto, using(crate::specs::Words::term_is))]
fn last_part(part: &Term) -> Option<&Term>
    ensures { IsLastPartIf (term_of part.now) (option_map (λ t. term_of t.now) result) }
{
    match part {
        Term::Pair(mark, ty) => match mark.get() {
            Term::Leaf(Head::TypePart) => Some(ty.get()),
            Term::Leaf(_) | Term::Hole(_) | Term::Pair(_, _) => None,
        },
        Term::Hole(_) | Term::Leaf(_) => None,
    }
}

/// The type that is the last of the parts.
#[tactic(auto, using(crate::specs::Words::term_is))]
pub fn last_type(parts: &Term) -> Option<&Term>
    ensures { IsLastIf (term_of parts.now) (option_map (λ t. term_of t.now) result) }
{
    match parts {
        Term::Pair(part, rest) => match rest.get() {
            Term::Leaf(_) => last_part(part.get()),
            Term::Pair(_, _) => last_type(rest.get()),
            Term::Hole(_) => None,
        },
        Term::Hole(_) | Term::Leaf(_) => None,
    }
}

/// What is known of whether a type is copied.
#[derive(Debug, Drop)]
pub enum Copies {
    /// The answer, without asking.
    Known(Answer),
    /// It is where these goals hold.
    Of(Vec<Asked>),
}

/// A part of a type.
#[derive(Clone, Copy)]
pub enum Part<'a> {
    Type(&'a Term),
    Const,
    Other,
}

#[tactic(auto, using(crate::specs::Words::term_is))]
fn part_kind(part: &Term) -> Part<'_>
    ensures { IsPartKind (term_of part.now) result }
{
    match part {
        Term::Pair(mark, ty) => match mark.get() {
            Term::Leaf(Head::TypePart) => Part::Type(ty.get()),
            Term::Leaf(Head::ConstPart) => Part::Const,
            Term::Leaf(_) | Term::Hole(_) | Term::Pair(_, _) => Part::Other,
        },
        Term::Hole(_) | Term::Leaf(_) => Part::Other,
    }
}

/// Adds for each type among the parts that it implements the trait; false where they are no parts.
#[tactic(auto, using(crate::specs::Words::term_is))]
fn push_goals(
    alloc: Global,
    kind: Kind,
    goals: &mut Vec<Asked>,
    parts: &Term,
) -> Result<bool, AllocError>
    ensures { IfOk result (λ yes. PushesGoals (kind_of kind) yes (asked_list goals.old.items) (asked_list goals.new.items) (types_of (term_of parts.now))) }
{
    match parts {
        Term::Hole(_) => Ok(false),
        Term::Leaf(_) => Ok(true),
        Term::Pair(part, rest) => {
            match part_kind(part.get()) {
                Part::Type(ty) => {
                    let parts = only(alloc, ty)?;
                    goals.push(Asked { kind, parts })?;
                    push_goals(alloc, kind, goals, rest.get())
                }
                Part::Const => push_goals(alloc, kind, goals, rest.get()),
                Part::Other => Ok(false),
            }
        }
    }
}

fn copied_parts(alloc: Global, kind: Kind, parts: &Term) -> Result<Copies, AllocError>
    ensures { IfOk result (λ copies. PartsAre (kind_of kind) (types_of (term_of parts.now)) copies) }
{
    let mut goals = Vec::new(alloc);
    if push_goals(alloc, kind, &mut goals, parts)? {
        Ok(Copies::Of(goals))
    } else {
        Ok(Copies::Known(Answer::Undecided))
    }
}

/// What is known of whether the goal holds because its self type is copied with its parts.
pub fn copied_goals(
    alloc: Global,
    sources: &Sources,
    kind: Kind,
    target: &Term,
) -> Result<Copies, AllocError>
    ensures { IfOk result (λ copies. CopiesAre (system sources.now) (kind_of kind) (term_of target.now) copies) }
{
    if !is_among(&sources.copied, kind) {
        return Ok(Copies::Known(Answer::No));
    }
    let end = Term::Leaf(Head::End);
    match copied_by(self_type(target, &end)) {
        Copied::Whole => Ok(Copies::Of(Vec::new(alloc))),
        Copied::WithParts(parts) => copied_parts(alloc, kind, parts),
        Copied::ByImpls => Ok(Copies::Known(Answer::No)),
        Copied::Unclear => Ok(Copies::Known(Answer::Undecided)),
    }
}

/// The argument at a place.
#[tactic(auto, using(crate::specs::Words::term_is))]
fn nth(args: &Term, place: usize) -> Option<&Term>
    ensures { IsNthIf place (term_of args.now) (option_map (λ t. term_of t.now) result) }
{
    match args {
        Term::Pair(part, rest) => {
            if place > 0 {
                return nth(rest.get(), place - 1);
            }
            match part.get() {
                Term::Pair(_, ty) => Some(ty.get()),
                Term::Hole(_) | Term::Leaf(_) => None,
            }
        }
        Term::Hole(_) | Term::Leaf(_) => None,
    }
}

fn number_of(hole: Hole) -> usize
    ensures { result ≡ hole_number hole }
{
    match hole {
        Hole::Ty(number) | Hole::Int(number) | Hole::Const(number) => number,
    }
}

/// The type of a field at these arguments; `None` where a hole of it has none.
#[tactic(auto, using(crate::specs::Words::term_is))]
pub fn field_at(alloc: Global, field: &Term, args: &Term) -> Result<Option<Term>, AllocError>
    ensures { IfOk result (λ at. IsFieldAt (term_of args.now) (term_of field.now) (option_map term_of at)) }
{
    match field {
        Term::Hole(hole) => match nth(args, number_of(*hole)) {
            Some(arg) => Ok(Some(arg.dup(alloc)?)),
            None => Ok(None),
        },
        Term::Leaf(head) => Ok(Some(Term::Leaf(*head))),
        Term::Pair(first, second) => {
            let Some(first) = field_at(alloc, first.get(), args)? else {
                return Ok(None);
            };
            let Some(second) = field_at(alloc, second.get(), args)? else {
                return Ok(None);
            };
            Ok(Some(Term::join(alloc, first, second)?))
        }
    }
}
