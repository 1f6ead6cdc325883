//! The parts of goals.
ghost use Rattle.std.specs.Prelude.{◌≡◌, ◌↔◌, IsTrue, IfOk};
ghost use Rattle.std.specs.List.{list_any};
ghost use Rattle.goal_search.specs.Words.{leaf, args_of, type_of, key, self_type, only, is_trait, is_among, IsKnownPart, IsKnown, term_of};
ghost use Rattle.hir_types.specs.declared.head.Head.TheVariants as head;
ghost use Rattle.goal_search.specs.Own.{kind_of};

use crate::sources::Kind;
use goal_terms::Term;
use hir_types::{Boxed, Head, TraitId};
use std::alloc::{AllocError, Global};

/// The arguments of a projection. `end` is the end of a list, for a goal that has none.
#[tactic(auto, using(crate::specs::Words::term_is))]
pub fn args_of<'a>(parts: &'a Term, end: &'a Term) -> &'a Term
    requires { term_of end.now ≡ leaf head.End }
    ensures { term_of result.now ≡ args_of (term_of parts.now) }
{
    match parts {
        Term::Pair(args, _) => args.get(),
        Term::Hole(_) | Term::Leaf(_) => end,
    }
}

/// The type of a projection.
#[tactic(auto, using(crate::specs::Words::term_is))]
pub fn type_of<'a>(parts: &'a Term, end: &'a Term) -> &'a Term
    requires { term_of end.now ≡ leaf head.End }
    ensures { term_of result.now ≡ type_of (term_of parts.now) }
{
    match parts {
        Term::Pair(_, ty) => ty.get(),
        Term::Hole(_) | Term::Leaf(_) => end,
    }
}

/// That by which clauses shadow rules: the arguments without a projection's type.
pub fn key_of<'a>(kind: Kind, parts: &'a Term, end: &'a Term) -> &'a Term
    requires { term_of end.now ≡ leaf head.End }
    ensures { term_of result.now ≡ key (kind_of kind) (term_of parts.now) }
{
    match kind {
        Kind::Implements(_) => parts,
        Kind::Projects(_) => args_of(parts, end),
    }
}

/// The first of the arguments.
#[tactic(auto, using(crate::specs::Words::term_is))]
pub fn self_type<'a>(args: &'a Term, end: &'a Term) -> &'a Term
    requires { term_of end.now ≡ leaf head.End }
    ensures { term_of result.now ≡ self_type (term_of args.now) }
{
    match args {
        Term::Pair(first, _) => match first.get() {
            Term::Pair(_, ty) => ty.get(),
            Term::Hole(_) | Term::Leaf(_) => end,
        },
        Term::Hole(_) | Term::Leaf(_) => end,
    }
}

#[tactic(auto, using(crate::specs::Words::term_is))]
fn is_known_part(part: &Term) -> bool
    ensures { IsTrue result ↔ IsKnownPart (term_of part.now) }
{
    match part {
        Term::Pair(_, ty) => match ty.get() {
            Term::Hole(_) => false,
            Term::Leaf(_) | Term::Pair(_, _) => true,
        },
        Term::Hole(_) | Term::Leaf(_) => false,
    }
}

/// Whether the first of the arguments, the self type, is no hole.
#[tactic(auto, using(crate::specs::Words::term_is))]
pub fn is_known(args: &Term) -> bool
    ensures { IsTrue result ↔ IsKnown (term_of args.now) }
{
    match args {
        Term::Pair(first, _) => is_known_part(first.get()),
        Term::Hole(_) | Term::Leaf(_) => false,
    }
}

/// The arguments of a trait without parameters.
#[tactic(auto, using(crate::specs::Words::term_is))]
pub fn only(alloc: Global, ty: &Term) -> Result<Term, AllocError>
    ensures { IfOk result (λ args. term_of args ≡ only (term_of ty.now)) }
{
    let mark = Boxed::new(alloc, Term::Leaf(Head::TypePart))?;
    let part = Term::Pair(mark, Boxed::new(alloc, ty.dup(alloc)?)?);
    Ok(Term::Pair(
        Boxed::new(alloc, part)?,
        Boxed::new(alloc, Term::Leaf(Head::End))?,
    ))
}

fn is_same_trait(left: TraitId, right: TraitId) -> bool
    ensures { IsTrue result ↔ left ≡ right }
{
    left == right
}

fn is_trait(wanted: TraitId, listed: TraitId) -> bool
    ensures { result ≡ is_trait wanted listed }
{
    listed.0 == wanted.0
}

fn is_listed(traits: &[TraitId], wanted: TraitId) -> bool
    ensures { result ≡ list_any (is_trait wanted) traits.now }
{
    for listed in traits {
        if is_trait(wanted, *listed) {
            return true;
        }
    }
    false
}

/// Whether the kind is that of one of these traits.
pub fn is_among(traits: &[TraitId], kind: Kind) -> bool
    ensures { result ≡ is_among traits.now (kind_of kind) }
{
    match kind {
        Kind::Implements(wanted) => is_listed(traits, wanted),
        Kind::Projects(_) => false,
    }
}

/// Whether the two ask for the same.
pub fn is_same_kind(left: Kind, right: Kind) -> bool
    ensures { IsTrue result ↔ kind_of left ≡ kind_of right }
{
    match (left, right) {
        (Kind::Implements(left), Kind::Implements(right)) => is_same_trait(left, right),
        (Kind::Projects(left), Kind::Projects(right)) => left == right,
        _ => false,
    }
}
