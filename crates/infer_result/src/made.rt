//! Whether a term is that of a type in scope, of which no part is an associated type that is still to be read, an item that can be called or
//! `{unknown}`.
ghost use Rattle.std.specs.Prelude.{◌≡◌, ◌↔◌, IsTrue};
ghost use Rattle.infer_result.specs.Words.{alias_params, has_params, whole, part, rest, width, IsTypeMark, IsEnd, IsMadeOf, term_of};
ghost use Rattle.infer_result.specs.Words.infer_table.Preserved.{IsHead};
ghost use Rattle.infer_result.specs.Own.{is_read_head, body_scope};

use goal_terms::Term;
use hir_facts::RawFacts;
use hir_raw::alias_params;
use hir_types::{Head, TypeAliasId};

/// Whether these are so many parts.
#[tactic(auto, using(crate::specs::Words::term_is))]
fn has_parts(parts: &Term, count: usize) -> bool
    ensures { IsTrue result ↔ (width (term_of parts.now) ≡ count) }
{
    match parts {
        Term::Hole(_) | Term::Leaf(_) => count == 0,
        Term::Pair(_, others) => count > 0 && has_parts(others.get(), count - 1),
    }
}

/// Whether these are as many parts as the associated type has parameters.
fn are_alias_parts(facts: &RawFacts, id: TypeAliasId, parts: &Term) -> bool
    ensures { IsTrue result ↔ IsTrue (has_params (alias_params facts.now id) (width (term_of parts.now))) }
{
    match alias_params(facts, id) {
        Some(params) => has_parts(parts, params),
        None => false,
    }
}

/// Whether a head may stand over these parts, where so many parameters are in scope, and associated types that stay may be types or not.
fn is_read_head(facts: &RawFacts, params: usize, associated: bool, head: Head, parts: &Term) -> bool
    ensures { IsTrue result ↔ IsTrue (is_read_head (body_scope facts.now params associated) head (width (term_of parts.now))) }
{
    match head {
        Head::Bool | Head::Char | Head::Int(_) | Head::Uint(_) => has_parts(parts, 0),
        Head::Tuple => true,
        Head::Adt(id) => match facts.adts.get(id.0 as usize) {
            Some(adt) => has_parts(parts, adt.params.len()),
            None => false,
        },
        Head::Param(number) => has_parts(parts, 0) && (number as usize) < params,
        Head::AssociatedType(id) => associated && are_alias_parts(facts, id, parts),
        _ => false,
    }
}

#[tactic(auto, using(crate::specs::Words::term_is))]
fn is_type_mark(term: &Term) -> bool
    ensures { IsTrue result ↔ IsTypeMark (term_of term.now) }
{
    match term {
        Term::Leaf(Head::TypePart) => true,
        Term::Hole(_) | Term::Leaf(_) | Term::Pair(_, _) => false,
    }
}

#[tactic(auto, using(crate::specs::Words::term_is))]
fn is_over(facts: &RawFacts, params: usize, associated: bool, first: &Term, parts: &Term) -> bool
    ensures { IsTrue result ↔ IsHead (is_read_head (body_scope facts.now params associated)) (term_of first.now) (width (term_of parts.now)) }
{
    match first {
        Term::Leaf(head) => is_read_head(facts, params, associated, *head, parts),
        Term::Hole(_) | Term::Pair(_, _) => false,
    }
}

/// Whether the term is that of such a type.
#[cycle(made)]
#[tactic(auto, using(crate::specs::Words::term_is))]
pub fn is_read_type(facts: &RawFacts, params: usize, associated: bool, term: &Term) -> bool
    ensures { IsTrue result ↔ IsMadeOf (is_read_head (body_scope facts.now params associated)) whole (term_of term.now) }
{
    match term {
        Term::Hole(_) => true,
        Term::Leaf(_) => false,
        Term::Pair(first, parts) => {
            is_over(facts, params, associated, first.get(), parts.get())
                && are_read_parts(facts, params, associated, parts.get())
        }
    }
}

#[cycle(made)]
#[tactic(auto, using(crate::specs::Words::term_is))]
fn is_read_part(facts: &RawFacts, params: usize, associated: bool, term: &Term) -> bool
    ensures { IsTrue result ↔ IsMadeOf (is_read_head (body_scope facts.now params associated)) part (term_of term.now) }
{
    match term {
        Term::Hole(_) | Term::Leaf(_) => false,
        Term::Pair(first, ty) => is_type_mark(first.get())
            && is_read_type(facts, params, associated, ty.get()),
    }
}

#[cycle(made)]
#[tactic(auto, using(crate::specs::Words::term_is))]
fn are_read_parts(facts: &RawFacts, params: usize, associated: bool, term: &Term) -> bool
    ensures { IsTrue result ↔ IsMadeOf (is_read_head (body_scope facts.now params associated)) rest (term_of term.now) }
{
    match term {
        Term::Hole(_) => false,
        Term::Leaf(head) => is_end(*head),
        Term::Pair(first, others) => {
            is_read_part(facts, params, associated, first.get())
                && are_read_parts(facts, params, associated, others.get())
        }
    }
}

fn is_end(head: Head) -> bool
    ensures { IsTrue result ↔ IsEnd head }
{
    match head {
        Head::End => true,
        _ => false,
    }
}
