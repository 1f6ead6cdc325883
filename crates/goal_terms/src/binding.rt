//! What stands for holes.
ghost use Rattle.std.specs.Prelude.{◌≡◌, ◌∷◌, [], ◌++◌, IfOk, OnOk, OnErr, option_map};
ghost use Rattle.goal_terms.specs.Words.{apply, occurs, found, sub, resolved};
ghost use Rattle.goal_terms.specs.Own.{term_of, log_of, fill_of};

use crate::term::{Term, is_same_hole};
use hir_types::{Head, Hole};
use std::alloc::{AllocError, Global};

/// That a term stands for a hole.
#[derive(Debug, Drop, PartialEq, Eq, Hash)]
pub struct Binding {
    pub hole: Hole,
    pub term: Term,
}

/// What the first entry for a hole says.
pub fn find<'a>(bindings: &'a [Binding], hole: Hole) -> Option<&'a Term>
    ensures { option_map (λ t. term_of t.now) result ≡ found (log_of bindings.now) hole }
{
    for binding in bindings {
        if is_same_hole(hole, binding.hole) {
            return Some(&binding.term);
        }
    }
    None
}

/// One binding more.
pub(crate) fn bind(bindings: &mut Vec<Binding>, hole: Hole, term: Term) -> Result<(), AllocError>
    ensures ok { OnOk result (log_of bindings.new.items ≡ log_of bindings.old.items ++ (hole, term_of term) ∷ []) }
    ensures err { OnErr result (log_of bindings.new.items ≡ log_of bindings.old.items) }
{
    bindings.push(Binding { hole, term })?;
    Ok(())
}

/// Whether the hole stands in the term.
#[tactic(auto, using(crate::specs::Terms::term_is))]
pub fn stands_in(hole: Hole, term: &Term) -> bool
    ensures { result ≡ occurs hole (term_of term.now) }
{
    match term {
        Term::Hole(other) => is_same_hole(hole, *other),
        Term::Leaf(_) => false,
        Term::Pair(left, right) => stands_in(hole, left.get()) || stands_in(hole, right.get()),
    }
}

/// The term with another in the place of a hole.
#[tactic(auto, using(crate::specs::Terms::term_is))]
fn put_in(alloc: Global, hole: Hole, put: &Term, term: &Term) -> Result<Term, AllocError>
    ensures { IfOk result (λ made. term_of made ≡ sub hole (term_of put.now) (term_of term.now)) }
{
    match term {
        Term::Hole(other) => {
            if is_same_hole(hole, *other) {
                put.dup(alloc)
            } else {
                Ok(Term::Hole(*other))
            }
        }
        Term::Leaf(head) => Ok(Term::Leaf(*head)),
        Term::Pair(left, right) => {
            let left = put_in(alloc, hole, put, left.get())?;
            let right = put_in(alloc, hole, put, right.get())?;
            Term::join(alloc, left, right)
        }
    }
}

/// The term with a binding put in. Where its hole doesn't stand in it nothing is copied.
fn with_binding(alloc: Global, binding: &Binding, term: Term) -> Result<Term, AllocError>
    ensures { IfOk result (λ made. term_of made ≡ sub binding.now.hole (term_of binding.now.term) (term_of term)) }
{
    if !stands_in(binding.hole, &term) {
        return Ok(term);
    }
    put_in(alloc, binding.hole, &binding.term, &term)
}

/// The term with each binding put in, the first first.
pub fn resolve(alloc: Global, log: &[Binding], term: &Term) -> Result<Term, AllocError>
    ensures { IfOk result (λ made. term_of made ≡ resolved (log_of log.now) (term_of term.now)) }
{
    let mut made = term.dup(alloc)?;
    for binding in log {
        made = with_binding(alloc, binding, made)?;
    }
    Ok(made)
}

/// What stands for a hole, or the end of a list where nothing does.
#[tactic(auto, using(crate::specs::Terms::term_is))]
fn filled_hole(alloc: Global, fills: &[Binding], hole: Hole) -> Result<Term, AllocError>
    ensures { IfOk result (λ made. term_of made ≡ fill_of (log_of fills.now) hole) }
{
    match find(fills, hole) {
        Some(term) => term.dup(alloc),
        None => Ok(Term::Leaf(Head::End)),
    }
}

/// The term with what stands for each of its holes.
#[tactic(auto, using(crate::specs::Terms::term_is))]
pub fn filled(alloc: Global, term: &Term, fills: &[Binding]) -> Result<Term, AllocError>
    ensures { IfOk result (λ made. term_of made ≡ apply (fill_of (log_of fills.now)) (term_of term.now)) }
{
    match term {
        Term::Hole(hole) => filled_hole(alloc, fills, *hole),
        Term::Leaf(head) => Ok(Term::Leaf(*head)),
        Term::Pair(left, right) => {
            let left = filled(alloc, left.get(), fills)?;
            let right = filled(alloc, right.get(), fills)?;
            Term::join(alloc, left, right)
        }
    }
}
