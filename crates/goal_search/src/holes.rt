//! What stands for the holes of a term that is read.
ghost use Rattle.std.specs.Prelude.{◌≡◌, IfOk};
ghost use Rattle.goal_search.specs.Words.{term_of};
ghost use Rattle.goal_search.specs.Own.{holes_fill};

use goal_terms::{Binding, Term, find};
use hir_types::{Head, Hole};
use std::alloc::{AllocError, Global};

/// What stands for the holes of a term: of a goal they stay, and of a rule they are filled.
#[derive(Clone, Copy)]
pub enum Holes<'a> {
    Stay,
    Filled(&'a [Binding]),
}

impl Holes<'_> {
    /// What stands for a hole.
    pub fn stand_for(&self, alloc: Global, hole: Hole) -> Result<Term, AllocError>
        ensures { IfOk result (λ term. term_of term ≡ holes_fill self.now hole) }
    {
        match self {
            Holes::Stay => Ok(Term::Hole(hole)),
            Holes::Filled(fills) => match find(fills, hole) {
                Some(term) => term.dup(alloc),
                None => Ok(Term::Leaf(Head::End)),
            },
        }
    }
}
