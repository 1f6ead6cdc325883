//! Parts of rules among the holes of a goal.
ghost use Rattle.std.specs.Prelude.{◌≡◌, ◌+◌, IfOk, OnOk};
ghost use Rattle.hir_types.specs.declared.head.Hole.TheVariants as hole_of;
ghost use Rattle.goal_terms.specs.Words.{hole, hole_number, IsBelow};
ghost use Rattle.goal_terms.specs.Own.{term_of, log_of, AreNames, Opened};

use crate::binding::{Binding, bind, find};
use crate::term::{Role, Term};
use hir_types::Hole;
use std::alloc::{AllocError, Global};

fn number_of(hole: Hole) -> usize
    ensures { result ≡ hole_number hole }
{
    match hole {
        Hole::Ty(number) | Hole::Int(number) | Hole::Const(number) => number,
    }
}

/// A number above those of all holes in the term.
#[tactic(auto, using(crate::specs::Terms::term_is))]
pub(crate) fn number_above(term: &Term) -> Result<usize, AllocError>
    ensures { IfOk result (λ n. IsBelow n (term_of term.now)) }
{
    match term {
        Term::Hole(hole) => number_of(*hole).checked_add(1).ok_or(AllocError),
        Term::Leaf(_) => Ok(0),
        Term::Pair(left, right) => {
            let left = number_above(left.get())?;
            let right = number_above(right.get())?;
            Ok(left.max(right))
        }
    }
}

/// The type holes that stand for a part's holes, and the number from which on no hole is in use.
#[derive(Debug, Drop)]
pub(crate) struct Opening {
    pub names: Vec<Binding>,
    pub next: usize,
}

impl Opening {
    /// A type hole that is not in use.
    fn fresh(&mut self) -> Result<Term, AllocError>
        ensures made { IfOk result (λ made. term_of made ≡ hole (hole_of.Ty self.old.next)) }
        ensures next { OnOk result (self.new.next ≡ self.old.next + 1) }
        ensures names { self.new.names ≡ self.old.names }
    {
        let number = self.next;
        self.next = number.checked_add(1).ok_or(AllocError)?;
        Ok(Term::Hole(Hole::Ty(number)))
    }

    /// The name of a part's hole.
    fn open_hole(&mut self, alloc: Global, met: Hole) -> Result<Term, AllocError>
        requires { AreNames self.old.next (log_of self.old.names.items) }
        ensures { IfOk result (λ made. Opened self.old.next (log_of self.old.names.items) self.new.next (log_of self.new.names.items) (hole met) (term_of made)) }
    {
        if let Some(name) = find(&self.names, met) {
            return name.dup(alloc);
        }
        let fresh = self.fresh()?;
        let name = fresh.dup(alloc)?;
        bind(&mut self.names, met, name)?;
        Ok(fresh)
    }

    /// A part with its names, and a hole of its own for each alias that is to be read.
    #[tactic(auto, using(crate::specs::Terms::term_is))]
    pub fn open(&mut self, alloc: Global, part: &Term) -> Result<Term, AllocError>
        requires { AreNames self.old.next (log_of self.old.names.items) }
        ensures { IfOk result (λ made. Opened self.old.next (log_of self.old.names.items) self.new.next (log_of self.new.names.items) (term_of part.now) (term_of made)) }
    {
        match part {
            Term::Hole(hole) => self.open_hole(alloc, *hole),
            Term::Leaf(head) => Ok(Term::Leaf(*head)),
            Term::Pair(left, right) => match left.get().role() {
                Role::Alias(_) => self.fresh(),
                Role::Plain => {
                    let left = self.open(alloc, left.get())?;
                    let right = self.open(alloc, right.get())?;
                    Term::join(alloc, left, right)
                }
            },
        }
    }
}
