//! Whether two terms can be the same.
ghost use Rattle.std.specs.Prelude.{◌≡◌, ◌+◌, IfOk, MatchBool};
ghost use Rattle.goal_terms.specs.Words.{hole, pair, apply, staying, projects, NeverSame, IsNeverItself};
ghost use Rattle.goal_terms.specs.Own.{term_of, HasHeads, moved, CanBeSame, CanBeItself};

use crate::equate::{MOST_DEPTH, make_equal};
use crate::opening::number_above;
use crate::term::Term;
use hir_types::{Head, Hole, TypeAliasId};
use std::alloc::{AllocError, Global};

fn raised(by: usize, number: usize) -> Result<usize, AllocError>
    ensures { IfOk result (λ sum. sum ≡ by + number) }
{
    by.checked_add(number).ok_or(AllocError)
}

fn moved_hole(met: Hole, by: usize) -> Result<Hole, AllocError>
    ensures { IfOk result (λ made. hole made ≡ moved by met) }
{
    match met {
        Hole::Ty(number) => Ok(Hole::Ty(raised(by, number)?)),
        Hole::Int(number) => Ok(Hole::Int(raised(by, number)?)),
        Hole::Const(number) => Ok(Hole::Const(raised(by, number)?)),
    }
}

/// The term with each hole as the one of its kind that is so much further on.
#[tactic(auto, using(crate::specs::Terms::term_is))]
fn moved_term(alloc: Global, term: &Term, by: usize) -> Result<Term, AllocError>
    ensures { IfOk result (λ made. term_of made ≡ apply (moved by) (term_of term.now)) }
{
    match term {
        Term::Hole(met) => Ok(Term::Hole(moved_hole(*met, by)?)),
        Term::Leaf(head) => Ok(Term::Leaf(*head)),
        Term::Pair(left, right) => {
            let left = moved_term(alloc, left.get(), by)?;
            let right = moved_term(alloc, right.get(), by)?;
            Term::join(alloc, left, right)
        }
    }
}

/// The alias at these arguments, read and left as it stands.
#[tactic(auto, using(crate::specs::Terms::term_is))]
pub fn staying_term(alloc: Global, alias: TypeAliasId, args: &Term) -> Result<Term, AllocError>
    ensures { IfOk result (λ made. term_of made ≡ staying alias (term_of args.now)) }
{
    let args = args.dup(alloc)?;
    Term::join(alloc, Term::Leaf(Head::AssociatedType(alias)), args)
}

/// Whether the two terms have a common instance, where each has holes of its own.
pub fn can_be_same(alloc: Global, left: &Term, right: &Term) -> Result<bool, AllocError>
    requires left { HasHeads (term_of left.now) }
    requires right { HasHeads (term_of right.now) }
    ensures { IfOk result (λ yes. MatchBool yes (CanBeSame (term_of left.now) (term_of right.now)) (NeverSame (term_of left.now) (term_of right.now))) }
{
    let by = number_above(right)?;
    let moved = moved_term(alloc, left, by)?;
    let mut log = Vec::new(alloc);
    make_equal(alloc, &mut log, &moved, right, MOST_DEPTH)
}

/// Whether the type can be the alias at these arguments as it stands, with their holes in common.
pub fn can_be_itself(
    alloc: Global,
    args: &Term,
    ty: &Term,
    alias: TypeAliasId,
) -> Result<bool, AllocError>
    requires args { HasHeads (term_of args.now) }
    requires ty { HasHeads (term_of ty.now) }
    ensures { IfOk result (λ yes. MatchBool yes (CanBeItself alias (term_of args.now) (term_of ty.now)) (IsNeverItself (projects alias) (pair (term_of args.now) (term_of ty.now)))) }
{
    let itself = staying_term(alloc, alias, args)?;
    let mut log = Vec::new(alloc);
    make_equal(alloc, &mut log, ty, &itself, MOST_DEPTH)
}
