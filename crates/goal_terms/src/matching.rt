//! Matching a rule's part against a term.
ghost use Rattle.std.specs.Prelude.{IfOk, MatchOption};
ghost use Rattle.goal_terms.specs.Words.{hole, MayRead};
ghost use Rattle.goal_terms.specs.Own.{term_of, log_of, fill_of, MatchedIf, CannotRead};

use crate::binding::{Binding, bind, find};
use crate::term::{Role, Term};
use hir_types::Hole;
use std::alloc::{AllocError, Global};

/// Matches a hole: where it is met first it is set, and later what it was set to is compared.
fn match_hole(
    alloc: Global,
    fills: &mut Vec<Binding>,
    met: Hole,
    target: &Term,
) -> Result<bool, AllocError>
    ensures { IfOk result (λ yes. MatchedIf yes (log_of fills.old.items) (log_of fills.new.items) (hole met) (term_of target.now)) }
{
    if let Some(given) = find(fills, met) {
        return Ok(given.is_same(target));
    }
    let target = target.dup(alloc)?;
    bind(fills, met, target)?;
    Ok(true)
}

/// Matches a part with what some holes are set to, and sets the others.
#[tactic(auto, using(crate::specs::Terms::term_is))]
fn match_into(
    alloc: Global,
    fills: &mut Vec<Binding>,
    part: &Term,
    target: &Term,
) -> Result<bool, AllocError>
    ensures { IfOk result (λ yes. MatchedIf yes (log_of fills.old.items) (log_of fills.new.items) (term_of part.now) (term_of target.now)) }
{
    match part {
        Term::Hole(hole) => match_hole(alloc, fills, *hole, target),
        Term::Leaf(head) => Ok(target.is_leaf(*head)),
        Term::Pair(left, right) => match left.get().role() {
            Role::Alias(_) => Ok(true),
            Role::Plain => match target {
                Term::Hole(_) | Term::Leaf(_) => Ok(false),
                Term::Pair(target_left, target_right) => {
                    if !match_into(alloc, fills, left.get(), target_left.get())? {
                        return Ok(false);
                    }
                    match_into(alloc, fills, right.get(), target_right.get())
                }
            },
        },
    }
}

/// What the holes of a rule's part stand for where it reads as the target, its aliases as anything;
/// or `None` where it cannot. The target's holes stand for themselves.
pub fn find_match(
    alloc: Global,
    part: &Term,
    target: &Term,
) -> Result<Option<Vec<Binding>>, AllocError>
    ensures { IfOk result (λ found. MatchOption found (CannotRead (term_of part.now) (term_of target.now)) (λ fills. MayRead (fill_of (log_of fills.items)) (term_of part.now) (term_of target.now))) }
{
    let mut fills = Vec::new(alloc);
    if !match_into(alloc, &mut fills, part, target)? {
        return Ok(None);
    }
    Ok(Some(fills))
}
