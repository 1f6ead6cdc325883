//! Goals in which `{unknown}` stands: whether they could hold with other types in its place.
ghost use Rattle.std.specs.Prelude.{◌≡◌, IfOk};
ghost use Rattle.infer_needs.specs.Words.{leaf, term_of, scope_of, system, asked_goal, IsAnswer, hole_by, hole_for, opened_goal};
ghost use Rattle.infer_result.specs.CannotHold.{opened};
ghost use Rattle.infer_needs.specs.Own.{MayHoldIf};

use crate::readable::is_readable;
use crate::unknown::holds_unknown;
use goal_facts::{Answer, ItemSources, asked};
use goal_search::{Asked, Holes};
use goal_terms::Term;
use hir_facts::{DefWithBodyId, Goal};
use hir_types::{Head, Hole};
use std::alloc::{AllocError, Global};

/// The hole of this number for a type or const with the head, where that is `{unknown}`.
fn hole_of(head: Head, number: usize) -> Option<Hole>
    ensures { result ≡ hole_by number (leaf head) }
{
    match head {
        Head::Error => Some(Hole::Ty(number)),
        Head::UnknownConst => Some(Hole::Const(number)),
        _ => None,
    }
}

/// The same for one that begins so.
#[tactic(auto, using(crate::specs::Words::term_is))]
fn hole_by(first: &Term, number: usize) -> Option<Hole>
    ensures { result ≡ hole_by number (term_of first.now) }
{
    match first {
        Term::Leaf(head) => hole_of(*head, number),
        Term::Hole(_) | Term::Pair(_, _) => None,
    }
}

#[tactic(auto, using(crate::specs::Words::term_is))]
fn hole_for(term: &Term, number: usize) -> Option<Hole>
    ensures { result ≡ hole_for number (term_of term.now) }
{
    match term {
        Term::Pair(first, _) => hole_by(first.get(), number),
        Term::Hole(_) | Term::Leaf(_) => None,
    }
}

/// The term with a hole in the place of each `{unknown}` behind something, numbered from `next` on, and
/// the number after theirs.
#[tactic(auto, using(crate::specs::Words::term_is))]
fn open(alloc: Global, term: &Term, next: usize) -> Result<(Term, usize), AllocError>
    ensures term { IfOk result (λ made. term_of made.0 ≡ (opened next (term_of term.now)).term) }
    ensures next { IfOk result (λ made. made.1 ≡ (opened next (term_of term.now)).next) }
{
    match term {
        Term::Hole(hole) => Ok((Term::Hole(*hole), next)),
        Term::Leaf(head) => Ok((Term::Leaf(*head), next)),
        Term::Pair(first, rest) => {
            let (first, from) = open(alloc, first.get(), next)?;
            if let Some(hole) = hole_for(rest.get(), from) {
                let after = from.checked_add(1).ok_or(AllocError)?;
                let put = Term::join(alloc, first, Term::Hole(hole))?;
                return Ok((put, after));
            }
            let (rest, after) = open(alloc, rest.get(), from)?;
            let made = Term::join(alloc, first, rest)?;
            Ok((made, after))
        }
    }
}

/// The answer to a goal with a hole of its own in the place of each `{unknown}`, at the depth to which the
/// facts let goals be followed.
fn answer_opened(
    alloc: Global,
    sources: &ItemSources<'_>,
    goal: &Goal,
) -> Result<Answer, AllocError>
    ensures { IfOk result (λ answer. IsAnswer (system sources.now.sources) sources.now.facts.limits.goal_depth (opened_goal (asked_goal goal.now)) answer) }
{
    let asks = asked(alloc, goal)?;
    let (parts, _) = open(alloc, &asks.parts, 0)?;
    let opened = Asked {
        kind: asks.kind,
        parts,
    };
    let depth = sources.facts().raw().limits.goal_depth;
    let mut search = sources.search(alloc);
    search.evaluate(&opened, Holes::Stay, depth + 1)
}

/// Whether `{unknown}` stands in a goal, it isn't known that no type in its place makes it hold, and what stands
/// there could not have been read.
pub fn may_hold(
    alloc: Global,
    sources: &ItemSources<'_>,
    def: DefWithBodyId,
    goal: &Goal,
) -> Result<bool, AllocError>
    ensures { IfOk result (λ yes. MayHoldIf (scope_of sources.now.facts def) (system sources.now.sources) sources.now.facts.limits.goal_depth (asked_goal goal.now) yes) }
{
    if !holds_unknown(alloc, goal)? {
        return Ok(false);
    }
    if is_readable(alloc, sources, def, goal)? {
        return Ok(false);
    }
    match answer_opened(alloc, sources, goal)? {
        Answer::No => Ok(false),
        Answer::Yes | Answer::Undecided => Ok(true),
    }
}
