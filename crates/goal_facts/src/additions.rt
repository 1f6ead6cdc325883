//! Lists of goals in which each stands once.
ghost use Rattle.std.specs.Prelude.{◌≡◌, ◌↔◌, IsTrue, OnOk};
ghost use Rattle.goal_facts.specs.Words.{term_of, HasHeads, asked_of, asked_list};
ghost use Rattle.goal_facts.specs.Own.{Has, Adds};

use goal_search::{Asked, is_same_kind};
use std::alloc::AllocError;

/// Whether the two ask for the same.
pub fn is_same(left: &Asked, right: &Asked) -> bool
    ensures { IsTrue result ↔ (asked_of left.now ≡ asked_of right.now) }
{
    is_same_kind(left.kind, right.kind) && left.parts.is_same(&right.parts)
}

fn has(goals: &[Asked], goal: &Asked) -> bool
    ensures { IsTrue result ↔ Has (asked_list goals.now) (asked_of goal.now) }
{
    for other in goals {
        if is_same(other, goal) {
            return true;
        }
    }
    false
}

/// Puts a goal at the end, where it isn't there yet.
pub fn add(goals: &mut Vec<Asked>, goal: Asked) -> Result<(), AllocError>
    requires { HasHeads (term_of goal.parts) }
    ensures { OnOk result (Adds (λ d. d ≡ asked_of goal) (asked_list goals.old.items) (asked_list goals.new.items)) }
{
    if has(goals, &goal) {
        return Ok(());
    }
    goals.push(goal)?;
    Ok(())
}
