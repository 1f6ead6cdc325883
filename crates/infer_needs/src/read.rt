//! What goals read as.
ghost use Rattle.std.specs.Prelude.{IfOk};
ghost use Rattle.infer_needs.specs.Words.{system, asked_goal, IsWritten};
ghost use Rattle.infer_needs.specs.Own.{IsGoalRead, IsWrittenIf};

use goal_facts::{ItemSources, asked, goal_of};
use goal_search::{Asked, Holes, MOST_LEVELS};
use hir_facts::Goal;
use std::alloc::{AllocError, Global};

/// What a goal without holes reads as at the depth to which the facts let goals be followed, each associated type
/// in it as what it is; one that stays is a type of its own. Nothing where one is open.
pub fn read_goal(
    alloc: Global,
    sources: &ItemSources<'_>,
    goal: &Goal,
) -> Result<Option<Goal>, AllocError>
    requires { IsWritten (asked_goal goal.now).parts }
    ensures read { IfOk result (λ found. IsGoalRead (system sources.now.sources) sources.now.facts.limits.goal_depth (asked_goal goal.now) found) }
    ensures written { IfOk result (λ found. IsWrittenIf found) }
{
    sources.lawful();
    let asks = asked(alloc, goal)?;
    let depth = sources.facts().raw().limits.goal_depth;
    let read = sources
        .search(alloc)
        .read(&asks.parts, Holes::Stay, depth, MOST_LEVELS)?;
    let Some(parts) = read else {
        return Ok(None);
    };
    let kind = asks.kind;
    let reads = Asked { kind, parts };
    let made = goal_of(alloc, &reads)?;
    Ok(Some(made))
}
