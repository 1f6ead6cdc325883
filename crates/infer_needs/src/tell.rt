//! An inspector is told of goals and their answers.
ghost use Rattle.std.specs.Prelude.{◌≡◌, ◌++◌, OnOk};

use goal_facts::Answer;
use hir_facts::Goal;
use infer_goals::ObligationInspector;
use std::alloc::AllocError;

/// Tells of each of these goals with its answer, in their order. The one error is want of memory.
pub fn tell_all<I: ObligationInspector>(
    inspect: &mut I,
    told: &[(Goal, Answer)],
) -> Result<(), AllocError>
    ensures { OnOk result (I.list inspect.new ≡ I.list inspect.old ++ told.now) }
{
    for entry in told {
        inspect.told(&entry.0, entry.1)?;
    }
    Ok(())
}
