//! Who is told of the goals that inference meets.
ghost use Rattle.std.specs.Prelude.{◌≡◌, ◌++◌, ◌∷◌, [], List, OnOk};
ghost use Rattle.infer_goals.specs.Words.{Goal, Answer};

use goal_facts::{Answer, Goal};
use std::alloc::{AllocError, Global};

/// Is told of each goal that inference evaluates, with its answer, as `infer.rs`'s
/// `ObligationInspector` is of each obligation.
pub trait ObligationInspector {
    // what it was told, in its order
    ghost list: { Self → List (Goal × Answer) };

    /// Takes note of a goal and its answer. `AllocError` says that memory ran out.
    fn told(&mut self, goal: &Goal, answer: Answer) -> Result<(), AllocError>
        ensures { OnOk result (list self.new ≡ list self.old ++ (goal.now, answer) ∷ []) };
}

/// Keeps what it is told.
#[derive(Debug, Drop)]
pub struct ToldList {
    alloc: Global,
    pub entries: Vec<(Goal, Answer)>,
}

impl ToldList {
    /// One that was told nothing.
    pub fn new(alloc: Global) -> ToldList
        ensures { result.entries.items ≡ [] }
    {
        ToldList {
            alloc,
            entries: Vec::new(alloc),
        }
    }
}

impl ObligationInspector for ToldList {
    ghost list = { λ a. a.entries.items };

    fn told(&mut self, goal: &Goal, answer: Answer) -> Result<(), AllocError> {
        let goal = goal.dup(self.alloc)?;
        self.entries.push((goal, answer))?;
        Ok(())
    }
}
