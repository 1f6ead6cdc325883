//! Going back with the goals: `infer/unify.rs`, `snapshot`, `rollback_to`, `commit_if_ok`.
ghost use Rattle.std.specs.Prelude.{◌≡◌, IfOk, OnOk};
ghost use Rattle.std.specs.Fn.{FnOnceTakesAtMut, FnOnceReturnsAtMut};
ghost use Rattle.infer_goals.specs.Words.{IsTakenIn, GrewFrom, Undoes, system};
ghost use Rattle.infer_goals.specs.Own.{GoalTable, IsCopied, AreKept, HasAllOpen, GoesOn, KeepsGoals, CommitsIfOk};

use crate::obligations::Obligations;
use crate::table::GoalTable;
use goal_facts::{ExprOrPatId, Ty};
use infer_table::Snapshot;
use std::alloc::AllocError;

/// A state of a table of goals that can be gone back to: copies of what may change.
#[derive(Drop)]
struct GoalSnapshot {
    table: Snapshot,
    bounded: bool,
    obligations: Obligations,
    uses: Vec<(Ty, Ty, ExprOrPatId)>,
    projections: Vec<(Ty, Ty)>,
}

impl<'a> GoalTable<'a> {
    /// What the table of goals is now, to go back to.
    fn snapshot(&mut self) -> Result<GoalSnapshot, AllocError>
        ensures same { self.new ≡ self.old }
        ensures table { IfOk result (λ made. IsTakenIn made.table self.old.table) }
        ensures bounded { IfOk result (λ made. made.bounded ≡ self.old.bounded) }
        ensures obligations { IfOk result (λ made. IsCopied self.old.obligations made.obligations) }
        ensures uses { IfOk result (λ made. made.uses.items ≡ self.old.uses.items) }
        ensures projections { IfOk result (λ made. made.projections.items ≡ self.old.projections.items) }
    {
        Ok(GoalSnapshot {
            table: self.table.snapshot()?,
            bounded: self.bounded,
            obligations: self.obligations.dup()?,
            uses: self.uses()?,
            projections: self.projections()?,
        })
    }

    /// Goes back to a snapshot that the table of holes grew from. What was told stays told, and what was selected stays counted.
    fn rollback_to(&mut self, snapshot: GoalSnapshot)
        requires { GrewFrom snapshot.table self.old.table }
        ensures table { Undoes snapshot.table self.old.table self.new.table }
        ensures kinds { self.new.table.substitution.kinds ≡ self.old.table.substitution.kinds }
        ensures bounded { self.new.bounded ≡ snapshot.bounded }
        ensures sources { self.new.sources ≡ self.old.sources }
        ensures obligations { self.new.obligations ≡ record snapshot.obligations { selected = self.old.obligations.selected } }
        ensures told { self.new.told ≡ self.old.told }
        ensures uses { self.new.uses.items ≡ snapshot.uses.items }
        ensures projections { self.new.projections.items ≡ snapshot.projections.items }
    {
        self.table.rollback_to(snapshot.table);
        self.bounded = snapshot.bounded;
        let selected = self.obligations.selected;
        self.obligations = snapshot.obligations;
        self.obligations.selected = selected;
        self.uses = snapshot.uses;
        self.projections = snapshot.projections;
    }

    /// Calls the closure.
    fn run<T, E, F: FnOnce(&mut GoalTable<'a>) -> Result<Result<T, E>, AllocError>>(
        &mut self,
        f: F,
    ) -> Result<Result<T, E>, AllocError>
        requires { FnOnceTakesAtMut F.FnOnce f self.old }
        ensures { FnOnceReturnsAtMut F.FnOnce f self.old result self.new }
    {
        f(self)
    }

    /// Keeps what the closure does where it answers `Ok(Ok(_))`, and where it answers `Ok(Err(_))` goes back: holes, goals with
    /// what selects them, proofs, uses and entries of opaque types are then as before. What was told stays told, holes that were
    /// made stay made, and what was selected stays counted: so where closures fail again and again, no more goals are selected in
    /// all than the facts let be. Answers what the closure answered. Each call costs a copy of what is registered. Where memory
    /// runs out nothing is undone.
    pub fn commit_if_ok<T, E, F: FnOnce(&mut GoalTable<'a>) -> Result<Result<T, E>, AllocError>>(
        &mut self,
        f: F,
    ) -> Result<Result<T, E>, AllocError>
        requires callable { FnOnceTakesAtMut F.FnOnce f self.old }
        requires goes_on { (answer : _) (after : GoalTable) → FnOnceReturnsAtMut F.FnOnce f self.old answer after → OnOk answer (GoesOn self.old after) }
        requires keeps { (answer : _) (after : GoalTable) → FnOnceReturnsAtMut F.FnOnce f self.old answer after → IfOk answer (λ given. OnOk given (KeepsGoals after)) }
        requires kept { AreKept self.old.sources.facts (system self.old.sources.sources) self.old.table self.old.obligations }
        requires all { HasAllOpen (system self.old.sources.sources) self.old.table self.old.obligations }
        ensures commits { IfOk result (λ answer. CommitsIfOk (FnOnceReturnsAtMut F.FnOnce f self.old) self.old self.new answer) }
        ensures kept { OnOk result (AreKept self.new.sources.facts (system self.new.sources.sources) self.new.table self.new.obligations) }
        ensures all { OnOk result (HasAllOpen (system self.new.sources.sources) self.new.table self.new.obligations) }
    {
        let before = self.snapshot()?;
        match self.run(f)? {
            Ok(value) => Ok(Ok(value)),
            Err(refusal) => {
                self.rollback_to(before);
                Ok(Err(refusal))
            }
        }
    }
}
