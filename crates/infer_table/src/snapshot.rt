//! Going back: `infer/unify.rs`, `snapshot`, `rollback_to`, `commit_if_ok`, `fudge_inference_if_ok`.
ghost use Rattle.std.specs.Prelude.{◌≡◌, IfOk};
ghost use Rattle.std.specs.Fn.{FnOnceTakesAtMut, FnOnceReturnsAtMut};
ghost use Rattle.infer_table.specs.Own.{AllOf, State, Grew, IsTakenIn, GrewFrom, Undoes, bindings, CommitsIfOk, Fudges};

use crate::table::InferenceTable;
use hir_types::Folded;
use std::alloc::AllocError;

/// A state of a table that can be gone back to.
#[derive(Clone, Copy, Debug)]
pub struct Snapshot {
    bindings: usize,
    made: usize,
    taken: usize,
    diverging: usize,
}

impl InferenceTable {
    /// What the table is now.
    fn mark(&self) -> Snapshot
        ensures taken { IsTakenIn result self.now }
        ensures made { AllOf self.now.substitution.kinds (bindings self.now) }
    {
        Snapshot {
            bindings: self.bindings.bound_count(),
            made: self.pairs.made_count(),
            taken: self.pairs.taken_count(),
            diverging: self.diverging.len(),
        }
    }

    /// What the table is now, to go back to.
    pub fn snapshot(&mut self) -> Result<Snapshot, AllocError>
        ensures same { self.new ≡ self.old }
        ensures taken { IfOk result (λ snapshot. IsTakenIn snapshot self.old) }
    {
        Ok(self.mark())
    }

    /// Goes back to a snapshot that the table grew from. Holes that were made since stay made, and
    /// are open and unused.
    pub fn rollback_to(&mut self, snapshot: Snapshot)
        requires { GrewFrom snapshot self.old }
        ensures undone { Undoes snapshot self.old self.new }
        ensures kinds { self.new.substitution.kinds ≡ self.old.substitution.kinds }
    {
        self.bindings.truncate(snapshot.bindings);
        self.pairs.cut_back(snapshot.made, snapshot.taken);
        self.diverging.truncate(snapshot.diverging);
    }

    /// Calls the closure.
    fn run<T, E, F: FnOnce(&mut InferenceTable) -> Result<Result<T, E>, AllocError>>(
        &mut self,
        f: F,
    ) -> Result<Result<T, E>, AllocError>
        requires { FnOnceTakesAtMut F.FnOnce f self.old }
        ensures { FnOnceReturnsAtMut F.FnOnce f self.old result self.new }
    {
        f(self)
    }

    /// Keeps what the closure does to the table where it answers `Ok(Ok(_))`, and goes back
    /// otherwise. Answers what the closure answered.
    pub fn commit_if_ok<T, E, F: FnOnce(&mut InferenceTable) -> Result<Result<T, E>, AllocError>>(
        &mut self,
        f: F,
    ) -> Result<Result<T, E>, AllocError>
        requires callable { FnOnceTakesAtMut F.FnOnce f self.old }
        requires grows { (answer : _) (after : State) → FnOnceReturnsAtMut F.FnOnce f self.old answer after → Grew self.old after }
        ensures { CommitsIfOk (FnOnceReturnsAtMut F.FnOnce f self.old) self.old self.new result }
    {
        let mark = self.mark();
        match self.run(f) {
            Ok(Ok(value)) => Ok(Ok(value)),
            Ok(Err(refusal)) => {
                self.rollback_to(mark);
                Ok(Err(refusal))
            }
            Err(error) => {
                self.rollback_to(mark);
                Err(error)
            }
        }
    }

    /// Tries the closure and goes back in any case. Where it answers `Ok(Ok(value))`, the value is
    /// answered as resolved before going back, so that what it says of holes made before is kept, and
    /// the holes made meanwhile are open and unused.
    pub fn fudge<T: Folded, E, F: FnOnce(&mut InferenceTable) -> Result<Result<T, E>, AllocError>>(
        &mut self,
        f: F,
    ) -> Result<Result<T, E>, AllocError>
        requires callable { FnOnceTakesAtMut F.FnOnce f self.old }
        requires grows { (answer : _) (after : State) → FnOnceReturnsAtMut F.FnOnce f self.old answer after → Grew self.old after }
        ensures { Fudges T.Folded.replaced (FnOnceReturnsAtMut F.FnOnce f self.old) self.old self.new result }
    {
        let mark = self.mark();
        match self.run(f) {
            Ok(Ok(value)) => {
                let resolved = self.resolve(&value);
                self.rollback_to(mark);
                match resolved {
                    Ok(resolved) => Ok(Ok(resolved)),
                    Err(error) => Err(error),
                }
            }
            Ok(Err(refusal)) => {
                self.rollback_to(mark);
                Ok(Err(refusal))
            }
            Err(error) => {
                self.rollback_to(mark);
                Err(error)
            }
        }
    }
}
