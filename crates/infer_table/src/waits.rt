//! Pairs of a table that wait to be unified.
ghost use Rattle.std.specs.Prelude.{◌≡◌, ◌↔◌, ◌++◌, ◌∷◌, [], length, IsTrue, IfOk, OnOk, OnErr, MatchOption};
ghost use Rattle.infer_table.specs.Own.{HolesAreOf, IsNoOpenHole, AllUnknown, IsFirstKnown, TakesKnown, with_waiting, waiting};

use crate::table::InferenceTable;
use crate::waiting::WaitingPair;
use hir_types::{ExprOrPatId, Ty};
use std::alloc::AllocError;

impl InferenceTable {
    /// Puts a pair at the end of those that wait to be unified, for a node.
    pub fn wait(&mut self, source: &Ty, target: &Ty, node: ExprOrPatId) -> Result<(), AllocError>
        requires source { HolesAreOf self.old source.now }
        requires target { HolesAreOf self.old target.now }
        ensures waits { OnOk result (self.new ≡ with_waiting self.old source.now target.now node) }
        ensures last { OnOk result (waiting self.new.pairs ≡ waiting self.old.pairs ++ (record { source = source.now; target = target.now; node = node }) ∷ []) }
        ensures err { OnErr result (self.new ≡ self.old) }
    {
        let pair = WaitingPair {
            source: source.dup(self.alloc)?,
            target: target.dup(self.alloc)?,
            node,
        };
        self.pairs.wait(pair)?;
        Ok(())
    }

    /// The pairs that wait, in the order in which they were put.
    pub fn pairs(&self) -> Result<Vec<WaitingPair>, AllocError>
        ensures { IfOk result (λ pairs. pairs.items ≡ waiting self.now.pairs) }
    {
        self.pairs.copies(self.alloc)
    }

    /// How many pairs were ever made to wait, so that no more wait now.
    pub fn pair_count(&self) -> usize
        ensures { result ≡ length self.now.pairs.made }
    {
        self.pairs.made_count()
    }

    /// Whether a type resolves to anything but a hole for any type.
    fn is_known(&self, ty: &Ty) -> bool
        ensures { IsTrue result ↔ IsNoOpenHole self.now ty.now }
    {
        !matches!(self.bindings.shallow_resolve(ty), Ty::Var(_))
    }

    /// The position of the first pair of which a side is known.
    fn first_known(&self) -> Option<usize>
        ensures { MatchOption result (AllUnknown self.now (waiting self.now.pairs)) (λ at. IsFirstKnown self.now at) }
    {
        for at in self.pairs.front()..self.pairs.made_count() {
            if let Some(pair) = self.pairs.left(at) {
                if self.is_known(&pair.source) || self.is_known(&pair.target) {
                    return Some(at);
                }
            }
        }
        None
    }

    /// Takes the first pair of which a side is known off the list; `None` where there is no such pair.
    pub fn take_known(&mut self) -> Result<Option<WaitingPair>, AllocError>
        ensures taken { IfOk result (λ pair. TakesKnown self.old self.new pair) }
        ensures err { OnErr result (self.new ≡ self.old) }
    {
        let Some(at) = self.first_known() else {
            return Ok(None);
        };
        let Some(pair) = self.pairs.left(at) else {
            return Ok(None);
        };
        let copy = pair.dup(self.alloc)?;
        self.pairs.take(at)?;
        Ok(Some(copy))
    }
}
