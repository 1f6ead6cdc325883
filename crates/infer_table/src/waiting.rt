//! Pairs of types that wait to be unified.
ghost use Rattle.std.specs.Prelude.{◌≡◌, ℕ, ◌+◌, ◌++◌, ◌∷◌, [], ◌<◌, true, take, length, IfOk, OnOk, OnErr, IsSome};
ghost use Rattle.std.specs.Option.{option_copied};
ghost use Rattle.infer_table.specs.Own.{no_pairs, is_taken, waiting, with_pair, with_taken, cut_back, AllMade, AreMarked, pairs_of, left_at, left_before, left_past};

use hir_types::{ExprOrPatId, Ty};
use std::alloc::{AllocError, Global};
use std::marker::Model;

/// Two types that are to be unified as soon as one of them is known, and the node that asks for it.
#[derive(Debug, Drop, PartialEq, Eq)]
pub struct WaitingPair {
    pub source: Ty,
    pub target: Ty,
    pub node: ExprOrPatId,
}

/// A pair that was made to wait.
#[derive(Debug, Drop)]
struct Entry {
    pair: WaitingPair,
    is_taken: bool,
}

/// The pairs that wait. Contracts see all pairs that were ever made to wait, in order, and the
/// positions of those that were taken since, in the order in which they were taken.
#[derive(Drop)]
pub struct WaitingPairs {
    entries: Vec<Entry>,
    taken: Vec<usize>,
}

impl Model for WaitingPairs {
    ghost use Rattle.hir_types.specs.contracts.ty.Ty as ty;
    ghost use Rattle.std.specs.Coded.{codes};
    ghost use Rattle.infer_table.specs.Waiting.{Waiting, pairs_of, AreMarked};

    ghost Value = { Waiting };

    ghost coded = { Prim.hlevel (codes, ty.the_row.coded) };

    ghost view = { λ a. record { made = pairs_of a.entries.items; taken = a.taken.items } };

    ghost invariant = { λ a. AreMarked a.entries.items a.taken.items };
}

impl WaitingPair {
    /// An equal copy, within the limits of `Ty::dup`.
    pub fn dup(&self, alloc: Global) -> Result<WaitingPair, AllocError>
        ensures { IfOk result (λ copy. copy ≡ self.now) }
    {
        let source = self.source.dup(alloc)?;
        let target = self.target.dup(alloc)?;
        Ok(WaitingPair {
            source,
            target,
            node: self.node,
        })
    }
}

impl WaitingPairs {
    /// No pair waits yet.
    pub fn new(alloc: Global) -> WaitingPairs
        ensures { result ≡ no_pairs }
    {
        WaitingPairs {
            entries: Vec::new(alloc),
            taken: Vec::new(alloc),
        }
    }

    /// How many pairs were ever made to wait: the position that the next one will have.
    pub fn made_count(&self) -> usize
        ensures count { result ≡ length self.now.made }
        ensures taken_made { AllMade self.now }
    {
        self.entries.len()
    }

    /// How many pairs were taken.
    pub fn taken_count(&self) -> usize
        ensures { result ≡ length self.now.taken }
    {
        self.taken.len()
    }

    /// The positions of the pairs that were taken, in the order in which they were taken.
    pub fn trail(&self) -> &[usize]
        ensures { result.now ≡ self.now.taken }
    {
        self.taken.as_slice()
    }

    /// Makes a pair wait, behind the others.
    pub fn wait(&mut self, pair: WaitingPair) -> Result<(), AllocError>
        ensures ok { OnOk result (self.new ≡ with_pair self.old pair) }
        ensures waits { OnOk result (waiting self.new ≡ waiting self.old ++ pair ∷ []) }
        ensures err { OnErr result (self.new ≡ self.old) }
    {
        self.entries.push(Entry {
            pair,
            is_taken: false,
        })?;
        Ok(())
    }

    /// The pair at a position, if it waits.
    pub fn left(&self, at: usize) -> Option<&WaitingPair>
        ensures { option_copied result ≡ left_at self.now at }
    {
        let entry = self.entries.get(at)?;
        if entry.is_taken {
            None
        } else {
            Some(&entry.pair)
        }
    }

    /// Takes the pair at a position out of those that wait.
    pub fn take(&mut self, at: usize) -> Result<(), AllocError>
        requires { IsSome (left_at self.old at) }
        ensures ok { OnOk result (self.new ≡ with_taken self.old at) }
        ensures waits { OnOk result (waiting self.new ≡ left_before self.old at ++ left_past self.old (at + 1)) }
        ensures err { OnErr result (self.new ≡ self.old) }
    {
        // The trail first: it may have no room, and then nothing has changed.
        self.taken.push(at)?;
        self.entries[at].is_taken = true;
        Ok(())
    }

    /// Undoes all but the first `made` times that a pair was made to wait, and all but the first
    /// `taken` times that one was taken. It takes no memory.
    pub fn cut_back(&mut self, made: usize, taken: usize)
        requires { (i : ℕ) → is_taken (take taken self.old.taken) i ≡ true → i < made }
        ensures { self.new ≡ cut_back self.old made taken }
    {
        unmark(&mut self.entries, &mut self.taken, taken);
        self.entries.truncate(made);
    }

    /// Copies of the pairs that wait, in order.
    pub fn copies(&self, alloc: Global) -> Result<Vec<WaitingPair>, AllocError>
        ensures { IfOk result (λ ps. ps.items ≡ waiting self.now) }
    {
        let mut pairs = Vec::new(alloc);
        for entry in &self.entries {
            if entry.is_taken {
                continue;
            }
            pairs.push(entry.pair.dup(alloc)?)?;
        }
        Ok(pairs)
    }
}

/// Takes all but the first `keep` positions off the trail, and their marks off the entries.
fn unmark(entries: &mut [Entry], taken: &mut Vec<usize>, keep: usize)
    requires { AreMarked entries.old taken.old.items }
    ensures marked { AreMarked entries.new taken.new.items }
    ensures pairs { pairs_of entries.new ≡ pairs_of entries.old }
    ensures trail { taken.new.items ≡ take keep taken.old.items }
{
    while taken.len() > keep {
        let at = taken[taken.len() - 1];
        entries[at].is_taken = false;
        taken.pop();
    }
}
