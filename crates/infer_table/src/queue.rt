//! Pairs of types that wait, and where the first of them stands.
ghost use Rattle.std.specs.Prelude.{◌≡◌, ℕ, ◌+◌, ◌++◌, ◌∷◌, [], ◌<◌, true, take, length, IfOk, OnOk, OnErr, IsSome};
ghost use Rattle.std.specs.Option.{option_copied};
ghost use Rattle.infer_table.specs.Own.{no_pairs, is_taken, waiting, with_pair, with_taken, cut_back, AllMade, AllTakenBelow, left_at, left_before, left_past};

use crate::waiting::{WaitingPair, WaitingPairs};
use std::alloc::{AllocError, Global};
use std::marker::Model;

/// The pairs that wait, with a position before which none does, so that a search may begin there.
/// Contracts see the pairs.
#[derive(Drop)]
pub struct PairQueue {
    pairs: WaitingPairs,
    front: usize,
}

impl Model for PairQueue {
    ghost use Rattle.hir_types.specs.contracts.ty.Ty as ty;
    ghost use Rattle.std.specs.Coded.{codes};
    ghost use Rattle.infer_table.specs.Waiting.{Waiting, AllTakenBelow};

    ghost Value = { Waiting };

    ghost coded = { Prim.hlevel (codes, ty.the_row.coded) };

    ghost view = { λ a. a.pairs };

    ghost invariant = { λ a. AllTakenBelow a.pairs.taken a.front };
}

/// The first position from `from` on at which a pair waits or none was made.
fn first_left(pairs: &WaitingPairs, from: usize) -> usize
    requires { AllTakenBelow pairs.now.taken from }
    ensures { AllTakenBelow pairs.now.taken result }
{
    for at in from..pairs.made_count() {
        if pairs.left(at).is_some() {
            return at;
        }
    }
    from.max(pairs.made_count())
}

/// The least of `most` and the positions of the trail behind its first ones.
fn least_behind(trail: &[usize], keep: usize, most: usize) -> usize
    requires { AllTakenBelow trail.now most }
    ensures { AllTakenBelow (take keep trail.now) result }
{
    let mut least = most;
    for place in keep..trail.len() {
        if trail[place] < least {
            least = trail[place];
        }
    }
    least
}

impl PairQueue {
    /// No pair waits yet.
    pub fn new(alloc: Global) -> PairQueue
        ensures { result ≡ no_pairs }
    {
        PairQueue {
            pairs: WaitingPairs::new(alloc),
            front: 0,
        }
    }

    /// A position before which no pair waits.
    pub fn front(&self) -> usize
        ensures { AllTakenBelow self.now.taken result }
    {
        self.front
    }

    /// How many pairs were ever made to wait: the position that the next one will have.
    pub fn made_count(&self) -> usize
        ensures count { result ≡ length self.now.made }
        ensures taken_made { AllMade self.now }
    {
        self.pairs.made_count()
    }

    /// How many pairs were taken.
    pub fn taken_count(&self) -> usize
        ensures { result ≡ length self.now.taken }
    {
        self.pairs.taken_count()
    }

    /// Makes a pair wait, behind the others.
    pub fn wait(&mut self, pair: WaitingPair) -> Result<(), AllocError>
        ensures ok { OnOk result (self.new ≡ with_pair self.old pair) }
        ensures waits { OnOk result (waiting self.new ≡ waiting self.old ++ pair ∷ []) }
        ensures err { OnErr result (self.new ≡ self.old) }
    {
        self.pairs.wait(pair)?;
        Ok(())
    }

    /// The pair at a position, if it waits.
    pub fn left(&self, at: usize) -> Option<&WaitingPair>
        ensures { option_copied result ≡ left_at self.now at }
    {
        self.pairs.left(at)
    }

    /// Takes the pair at a position out of those that wait.
    pub fn take(&mut self, at: usize) -> Result<(), AllocError>
        requires { IsSome (left_at self.old at) }
        ensures ok { OnOk result (self.new ≡ with_taken self.old at) }
        ensures waits { OnOk result (waiting self.new ≡ left_before self.old at ++ left_past self.old (at + 1)) }
        ensures err { OnErr result (self.new ≡ self.old) }
    {
        self.pairs.take(at)?;
        self.front = first_left(&self.pairs, self.front);
        Ok(())
    }

    /// Undoes all but the first `made` times that a pair was made to wait, and all but the first
    /// `taken` times that one was taken. It takes no memory.
    pub fn cut_back(&mut self, made: usize, taken: usize)
        requires { (i : ℕ) → is_taken (take taken self.old.taken) i ≡ true → i < made }
        ensures { self.new ≡ cut_back self.old made taken }
    {
        self.front = least_behind(self.pairs.trail(), taken, self.front);
        self.pairs.cut_back(made, taken);
    }

    /// Copies of the pairs that wait, in order.
    pub fn copies(&self, alloc: Global) -> Result<Vec<WaitingPair>, AllocError>
        ensures { IfOk result (λ ps. ps.items ≡ waiting self.now) }
    {
        self.pairs.copies(alloc)
    }
}
