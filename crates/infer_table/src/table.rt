//! The inference table: `infer/unify.rs`, `InferenceTable`.
ghost use Rattle.std.specs.Prelude.{◌≡◌, length, slice_get, option_map, IfOk, OnOk, OnErr};
ghost use Rattle.hir_types.specs.declared.head.HoleKind.TheVariants as kind;
ghost use Rattle.hir_types.specs.declared.ty.Ty.TheVariants as ty;
ghost use Rattle.hir_types.specs.declared.ty.Const.TheVariants as const;
ghost use Rattle.infer_table.specs.Own.{bound_hole, new_state, hole_count, bindings, with_new_hole, with_diverging, AreUnusedFrom};

use crate::bindings::Bindings;
use crate::queue::PairQueue;
use hir_types::{Const, Hole, HoleKind, Ty};
use std::alloc::{AllocError, Global};
use std::marker::Model;

/// The holes that inference made: what they are bound to, which pairs of types wait to be unified, and
/// which holes diverge. Contracts see it as a `State`: a substitution without cycle, a list of pairs
/// and a list of diverging holes. Holes are numbered upward, and a number is never used twice.
pub struct InferenceTable {
    pub(crate) alloc: Global,
    pub(crate) bindings: Bindings,
    pub(crate) pairs: PairQueue,
    pub(crate) diverging: Vec<usize>,
}

impl Drop for InferenceTable {
    fn drop(self) {
        let InferenceTable {
            alloc: _,
            bindings: _,
            pairs: _,
            diverging: _,
        } = self;
    }
}

impl Model for InferenceTable {
    ghost use Rattle.hir_types.specs.contracts.ty.Ty as ty;
    ghost use Rattle.std.specs.Coded.{codes};
    ghost use Rattle.infer_table.specs.Table.{State, PairsAreOf};

    ghost Value = { State };

    ghost coded = { Prim.hlevel (codes, ty.the_row.coded) };

    ghost view = { λ a. record { substitution = a.bindings; pairs = a.pairs; diverging = a.diverging.items } };

    ghost invariant = { λ a. PairsAreOf a.bindings.kinds a.pairs.made };
}

impl InferenceTable {
    /// A table without holes.
    pub fn new(alloc: Global) -> Result<InferenceTable, AllocError>
        ensures { IfOk result (λ table. table ≡ new_state) }
    {
        Ok(InferenceTable {
            alloc,
            bindings: Bindings::new(alloc),
            pairs: PairQueue::new(alloc),
            diverging: Vec::new(alloc),
        })
    }

    /// A new hole for any type.
    pub fn next_ty_var(&mut self) -> Result<Ty, AllocError>
        ensures hole { IfOk result (λ hole. hole ≡ ty.Var (hole_count self.old)) }
        ensures made { OnOk result (self.new ≡ with_new_hole self.old kind.Ty) }
        ensures unused { OnOk result (AreUnusedFrom (hole_count self.old) self.new) }
        ensures err { OnErr result (self.new ≡ self.old) }
    {
        // What is bound names holes that were made, so the new one is in no binding.
        let _bound = self.bindings.bound_count();
        let hole = self.bindings.new_hole(HoleKind::Ty)?;
        Ok(Ty::Var(hole))
    }

    /// A new hole for integer types.
    pub fn next_int_var(&mut self) -> Result<Ty, AllocError>
        ensures hole { IfOk result (λ hole. hole ≡ ty.IntVar (hole_count self.old)) }
        ensures made { OnOk result (self.new ≡ with_new_hole self.old kind.Int) }
        ensures unused { OnOk result (AreUnusedFrom (hole_count self.old) self.new) }
        ensures err { OnErr result (self.new ≡ self.old) }
    {
        // What is bound names holes that were made, so the new one is in no binding.
        let _bound = self.bindings.bound_count();
        let hole = self.bindings.new_hole(HoleKind::Int)?;
        Ok(Ty::IntVar(hole))
    }

    /// A new hole for consts.
    pub fn next_const_var(&mut self) -> Result<Const, AllocError>
        ensures hole { IfOk result (λ hole. hole ≡ const.Var (hole_count self.old)) }
        ensures made { OnOk result (self.new ≡ with_new_hole self.old kind.Const) }
        ensures unused { OnOk result (AreUnusedFrom (hole_count self.old) self.new) }
        ensures err { OnErr result (self.new ≡ self.old) }
    {
        // What is bound names holes that were made, so the new one is in no binding.
        let _bound = self.bindings.bound_count();
        let hole = self.bindings.new_hole(HoleKind::Const)?;
        Ok(Const::Var(hole))
    }

    /// A new hole for any type, which diverges: it stands for the type of an expression that control
    /// may never come back from.
    pub fn new_maybe_never_var(&mut self) -> Result<Ty, AllocError>
        ensures hole { IfOk result (λ hole. hole ≡ ty.Var (hole_count self.old)) }
        ensures made { OnOk result (self.new ≡ with_diverging (with_new_hole self.old kind.Ty) (hole_count self.old)) }
        ensures unused { OnOk result (AreUnusedFrom (hole_count self.old) self.new) }
        ensures err { OnErr result (self.new ≡ self.old) }
    {
        // What is bound names holes that were made, so the new one is in no binding.
        let _bound = self.bindings.bound_count();
        let hole = self.bindings.hole_count();
        self.diverging.push(hole)?;
        match self.bindings.new_hole(HoleKind::Ty) {
            Ok(_) => Ok(Ty::Var(hole)),
            Err(error) => {
                self.diverging.pop();
                Err(error)
            }
        }
    }

    /// How many holes are bound.
    pub fn bound_count(&self) -> usize
        ensures { result ≡ length (bindings self.now) }
    {
        self.bindings.bound_count()
    }

    /// The hole that was bound after so many others, where so many are bound.
    pub fn bound_hole(&self, place: usize) -> Option<Hole>
        ensures { result ≡ option_map bound_hole (slice_get (bindings self.now) place) }
    {
        match self.bindings.log().get(place) {
            Some(binding) => Some(binding.hole()),
            None => None,
        }
    }

    /// How many holes were made.
    pub fn hole_count(&self) -> usize
        ensures { result ≡ hole_count self.now }
    {
        self.bindings.hole_count()
    }

    /// The numbers of the diverging holes, in the order in which they were made.
    pub fn diverging(&self) -> &[usize]
        ensures { result.now ≡ self.now.diverging }
    {
        self.diverging.as_slice()
    }
}
