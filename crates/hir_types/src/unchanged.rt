//! A fold that changes nothing, and so copies.
ghost use Rattle.std.specs.Prelude.{◌≡◌, IfOk};
ghost use Rattle.hir_types.specs.Own.{with_holes, each_itself};

use crate::fold::{TypeFolder, fold_ty};
use crate::folded::Folded;
use crate::room::Room;
use crate::ty::{Const, TraitRef, Ty};
use std::alloc::{AllocError, Global};

/// Holes and parameters by themselves.
#[derive(Clone, Copy, Debug)]
pub struct Unchanged;

impl TypeFolder for Unchanged {
    ghost replacement = { λ _. with_holes each_itself };

    ghost settled = { λ _ _. Unit {0} };

    fn shallow<'a>(&'a self, ty: &'a Ty) -> &'a Ty {
        ty
    }

    fn fold_var(
        &self,
        _alloc: Global,
        hole: usize,
        _levels: u32,
        _room: &mut Room,
    ) -> Result<Ty, AllocError> {
        Ok(Ty::Var(hole))
    }

    fn fold_int_var(
        &self,
        _alloc: Global,
        hole: usize,
        _levels: u32,
        _room: &mut Room,
    ) -> Result<Ty, AllocError> {
        Ok(Ty::IntVar(hole))
    }

    fn fold_const_var(&self, hole: usize) -> Result<Const, AllocError> {
        Ok(Const::Var(hole))
    }

    fn fold_param(
        &self,
        _alloc: Global,
        number: u32,
        _levels: u32,
        _room: &mut Room,
    ) -> Result<Ty, AllocError> {
        Ok(Ty::Param(number))
    }

    fn fold_const_param(&self, number: u32) -> Result<Const, AllocError> {
        Ok(Const::Param(number))
    }
}

/// An equal copy of a type, within the room of a larger one.
pub(crate) fn copy(alloc: Global, ty: &Ty, levels: u32, room: &mut Room) -> Result<Ty, AllocError>
    ensures { IfOk result (λ copy. copy ≡ ty.now) }
{
    fold_ty(alloc, ty, &Unchanged, levels, room)
}

impl Ty {
    /// An equal copy. A type of more than 2^20 types or 2^10 levels is not copied: that is want of
    /// memory.
    pub fn dup(&self, alloc: Global) -> Result<Ty, AllocError>
        ensures { IfOk result (λ copy. copy ≡ self.now) }
    {
        self.fold_with(alloc, &Unchanged)
    }
}

impl TraitRef {
    /// An equal copy, within the limits of `Ty::dup`.
    pub fn dup(&self, alloc: Global) -> Result<TraitRef, AllocError>
        ensures { IfOk result (λ copy. copy ≡ self.now) }
    {
        self.fold_with(alloc, &Unchanged)
    }
}
