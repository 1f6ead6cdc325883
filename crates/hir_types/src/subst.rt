//! Substitutions for holes.
ghost use Rattle.std.specs.Prelude.{◌≡◌};
ghost use Rattle.std.specs.Option.{option_copied};
ghost use Rattle.hir_types.specs.Own.{with_holes, assignment_of, first_for};

use crate::fold::TypeFolder;
use crate::list::List;
use crate::room::Room;
use crate::ty::{Const, Ty};
use crate::unchanged::copy;
use std::alloc::{AllocError, Global};

/// What stands for holes. A hole that is not listed stands for itself, and of two entries for one
/// hole the first counts.
#[derive(Debug, Drop)]
pub struct Subst {
    /// Of holes for types, which share one numbering with those for integer types.
    pub types: List<(usize, Ty)>,
    pub consts: List<(usize, Const)>,
}

/// What the first entry for a hole holds.
fn first_for<T>(entries: &[(usize, T)], hole: usize) -> Option<&T>
    ensures { option_copied result ≡ first_for entries.now hole }
{
    for (listed, value) in entries {
        if *listed == hole {
            return Some(value);
        }
    }
    None
}

impl TypeFolder for Subst {
    ghost replacement = { λ it. with_holes (assignment_of it) };

    ghost settled = { λ _ _. Unit {0} };

    fn shallow<'a>(&'a self, ty: &'a Ty) -> &'a Ty {
        ty
    }

    fn fold_var(
        &self,
        alloc: Global,
        hole: usize,
        levels: u32,
        room: &mut Room,
    ) -> Result<Ty, AllocError> {
        match first_for(self.types.as_slice(), hole) {
            Some(ty) => copy(alloc, ty, levels, room),
            None => Ok(Ty::Var(hole)),
        }
    }

    fn fold_int_var(
        &self,
        alloc: Global,
        hole: usize,
        levels: u32,
        room: &mut Room,
    ) -> Result<Ty, AllocError> {
        match first_for(self.types.as_slice(), hole) {
            Some(ty) => copy(alloc, ty, levels, room),
            None => Ok(Ty::IntVar(hole)),
        }
    }

    fn fold_const_var(&self, hole: usize) -> Result<Const, AllocError> {
        match first_for(self.consts.as_slice(), hole) {
            Some(value) => Ok(*value),
            None => Ok(Const::Var(hole)),
        }
    }

    fn fold_param(
        &self,
        _alloc: Global,
        number: u32,
        _levels: u32,
        _room: &mut Room,
    ) -> Result<Ty, AllocError> {
        Ok(Ty::Param(number))
    }

    fn fold_const_param(&self, number: u32) -> Result<Const, AllocError> {
        Ok(Const::Param(number))
    }
}
