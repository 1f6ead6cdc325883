//! Types at the arguments of what declares their parameters.
ghost use Rattle.std.specs.Prelude.{◌≡◌, IfOk, slice_get};
ghost use Rattle.std.specs.Option.{option_copied};
ghost use Rattle.hir_types.specs.Own.{with_params};

use crate::fold::TypeFolder;
use crate::folded::Folded;
use crate::list::List;
use crate::room::Room;
use crate::ty::{Const, GenericArg, Ty};
use crate::unchanged::copy;
use std::alloc::{AllocError, Global};

/// Puts arguments in the place of parameters.
#[derive(Drop)]
struct ByArgs<'a> {
    args: &'a List<GenericArg>,
}

fn argument(args: &List<GenericArg>, number: u32) -> Option<&GenericArg>
    ensures { option_copied result ≡ slice_get args.now number }
{
    args.get(number as usize)
}

impl TypeFolder for ByArgs<'_> {
    ghost replacement = { λ it. with_params it.args.now };

    ghost settled = { λ _ _. Unit {0} };

    fn shallow<'a>(&'a self, ty: &'a Ty) -> &'a Ty {
        ty
    }

    fn fold_var(
        &self,
        _alloc: Global,
        hole: usize,
        _levels: u32,
        _room: &mut Room,
    ) -> Result<Ty, AllocError> {
        Ok(Ty::Var(hole))
    }

    fn fold_int_var(
        &self,
        _alloc: Global,
        hole: usize,
        _levels: u32,
        _room: &mut Room,
    ) -> Result<Ty, AllocError> {
        Ok(Ty::IntVar(hole))
    }

    fn fold_const_var(&self, hole: usize) -> Result<Const, AllocError> {
        Ok(Const::Var(hole))
    }

    fn fold_param(
        &self,
        alloc: Global,
        number: u32,
        levels: u32,
        room: &mut Room,
    ) -> Result<Ty, AllocError> {
        match argument(self.args, number) {
            Some(GenericArg::Ty(ty)) => copy(alloc, ty, levels, room),
            Some(GenericArg::Const(_)) | None => Ok(Ty::Error),
        }
    }

    fn fold_const_param(&self, number: u32) -> Result<Const, AllocError> {
        match argument(self.args, number) {
            Some(GenericArg::Const(value)) => Ok(*value),
            Some(GenericArg::Ty(_)) | None => Ok(Const::Unknown),
        }
    }
}

/// The value at these arguments: parameter number `n` is argument number `n` where that is a type,
/// or for a const parameter a const, and else it is `{unknown}`. Holes stay.
pub fn instantiate<T: Folded>(
    alloc: Global,
    value: &T,
    args: &List<GenericArg>,
) -> Result<T, AllocError>
    ensures { IfOk result (λ made. made ≡ T.replaced (with_params args.now) value.now) }
{
    value.fold_with(alloc, &ByArgs { args })
}
