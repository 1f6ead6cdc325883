//! Values with what their holes are bound to.
ghost use Rattle.std.specs.Prelude.{◌≡◌, IfOk};
ghost use Rattle.infer_table.specs.Words.{with_holes, folded};
ghost use Rattle.infer_table.specs.Own.{resolution, IsOpenOrKnown};

use crate::bindings::Bindings;
use hir_types::{Const, Folded, Room, Ty, TypeFolder};
use std::alloc::{AllocError, Global};

/// Puts in the place of each bound hole what it is bound to in the end.
#[derive(Clone, Copy)]
struct Resolver<'a> {
    bindings: &'a Bindings,
}

impl TypeFolder for Resolver<'_> {
    ghost replacement = { λ it. with_holes (resolution it.bindings.now.log) };

    ghost settled = { λ it t. IsOpenOrKnown it.bindings.now.log t };

    fn shallow<'a>(&'a self, ty: &'a Ty) -> &'a Ty {
        self.bindings.shallow_resolve(ty)
    }

    fn fold_var(
        &self,
        _alloc: Global,
        hole: usize,
        _levels: u32,
        _room: &mut Room,
    ) -> Result<Ty, AllocError> {
        Ok(Ty::Var(hole))
    }

    fn fold_int_var(
        &self,
        _alloc: Global,
        hole: usize,
        _levels: u32,
        _room: &mut Room,
    ) -> Result<Ty, AllocError> {
        Ok(Ty::IntVar(hole))
    }

    fn fold_const_var(&self, hole: usize) -> Result<Const, AllocError> {
        Ok(self.bindings.resolve_const(Const::Var(hole)))
    }

    fn fold_param(
        &self,
        _alloc: Global,
        number: u32,
        _levels: u32,
        _room: &mut Room,
    ) -> Result<Ty, AllocError> {
        Ok(Ty::Param(number))
    }

    fn fold_const_param(&self, number: u32) -> Result<Const, AllocError> {
        Ok(Const::Param(number))
    }
}

impl Bindings {
    /// The value with what its holes are bound to. A result of more than 2^20 types, or of more than
    /// 2^10 levels, is refused as want of memory.
    pub fn resolve<T: Folded>(&self, alloc: Global, value: &T) -> Result<T, AllocError>
        ensures { IfOk result (λ made. made ≡ T.replaced (with_holes (resolution self.now.log)) value.now) }
    {
        let resolver = Resolver { bindings: self };
        value.fold_with(alloc, &resolver)
    }

    /// The type with what its holes are bound to, within the same limits.
    pub fn resolve_ty(&self, alloc: Global, ty: &Ty) -> Result<Ty, AllocError>
        ensures { IfOk result (λ made. made ≡ folded (resolution self.now.log) ty.now) }
    {
        self.resolve(alloc, ty)
    }
}
