//! Open holes for integer types fall back to `i32`: `infer/unify.rs`, `fallback_value`.
ghost use Rattle.std.specs.Prelude.{◌↔◌, IsTrue, OnOk, length};
ghost use Rattle.infer_table.specs.Own.{OnlyFalls, IsOpenInt, NoneOpenBelow, FellBack, Grew};

use crate::binding::Binding;
use crate::bindings::Bindings;
use crate::table::InferenceTable;
use hir_types::{Hole, IntTy, Ty};
use std::alloc::AllocError;

impl Bindings {
    /// Whether the hole of this number is open, and for integer types.
    fn is_open_int(&self, number: usize) -> bool
        ensures { IsTrue result ↔ IsOpenInt self.now number }
    {
        self.is_made(Hole::Int(number)) && self.bound(Hole::Int(number)).is_none()
    }

    /// Binds the hole of this number to `i32` where it is open, and for integer types.
    fn fall_back_at(&mut self, number: usize) -> Result<(), AllocError>
        ensures falls { OnlyFalls self.old self.new }
        ensures closed { OnOk result (IsOpenInt self.new number → ⊥) }
    {
        if self.is_open_int(number) {
            let ty = Ty::Int(IntTy::I32);
            self.bind(Binding::Int { hole: number, ty })?;
        }
        Ok(())
    }

    /// Binds each open hole for integer types to `i32`.
    fn fall_back_integers(&mut self) -> Result<(), AllocError>
        ensures falls { OnlyFalls self.old self.new }
        ensures none_open { OnOk result (NoneOpenBelow (length self.new.kinds) self.new) }
    {
        for number in 0..self.hole_count() {
            self.fall_back_at(number)?;
        }
        Ok(())
    }
}

impl InferenceTable {
    /// Binds each open hole for integer types to `i32`, which is what it falls back to in the end.
    pub fn fall_back_integers(&mut self) -> Result<(), AllocError>
        ensures fell { OnOk result (FellBack self.old self.new) }
        ensures grew { Grew self.old self.new }
    {
        self.bindings.fall_back_integers()?;
        Ok(())
    }
}
