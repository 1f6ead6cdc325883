//! What a hole is bound to.
use hir_types::{Const, Ty};

/// A hole, by its number, and what it is bound to.
#[derive(Debug, Drop)]
pub enum Binding {
    Ty { hole: usize, ty: Ty },
    Int { hole: usize, ty: Ty },
    Const { hole: usize, value: Const },
}
