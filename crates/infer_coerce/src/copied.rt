//! Copies of types.
ghost use Rattle.std.specs.Prelude.{◌≡◌, IfOk};

use hir_facts::{List, Ty};
use std::alloc::{AllocError, Global};

/// An equal copy of each type, within the limits of `Ty::dup`.
pub fn copies(alloc: Global, tys: &[Ty]) -> Result<List<Ty>, AllocError>
    ensures { IfOk result (λ copies. copies ≡ tys.now) }
{
    let mut copies = List::new(alloc);
    for ty in tys {
        copies.push(ty.dup(alloc)?)?;
    }
    Ok(copies)
}
