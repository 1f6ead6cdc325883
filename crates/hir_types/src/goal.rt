//! Goals of trait solving, and values over numbered holes.
ghost use Rattle.std.specs.Prelude.{◌≡◌, IfOk};

use crate::folded::Folded;
use crate::head::HoleKind;
use crate::ids::TypeAliasId;
use crate::list::List;
use crate::ty::{GenericArg, TraitRef, Ty};
use crate::unchanged::Unchanged;
use std::alloc::{AllocError, Global};

/// What is to be shown.
#[derive(Debug, Drop, PartialEq, Eq, Hash)]
pub enum Goal {
    /// That the first of the trait's arguments implements it.
    Trait(TraitRef),
    /// That the associated type at these arguments is this type.
    Projection {
        alias: TypeAliasId,
        args: List<GenericArg>,
        ty: Ty,
    },
}

impl Goal {
    /// An equal copy, within the limits of a fold.
    pub fn dup(&self, alloc: Global) -> Result<Goal, AllocError>
        ensures { IfOk result (λ copy. copy ≡ self.now) }
    {
        self.fold_with(alloc, &Unchanged)
    }
}

/// A value over holes of its own: hole number `n` has the `n`th of these kinds.
#[derive(Debug, Drop, PartialEq, Eq, Hash)]
pub struct Canonical<T> {
    pub vars: List<HoleKind>,
    pub value: T,
}
