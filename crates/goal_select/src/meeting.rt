//! Goals made equal.
ghost use Rattle.std.specs.Prelude.{◌≡◌, IfOk};
ghost use Rattle.goal_select.specs.Words.{HolesAreOf, AreUnifiedIf};
ghost use Rattle.goal_select.specs.Own.{goal_type};

use goal_facts::{AdtId, GenericArg, Goal, List, Ty};
use hir_types::{Folded, TraitRef, Unchanged};
use infer_table::InferenceTable;
use std::alloc::{AllocError, Global};

/// A type with the arguments of a trait, by which two goals of one trait are made equal.
fn trait_type(alloc: Global, trait_ref: &TraitRef) -> Result<Ty, AllocError>
    ensures { IfOk result (λ made. made ≡ goal_type trait_ref.now) }
{
    let args = dup_args(alloc, &trait_ref.args)?;
    Ok(Ty::Adt(AdtId(0), args))
}

fn dup_args(alloc: Global, args: &List<GenericArg>) -> Result<List<GenericArg>, AllocError>
    ensures { IfOk result (λ copy. copy ≡ args.now) }
{
    args.fold_with(alloc, &Unchanged)
}

/// Makes the arguments of two goals of one trait equal, or changes nothing.
pub fn meet(
    alloc: Global,
    table: &mut InferenceTable,
    goal: &TraitRef,
    head: &TraitRef,
) -> Result<bool, AllocError>
    requires goal { HolesAreOf table.old (goal_type goal.now) }
    requires head { HolesAreOf table.old (goal_type head.now) }
    ensures { IfOk result (λ met. AreUnifiedIf met table.old table.new (goal_type goal.now) (goal_type head.now)) }
{
    let goal = trait_type(alloc, goal)?;
    let head = trait_type(alloc, head)?;
    table.unify(&goal, &head)
}
