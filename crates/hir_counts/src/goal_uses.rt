//! Which written types goals and impls use.
ghost use Rattle.std.specs.Prelude.{◌≡◌, ◌++◌, Some, map, flat_map, OnOk};
ghost use Rattle.hir_counts.specs.Words.{goal_uses, goals_uses, trait_ref_uses, impl_uses};

use crate::uses::push_types;
use hir_raw::{HasGoals, RawAssocType, RawGoal, RawImpl, RawTraitRef};
use std::alloc::AllocError;

fn push_goal(out: &mut Vec<Option<usize>>, goal: &RawGoal) -> Result<(), AllocError>
    ensures { OnOk result (out.new.items ≡ out.old.items ++ goal_uses goal.now) }
{
    match goal {
        RawGoal::Trait(trait_ref) => push_types(out, trait_ref.args.types())?,
        RawGoal::Projection { alias: _, args, ty } => {
            push_types(out, args.types())?;
            out.push(Some(ty.0 as usize))?;
        }
    }
    Ok(())
}

fn push_goals(out: &mut Vec<Option<usize>>, goals: &[RawGoal]) -> Result<(), AllocError>
    ensures { OnOk result (out.new.items ≡ out.old.items ++ goals_uses goals.now) }
{
    for goal in goals {
        push_goal(out, goal)?;
    }
    Ok(())
}

/// The types in the goals of items, after those that are there.
pub fn push_goals_of<T: HasGoals>(
    out: &mut Vec<Option<usize>>,
    items: &[T],
) -> Result<(), AllocError>
    ensures { OnOk result (out.new.items ≡ out.old.items ++ flat_map (λ x. goals_uses (T.goals x)) items.now) }
{
    for item in items {
        push_goals(out, item.goals())?;
    }
    Ok(())
}

fn push_trait_ref(
    out: &mut Vec<Option<usize>>,
    trait_ref: &Option<RawTraitRef>,
) -> Result<(), AllocError>
    ensures { OnOk result (out.new.items ≡ out.old.items ++ trait_ref_uses trait_ref.now) }
{
    if let Some(trait_ref) = trait_ref {
        push_types(out, trait_ref.args.types())?;
    }
    Ok(())
}

fn push_given(out: &mut Vec<Option<usize>>, types: &[RawAssocType]) -> Result<(), AllocError>
    ensures { OnOk result (out.new.items ≡ out.old.items ++ map (λ g. Some g.ty.0) types.now) }
{
    for given in types {
        out.push(Some(given.ty.0 as usize))?;
    }
    Ok(())
}

fn push_impl(out: &mut Vec<Option<usize>>, item: &RawImpl) -> Result<(), AllocError>
    ensures { OnOk result (out.new.items ≡ out.old.items ++ impl_uses item.now) }
{
    push_trait_ref(out, &item.trait_)?;
    out.push(Some(item.self_.0 as usize))?;
    push_given(out, item.types.as_slice())?;
    Ok(())
}

/// The types that impls are of and give, after those that are there.
pub fn push_impls(out: &mut Vec<Option<usize>>, impls: &[RawImpl]) -> Result<(), AllocError>
    ensures { OnOk result (out.new.items ≡ out.old.items ++ flat_map impl_uses impls.now) }
{
    for item in impls {
        push_impl(out, item)?;
    }
    Ok(())
}
