//! The parts of a type that are copied so that it is.
ghost use Rattle.std.specs.Prelude.{◌≡◌, ◌++◌, ◌∷◌, map, IfOk, OnOk};
ghost use Rattle.goal_select.specs.Words.{asked_goal};
ghost use Rattle.goal_select.specs.Own.{only_goal, part_goals};

use goal_facts::{GenericArg, Goal, List, TraitId, Ty};
use hir_types::TraitRef;
use std::alloc::{AllocError, Global};

/// That a type implements a trait without parameters.
fn only_goal(alloc: Global, id: TraitId, ty: &Ty) -> Result<Goal, AllocError>
    ensures { IfOk result (λ made. made ≡ only_goal id ty.now) }
{
    let mut args = List::new(alloc);
    args.push(GenericArg::Ty(ty.dup(alloc)?))?;
    Ok(Goal::Trait(TraitRef { id, args }))
}

fn push_goals(
    alloc: Global,
    id: TraitId,
    tys: &[Ty],
    goals: &mut Vec<Goal>,
) -> Result<(), AllocError>
    ensures { OnOk result (goals.new.items ≡ goals.old.items ++ map (only_goal id) tys.now) }
{
    for ty in tys {
        goals.push(only_goal(alloc, id, ty)?)?;
    }
    Ok(())
}

/// The goals of the parts of a type: of a tuple or an array those, and of others none.
pub fn part_goals(alloc: Global, id: TraitId, ty: &Ty) -> Result<Vec<Goal>, AllocError>
    ensures { IfOk result (λ made. made.items ≡ part_goals id ty.now) }
{
    let mut goals = Vec::new(alloc);
    match ty {
        Ty::Tuple(tys) => push_goals(alloc, id, tys.as_slice(), &mut goals)?,
        Ty::Array(ty, _) => goals.push(only_goal(alloc, id, ty.get())?)?,
        _ => {}
    }
    Ok(goals)
}
