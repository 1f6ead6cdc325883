//! Goals selected, so that what selects them is known of the holes: `infer/unify.rs`,
//! `select_obligations_where_possible`.
ghost use Rattle.std.specs.Prelude.{◌≡◌, true, OnOk};
ghost use Rattle.infer_obligations.specs.Words.{IsSystemOf, system, AreKept, HasAllOpen, IsOfBody, IsTold, IsSound, given_of, scope_in};
ghost use Rattle.infer_obligations.specs.Own.{AreSelected, SelectsAlone, SelectsInWalk};

use infer_coerce::unify_known;
use infer_ctx::{GivenBody, InferenceContext};
use infer_goals::GoalTable;
use std::alloc::AllocError;

/// Selects what can be selected of what nodes needed so far, at the types known so far, and binds holes as that says,
/// until nothing selects any more or the bound of the facts is reached. Then the pairs are unified that waited and have become
/// known.
pub fn select_obligations_where_possible(
    context: &mut InferenceContext,
    given: &GivenBody,
) -> Result<(), AllocError>
    requires of_body { IsOfBody given.now.body.now context.old.result }
    requires sound { IsSound (scope_in given.now) context.old }
    requires told { IsTold (given_of given.now) context.old }
    ensures { OnOk result (SelectsInWalk (given_of given.now) context.old context.new) }
{
    select_alone(context, given)?;
    unify_known(context, given)?;
    Ok(())
}

/// Selects what can be selected. Pairs that wait are left alone.
fn select_alone(context: &mut InferenceContext, given: &GivenBody) -> Result<(), AllocError>
    requires of_body { IsOfBody given.now.body.now context.old.result }
    requires sound { IsSound (scope_in given.now) context.old }
    requires told { IsTold (given_of given.now) context.old }
    ensures { OnOk result (SelectsAlone (given_of given.now) context.old context.new) }
{
    context.goals.select_obligations_where_possible()?;
    // That some assignment agrees with what is found out now is known of each table.
    context.goals.table.lawful();
    Ok(())
}

/// Selects what can be selected under the bound of the facts; then open holes for integer types fall back,
/// and it goes on without a bound.
pub fn select_registered(goals: &mut GoalTable<'_>) -> Result<(), AllocError>
    requires kept { AreKept goals.old.sources.facts (system goals.old.sources.sources) goals.old.table goals.old.obligations }
    requires all { HasAllOpen (system goals.old.sources.sources) goals.old.table goals.old.obligations }
    requires bounded { goals.old.bounded ≡ true }
    ensures given { OnOk result (IsSystemOf goals.old.sources.facts goals.old.sources.item (system goals.old.sources.sources)) }
    ensures selected { OnOk result (AreSelected goals.old.sources.facts (system goals.old.sources.sources) goals.old.table goals.old.obligations goals.new.table goals.new.obligations) }
{
    goals.select_obligations_where_possible()?;
    goals.bounded = false;
    goals.table.fall_back_integers()?;
    goals.select_obligations_where_possible()?;
    Ok(())
}
