//! What nodes need, selected before open holes fall back, and read and selected in turn with what is known once those for integer types
//! have: `infer.rs`, `infer_body`, where `select_obligations_where_possible` is called.
ghost use Rattle.std.specs.Prelude.{◌≡◌, OnOk};
ghost use Rattle.infer_end.specs.Words.{scope_item, IsTold, IsSound, IsOfBody, given_of, scope_in, BodyDone, IsSelection};
ghost use Rattle.infer_end.specs.Own.{OnlyGoals, FallsBack, SelectsThenReads, SelectsAndReadsOn, SettlesBody, SettlesLast};

use infer_ctx::{GivenBody, InferenceContext};
use infer_obligations::{read_all, select_obligations_where_possible, select_registered};
use std::alloc::{AllocError, Global};

/// Lets open holes for integer types fall back.
fn fall_back(context: &mut InferenceContext, given: &GivenBody) -> Result<(), AllocError>
    requires of_body { IsOfBody given.now.body.now context.old.result }
    requires sound { IsSound (scope_in given.now) context.old }
    ensures { OnOk result (FallsBack (given_of given.now) context.old context.new) }
{
    context.goals.table.fall_back_integers()?;
    // That some assignment agrees with what is found out now is known of each table.
    context.goals.table.lawful();
    Ok(())
}

/// Selects what can be selected, and reads the associated types that nodes need with what that says.
fn select_then_read(
    alloc: Global,
    context: &mut InferenceContext,
    given: &GivenBody,
) -> Result<(), AllocError>
    requires of_body { IsOfBody given.now.body.now context.old.result }
    requires sound { IsSound (scope_in given.now) context.old }
    requires told { IsTold (given_of given.now) context.old }
    ensures { OnOk result (SelectsThenReads (given_of given.now) context.old context.new) }
{
    select_obligations_where_possible(context, given)?;
    read_all(alloc, context, given)?;
    Ok(())
}

/// Does so until that binds no hole any more: what is read may be what a goal is selected by.
fn select_and_read_on(
    alloc: Global,
    context: &mut InferenceContext,
    given: &GivenBody,
) -> Result<(), AllocError>
    requires of_body { IsOfBody given.now.body.now context.old.result }
    requires sound { IsSound (scope_in given.now) context.old }
    requires told { IsTold (given_of given.now) context.old }
    ensures { OnOk result (SelectsAndReadsOn (given_of given.now) context.old context.new) }
{
    'settle: loop {
        let bound = context.goals.table.bound_count();
        select_then_read(alloc, context, given)?;
        if context.goals.table.bound_count() == bound {
            return Ok(());
        }
    }
}

/// Selects what nodes of the body need, at the types known so far, and binds holes as that says: in the end without a bound.
fn select(context: &mut InferenceContext, given: &GivenBody) -> Result<(), AllocError>
    requires item { context.old.goals.sources.item ≡ scope_item given.now.facts.now given.now.owner }
    requires done { BodyDone (given_of given.now) context.old }
    requires told { IsTold (given_of given.now) context.old }
    ensures done { OnOk result (BodyDone (given_of given.now) context.new) }
    ensures selection { OnOk result (IsSelection given.now.facts.now given.now.owner given.now.body.now context.old context.new) }
    ensures only { OnlyGoals context.old context.new }
{
    select_registered(&mut context.goals)?;
    context.goals.table.lawful();
    Ok(())
}

/// Selects what nodes need, lets open holes for integer types fall back, and selects and reads on; selection comes last.
fn settle(
    alloc: Global,
    context: &mut InferenceContext,
    given: &GivenBody,
) -> Result<(), AllocError>
    requires item { context.old.goals.sources.item ≡ scope_item given.now.facts.now given.now.owner }
    requires of_body { IsOfBody given.now.body.now context.old.result }
    requires done { BodyDone (given_of given.now) context.old }
    requires told { IsTold (given_of given.now) context.old }
    ensures done { OnOk result (BodyDone (given_of given.now) context.new) }
    ensures only { OnOk result (OnlyGoals context.old context.new) }
    ensures settles { OnOk result (SettlesBody given.now.owner (given_of given.now) context.old context.new) }
{
    select_obligations_where_possible(context, given)?;
    fall_back(context, given)?;
    select_and_read_on(alloc, context, given)?;
    select(context, given)?;
    Ok(())
}

/// Does so where the body is not plain, so that no types before fallback are kept. What a plain body needs are
/// sizes, which bind nothing, and no associated types.
pub fn settle_where_possible(
    alloc: Global,
    context: &mut InferenceContext,
    given: &GivenBody,
) -> Result<(), AllocError>
    requires item { context.old.goals.sources.item ≡ scope_item given.now.facts.now given.now.owner }
    requires of_body { IsOfBody given.now.body.now context.old.result }
    requires done { BodyDone (given_of given.now) context.old }
    requires told { IsTold (given_of given.now) context.old }
    ensures { OnOk result (SettlesLast given.now.owner (given_of given.now) context.old context.new) }
{
    if context.result.general.is_some() {
        return Ok(());
    }
    settle(alloc, context, given)?;
    Ok(())
}
