//! Associated types that goals are about, read as far as their arguments are known.
ghost use Rattle.std.specs.Prelude.{◌<◌, length, IfOk, OnOk};
ghost use Rattle.infer_obligations.specs.Words.{given_of, scope_in, IsSound, IsOfBody, IsTold};
ghost use Rattle.infer_obligations.specs.Own.{UnifiesInHand, ReadsAlias, ReadsGoal, ReadsEach, ReadsFor, SelectsAndReads, ReadsPath, ReadsPaths, ReadsPat, ReadsPats, ReadsAll, ReadsOn, SettlesNeeds};

use crate::select::select_obligations_where_possible;
use hir_facts::{ExprId, ExprOrPatId, Goal, PatId, Ty};
use infer_coerce::{unify, unify_unknown};
use infer_ctx::{GivenBody, InferenceContext};
use infer_result::{expr_id, is_in_hand, needed_goals, pat_id, pat_needs};
use std::alloc::{AllocError, Global};

/// Makes two types equal, where both can be written in the scope of the body; else they differ, or nothing is done.
fn unify_in_hand(
    alloc: Global,
    context: &mut InferenceContext,
    given: &GivenBody,
    ty: &Ty,
    read: &Ty,
) -> Result<(), AllocError>
    requires of_body { IsOfBody given.now.body.now context.old.result }
    requires sound { IsSound (scope_in given.now) context.old }
    ensures { OnOk result (UnifiesInHand (given_of given.now) ty.now read.now context.old context.new) }
{
    let (table, facts, owner) = (&context.goals.table, given.facts, given.owner);
    if !is_in_hand(alloc, table, facts, owner, ty)?
        || !is_in_hand(alloc, table, facts, owner, read)?
    {
        return Ok(());
    }
    unify(context, given, ty, read)?;
    Ok(())
}

/// Reads what an associated type is, as far as its arguments are known, and makes a type equal with that.
fn read_alias(
    alloc: Global,
    context: &mut InferenceContext,
    given: &GivenBody,
    alias_ty: &Ty,
    ty: &Ty,
) -> Result<(), AllocError>
    requires of_body { IsOfBody given.now.body.now context.old.result }
    requires sound { IsSound (scope_in given.now) context.old }
    ensures { OnOk result (ReadsAlias (given_of given.now) alias_ty.now ty.now context.old context.new) }
{
    let known = context.goals.table.resolve(ty)?;
    match context.goals.normalize_alias_ty(alias_ty)? {
        Some(read) => unify_in_hand(alloc, context, given, &known, &read),
        None => Ok(()),
    }
}

/// Reads the associated type that a goal is about, if it is about one, and makes the type of the goal equal with what it is.
fn read_goal(
    alloc: Global,
    context: &mut InferenceContext,
    given: &GivenBody,
    goal: &Goal,
) -> Result<(), AllocError>
    requires of_body { IsOfBody given.now.body.now context.old.result }
    requires sound { IsSound (scope_in given.now) context.old }
    ensures { OnOk result (ReadsGoal (given_of given.now) goal.now context.old context.new) }
{
    match goal.dup(alloc)? {
        Goal::Projection { alias, args, ty } => {
            read_alias(alloc, context, given, &Ty::Projection(alias, args), &ty)
        }
        Goal::Trait(_) => Ok(()),
    }
}

/// Reads the associated type that each of these goals is about, in their order.
fn read_each(
    alloc: Global,
    context: &mut InferenceContext,
    given: &GivenBody,
    goals: &[Goal],
) -> Result<(), AllocError>
    requires of_body { IsOfBody given.now.body.now context.old.result }
    requires sound { IsSound (scope_in given.now) context.old }
    ensures { OnOk result (ReadsEach (given_of given.now) goals.now context.old context.new) }
{
    for goal in goals {
        read_goal(alloc, context, given, goal)?;
    }
    Ok(())
}

/// Reads the associated types that these goals are about, where nothing is known yet of a type that is expected: `infer/expr.rs`,
/// `check_call_arguments`, where an argument's input is normalized.
pub fn read_for(
    alloc: Global,
    context: &mut InferenceContext,
    given: &GivenBody,
    goals: &[Goal],
    expected: &Ty,
) -> Result<(), AllocError>
    requires of_body { IsOfBody given.now.body.now context.old.result }
    requires sound { IsSound (scope_in given.now) context.old }
    ensures { OnOk result (ReadsFor (given_of given.now) goals.now expected.now context.old context.new) }
{
    let known = context.goals.table.resolve(expected)?;
    match &known {
        Ty::Var(_) => read_each(alloc, context, given, goals),
        _ => Ok(()),
    }
}

/// Selects what can be selected, reads the associated types that these goals are about, as far as their arguments are known then, and
/// selects what can be selected with what that says: `infer/unify.rs`, `select_obligations_where_possible`.
pub fn select_and_read(
    alloc: Global,
    context: &mut InferenceContext,
    given: &GivenBody,
    goals: &[Goal],
) -> Result<(), AllocError>
    requires of_body { IsOfBody given.now.body.now context.old.result }
    requires sound { IsSound (scope_in given.now) context.old }
    requires told { IsTold (given_of given.now) context.old }
    ensures { OnOk result (SelectsAndReads (given_of given.now) goals.now context.old context.new) }
{
    select_obligations_where_possible(context, given)?;
    read_each(alloc, context, given, goals)?;
    select_obligations_where_possible(context, given)?;
    Ok(())
}

/// Reads the associated types that the needs of an expression are about, at the type that is recorded for it.
fn read_path(
    alloc: Global,
    context: &mut InferenceContext,
    given: &GivenBody,
    expr: ExprId,
) -> Result<(), AllocError>
    requires of_body { IsOfBody given.now.body.now context.old.result }
    requires sound { IsSound (scope_in given.now) context.old }
    requires within { expr.0 < length given.now.body.now.exprs }
    ensures { OnOk result (ReadsPath (given_of given.now) expr.0 context.old context.new) }
{
    let needed = match context
        .result
        .type_of_expr_or_pat(ExprOrPatId::ExprId(expr))
    {
        Some(ty) => {
            let path = &given.body.exprs.as_slice()[expr.0 as usize];
            needed_goals(alloc, given.facts, path, ty)?
        }
        None => Vec::new(alloc),
    };
    read_each(alloc, context, given, needed.as_slice())
}

/// Reads the associated types that the needs of each expression of the body are about, in the order of expressions.
fn read_paths(
    alloc: Global,
    context: &mut InferenceContext,
    given: &GivenBody,
) -> Result<(), AllocError>
    requires of_body { IsOfBody given.now.body.now context.old.result }
    requires sound { IsSound (scope_in given.now) context.old }
    ensures { OnOk result (ReadsPaths (given_of given.now) (length given.now.body.now.exprs) context.old context.new) }
{
    for at in 0..given.body.exprs.len() {
        let expr = expr_id(at)?;
        read_path(alloc, context, given, expr)?;
    }
    Ok(())
}

/// Reads the associated types in the fields of the constructor that a pattern is of, at the item that is recorded for it:
/// `infer/pat.rs`, `infer_tuple_struct_pat_like`, where the type of a field is normalized.
pub fn read_pat(
    alloc: Global,
    context: &mut InferenceContext,
    given: &GivenBody,
    pat: PatId,
) -> Result<(), AllocError>
    requires of_body { IsOfBody given.now.body.now context.old.result }
    requires sound { IsSound (scope_in given.now) context.old }
    ensures { OnOk result (ReadsPat (given_of given.now) pat.0 context.old context.new) }
{
    let needed = match context.result.item_of_pat(pat) {
        Some(item) => pat_needs(alloc, given.facts, item)?,
        None => Vec::new(alloc),
    };
    read_each(alloc, context, given, needed.as_slice())
}

/// Does so with each pattern of the body, in their order.
fn read_pats(
    alloc: Global,
    context: &mut InferenceContext,
    given: &GivenBody,
) -> Result<(), AllocError>
    requires of_body { IsOfBody given.now.body.now context.old.result }
    requires sound { IsSound (scope_in given.now) context.old }
    ensures { OnOk result (ReadsPats (given_of given.now) (length given.now.body.now.pats) context.old context.new) }
{
    for at in 0..given.body.pats.len() {
        let pat = pat_id(at)?;
        read_pat(alloc, context, given, pat)?;
    }
    Ok(())
}

/// Reads the associated types that the needs of all nodes are about: those of paths, then those of patterns.
fn read_nodes(
    alloc: Global,
    context: &mut InferenceContext,
    given: &GivenBody,
) -> Result<(), AllocError>
    requires of_body { IsOfBody given.now.body.now context.old.result }
    requires sound { IsSound (scope_in given.now) context.old }
    ensures { OnOk result (ReadsAll (given_of given.now) context.old context.new) }
{
    read_paths(alloc, context, given)?;
    read_pats(alloc, context, given)?;
    Ok(())
}

/// Reads them of all nodes until that binds no hole any more: what one path gives may be what the associated type of another is of.
pub fn read_all(
    alloc: Global,
    context: &mut InferenceContext,
    given: &GivenBody,
) -> Result<(), AllocError>
    requires of_body { IsOfBody given.now.body.now context.old.result }
    requires sound { IsSound (scope_in given.now) context.old }
    ensures { OnOk result (ReadsOn (given_of given.now) context.old context.new) }
{
    'read: loop {
        let bound = context.goals.table.bound_count();
        read_nodes(alloc, context, given)?;
        if context.goals.table.bound_count() == bound {
            return Ok(());
        }
    }
}

/// Once the body is walked: reads the associated types that the needs of its nodes are about, selects what can be selected with what that
/// says, and unifies the pairs that still wait.
pub fn settle_needs(
    alloc: Global,
    context: &mut InferenceContext,
    given: &GivenBody,
) -> Result<(), AllocError>
    requires of_body { IsOfBody given.now.body.now context.old.result }
    requires sound { IsSound (scope_in given.now) context.old }
    requires told { IsTold (given_of given.now) context.old }
    ensures { IfOk result (λ _. SettlesNeeds (given_of given.now) context.old context.new) }
{
    read_all(alloc, context, given)?;
    select_obligations_where_possible(context, given)?;
    unify_unknown(context, given)?;
    Ok(())
}
