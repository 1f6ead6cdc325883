//! The types of `if` and `match`.
ghost use Rattle.std.specs.Prelude.{IfOk};
ghost use Rattle.infer_branches.specs.Words.{given_of, schedule_of, expected_type, scope_in, Before, Within, KindDone, IsFineCommon, InfersFrom};
ghost use Rattle.infer_branches.specs.Own.{IsIfOf, IsMatchOf, BeforeElse, ElseDone, AlternativeDone, BeforeArms, ArmsDone, BeforeGuard, GuardDone};

use hir_facts::{ExprId, RawArm, Ty};
use infer_coerce::{CoerceMany, infer_expr_coerce};
use infer_ctx::{Expectation, GivenBody, InferenceContext};
use infer_pat::infer_top_pat;
use std::alloc::{AllocError, Global};

/// The type of an `if`: `infer/expr.rs`, `infer_expr_inner` at `Expr::If`.
pub fn infer_if<F: Fn(&mut InferenceContext, ExprId, Expectation) -> Result<Ty, AllocError>>(
    infer: &F,
    alloc: Global,
    context: &mut InferenceContext,
    given: &GivenBody,
    tgt_expr: ExprId,
    condition: ExprId,
    then_branch: ExprId,
    else_branch: Option<ExprId>,
    expected: Expectation,
) -> Result<Ty, AllocError>
    requires infers { InfersFrom (given_of given.now) (schedule_of given.now) context.old.clock (F.pre infer.now) (F.post infer.now) }
    requires before { Within (given_of given.now) (schedule_of given.now)
        tgt_expr (expected_type expected) context.old }
    requires is { IsIfOf given.now.body.now tgt_expr condition then_branch else_branch }
    ensures { IfOk result (λ ty. KindDone (given_of given.now) (schedule_of given.now)
        tgt_expr (expected_type expected.entry) ty context.old context.new) }
{
    let wanted = expected.adjust_for_branches(&context.goals.table);
    let bool_ty = Ty::Bool;
    infer_expr_coerce(
        infer,
        alloc,
        context,
        given,
        condition,
        Expectation::HasType(&bool_ty),
    )?;
    let mut common = CoerceMany::new(alloc, wanted)?;
    infer_alternative(
        infer,
        alloc,
        context,
        given,
        then_branch,
        wanted,
        &mut common,
    )?;
    infer_else(
        infer,
        alloc,
        context,
        given,
        tgt_expr,
        else_branch,
        wanted,
        &mut common,
    )?;
    let ty = common.complete(alloc, context, given, wanted)?;
    Ok(ty)
}

/// Takes the other branch of an `if` into the common type, or `()` where it has none.
fn infer_else<F: Fn(&mut InferenceContext, ExprId, Expectation) -> Result<Ty, AllocError>>(
    infer: &F,
    alloc: Global,
    context: &mut InferenceContext,
    given: &GivenBody,
    tgt_expr: ExprId,
    else_branch: Option<ExprId>,
    expected: Expectation,
    common: &mut CoerceMany,
) -> Result<(), AllocError>
    requires infers { InfersFrom (given_of given.now) (schedule_of given.now) context.old.clock (F.pre infer.now) (F.post infer.now) }
    requires before { BeforeElse (given_of given.now) (schedule_of given.now)
        tgt_expr else_branch (expected_type expected) common.old context.old }
    ensures { IfOk result (λ _. ElseDone (given_of given.now) (schedule_of given.now)
        tgt_expr else_branch (expected_type expected.entry) common.old common.new context.old context.new) }
{
    match else_branch {
        Some(expr) => {
            infer_alternative(infer, alloc, context, given, expr, expected, common)?;
            Ok(())
        }
        None => {
            common.coerce_forced_unit(alloc, context, given, tgt_expr)?;
            Ok(())
        }
    }
}

/// Types an expression that may give a node its value, and takes it into the common type.
fn infer_alternative<F: Fn(&mut InferenceContext, ExprId, Expectation) -> Result<Ty, AllocError>>(
    infer: &F,
    alloc: Global,
    context: &mut InferenceContext,
    given: &GivenBody,
    expr: ExprId,
    expected: Expectation,
    common: &mut CoerceMany,
) -> Result<(), AllocError>
    requires infers { InfersFrom (given_of given.now) (schedule_of given.now) context.old.clock (F.pre infer.now) (F.post infer.now) }
    requires before { Before (given_of given.now) (schedule_of given.now)
        expr (expected_type expected) context.old }
    requires common { IsFineCommon (scope_in given.now) context.old.goals.table common.old }
    ensures { IfOk result (λ _. AlternativeDone (given_of given.now) (schedule_of given.now)
        expr (expected_type expected.entry) common.old common.new context.old context.new) }
{
    let ty = infer(context, expr, expected)?;
    common.coerce(alloc, context, given, expr, ty)?;
    Ok(())
}

/// The type of a `match`: `infer/expr.rs`, `infer_expr_inner` at `Expr::Match`. All patterns are
/// typed before all arms.
pub fn infer_match<F: Fn(&mut InferenceContext, ExprId, Expectation) -> Result<Ty, AllocError>>(
    infer: &F,
    alloc: Global,
    context: &mut InferenceContext,
    given: &GivenBody,
    tgt_expr: ExprId,
    scrutinee: ExprId,
    arms: &[RawArm],
    expected: Expectation,
) -> Result<Ty, AllocError>
    requires infers { InfersFrom (given_of given.now) (schedule_of given.now) context.old.clock (F.pre infer.now) (F.post infer.now) }
    requires before { Within (given_of given.now) (schedule_of given.now)
        tgt_expr (expected_type expected) context.old }
    requires is { IsMatchOf given.now.body.now tgt_expr scrutinee arms.now }
    ensures { IfOk result (λ ty. KindDone (given_of given.now) (schedule_of given.now)
        tgt_expr (expected_type expected.entry) ty context.old context.new) }
{
    let input_ty = infer_expr_coerce(infer, alloc, context, given, scrutinee, Expectation::None)?;
    for i in 0..arms.len() {
        let ty = input_ty.dup(alloc)?;
        infer_top_pat(alloc, context, given, arms[i].pat, Some(ty))?;
    }
    let wanted = expected
        .adjust_for_branches(&context.goals.table)
        .unless_unit(&context.goals.table);
    let ty = infer_arms(infer, alloc, context, given, tgt_expr, arms, wanted)?;
    Ok(ty)
}

/// The common type of the arms of a `match`, whose guards are truth values.
fn infer_arms<F: Fn(&mut InferenceContext, ExprId, Expectation) -> Result<Ty, AllocError>>(
    infer: &F,
    alloc: Global,
    context: &mut InferenceContext,
    given: &GivenBody,
    tgt_expr: ExprId,
    arms: &[RawArm],
    expected: Expectation,
) -> Result<Ty, AllocError>
    requires infers { InfersFrom (given_of given.now) (schedule_of given.now) context.old.clock (F.pre infer.now) (F.post infer.now) }
    requires before { BeforeArms (given_of given.now) (schedule_of given.now)
        tgt_expr arms.now (expected_type expected) context.old }
    ensures { IfOk result (λ ty. ArmsDone (given_of given.now) (schedule_of given.now)
        tgt_expr arms.now (expected_type expected.entry) ty context.old context.new) }
{
    let mut common = CoerceMany::new(alloc, expected)?;
    for i in 0..arms.len() {
        infer_guard(infer, alloc, context, given, tgt_expr, arms[i].guard)?;
        infer_alternative(
            infer,
            alloc,
            context,
            given,
            arms[i].expr,
            expected,
            &mut common,
        )?;
    }
    let ty = common.complete(alloc, context, given, expected)?;
    Ok(ty)
}

/// Types the guard of an arm, where it has one.
fn infer_guard<F: Fn(&mut InferenceContext, ExprId, Expectation) -> Result<Ty, AllocError>>(
    infer: &F,
    alloc: Global,
    context: &mut InferenceContext,
    given: &GivenBody,
    tgt_expr: ExprId,
    guard: Option<ExprId>,
) -> Result<(), AllocError>
    requires infers { InfersFrom (given_of given.now) (schedule_of given.now) context.old.clock (F.pre infer.now) (F.post infer.now) }
    requires before { BeforeGuard (given_of given.now) (schedule_of given.now) tgt_expr guard context.old }
    ensures { IfOk result (λ _. GuardDone (given_of given.now) (schedule_of given.now)
        guard context.old context.new) }
{
    match guard {
        Some(expr) => {
            let bool_ty = Ty::Bool;
            infer_expr_coerce(
                infer,
                alloc,
                context,
                given,
                expr,
                Expectation::HasType(&bool_ty),
            )?;
            Ok(())
        }
        None => Ok(()),
    }
}
