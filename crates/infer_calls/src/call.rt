//! The types of calls.
ghost use Rattle.std.specs.Prelude.{◌≡◌, [], IfOk, length};
ghost use Rattle.infer_calls.specs.Words.{IsOfBody, IsSound, given_of, scope_in, schedule_of, expected_type, IsFine, IsFineExpectation, Before, Within, KindDone, InfersFrom, UnifiesOne};
ghost use Rattle.infer_calls.specs.Own.{IsCallOf, CalleeTyped, BeforeCall, BeforeInputs, ArgsDone, BeforeUncallable, BeforeLoose, LooseDone, AreMet, EndsInSelection, EndsInReading};

use crate::inputs::expect_inputs;
use hir_facts::{ExprId, ExprOrPatId, Goal, Ty};
use infer_coerce::{infer_expr_coerce, unify};
use infer_ctx::{CallableSig, Expectation, GivenBody, InferenceContext};
use infer_obligations::{read_for, select_and_read, select_obligations_where_possible};
use infer_result::{InferenceDiagnostic, Seen, callee_needs};
use std::alloc::{AllocError, Global};

/// The type of a call: `infer/expr.rs`, `infer_call`.
pub fn infer_call<F: Fn(&mut InferenceContext, ExprId, Expectation) -> Result<Ty, AllocError>>(
    infer: &F,
    alloc: Global,
    context: &mut InferenceContext,
    given: &GivenBody,
    tgt_expr: ExprId,
    callee: ExprId,
    args: &[ExprId],
    expected: Expectation,
) -> Result<Ty, AllocError>
    requires infers { InfersFrom (given_of given.now) (schedule_of given.now) context.old.clock (F.pre infer.now) (F.post infer.now) }
    requires before { Within (given_of given.now) (schedule_of given.now)
        tgt_expr (expected_type expected) context.old }
    requires is { IsCallOf given.now.body.now tgt_expr callee args.now }
    ensures { IfOk result (λ ty. KindDone (given_of given.now) (schedule_of given.now)
        tgt_expr (expected_type expected.entry) ty context.old context.new) }
{
    let callee_ty = infer_callee(infer, alloc, context, given, callee)?;
    check_call(
        infer, alloc, context, given, tgt_expr, args, &callee_ty, expected,
    )
}

/// Types what is called, and gives its type as far as it is known: the beginning of
/// `infer/expr.rs`'s `infer_call`.
fn infer_callee<F: Fn(&mut InferenceContext, ExprId, Expectation) -> Result<Ty, AllocError>>(
    infer: &F,
    alloc: Global,
    context: &mut InferenceContext,
    given: &GivenBody,
    callee: ExprId,
) -> Result<Ty, AllocError>
    requires infers { InfersFrom (given_of given.now) (schedule_of given.now) context.old.clock (F.pre infer.now) (F.post infer.now) }
    requires before { Before (given_of given.now) (schedule_of given.now) callee None context.old }
    ensures { IfOk result (λ ty. CalleeTyped (given_of given.now) (schedule_of given.now)
        callee ty context.old context.new) }
{
    let callee_ty = infer(context, callee, Expectation::None)?;
    // Each hole that a binding names was made.
    context.goals.table.lawful();
    context.goals.table.resolve(&callee_ty)
}

/// The type of a call of what has this type: the rest of `infer/expr.rs`'s `infer_call`, with its
/// `check_call`.
fn check_call<F: Fn(&mut InferenceContext, ExprId, Expectation) -> Result<Ty, AllocError>>(
    infer: &F,
    alloc: Global,
    context: &mut InferenceContext,
    given: &GivenBody,
    call_expr: ExprId,
    args: &[ExprId],
    callee_ty: &Ty,
    expected: Expectation,
) -> Result<Ty, AllocError>
    requires infers { InfersFrom (given_of given.now) (schedule_of given.now) context.old.clock (F.pre infer.now) (F.post infer.now) }
    requires before { BeforeCall (given_of given.now) (schedule_of given.now)
        call_expr args.now callee_ty.now context.old }
    requires expected { IsFineExpectation (scope_in given.now) context.old.goals.table (expected_type expected) }
    ensures { IfOk result (λ ty. KindDone (given_of given.now) (schedule_of given.now)
        call_expr None ty context.old context.new) }
{
    match given.callable_sig(alloc, callee_ty)? {
        Some(CallableSig { inputs, output }) => {
            check_call_arguments(
                infer,
                alloc,
                context,
                given,
                call_expr,
                args,
                callee_ty,
                inputs.as_slice(),
                &output,
                expected,
            )?;
            Ok(output)
        }
        None => infer_uncallable(infer, alloc, context, given, call_expr, args, callee_ty),
    }
}

/// The type of a call of what has this type, which is no function: any. That it is none is kept, and
/// said in the end unless `{unknown}` stands in the type then; of the arguments nothing is
/// expected. This is `infer/expr.rs`'s `infer_call` where there is no `callable_sig`.
fn infer_uncallable<F: Fn(&mut InferenceContext, ExprId, Expectation) -> Result<Ty, AllocError>>(
    infer: &F,
    alloc: Global,
    context: &mut InferenceContext,
    given: &GivenBody,
    call_expr: ExprId,
    args: &[ExprId],
    callee_ty: &Ty,
) -> Result<Ty, AllocError>
    requires infers { InfersFrom (given_of given.now) (schedule_of given.now) context.old.clock (F.pre infer.now) (F.post infer.now) }
    requires before { BeforeUncallable (given_of given.now) (schedule_of given.now)
        call_expr args.now callee_ty.now context.old }
    ensures { IfOk result (λ ty. KindDone (given_of given.now) (schedule_of given.now)
        call_expr None ty context.old context.new) }
{
    let seen_ty = callee_ty.dup(alloc)?;
    context.note_seen(Seen {
        node: ExprOrPatId::ExprId(call_expr),
        ty: seen_ty,
        other: None,
    })?;
    infer_uncallable_arguments(infer, alloc, context, given, call_expr, args)?;
    let ty = context.goals.table.next_ty_var()?;
    Ok(ty)
}

/// Types the arguments of a call of which nothing is expected. Then goals are selected, which may have become known.
fn infer_uncallable_arguments<
    F: Fn(&mut InferenceContext, ExprId, Expectation) -> Result<Ty, AllocError>,
>(
    infer: &F,
    alloc: Global,
    context: &mut InferenceContext,
    given: &GivenBody,
    call_expr: ExprId,
    args: &[ExprId],
) -> Result<(), AllocError>
    requires infers { InfersFrom (given_of given.now) (schedule_of given.now) context.old.clock (F.pre infer.now) (F.post infer.now) }
    requires before { BeforeLoose (given_of given.now) (schedule_of given.now)
        call_expr args.now [] context.old }
    ensures done { IfOk result (λ _. LooseDone (given_of given.now) (schedule_of given.now)
        call_expr args.now [] context.old context.new) }
    ensures selected { IfOk result (λ _. EndsInSelection (given_of given.now) context.new) }
{
    infer_arguments(infer, alloc, context, given, call_expr, args, &[])?;
    select_obligations_where_possible(context, given)?;
    Ok(())
}

/// Types the arguments of a call, which are to be at these types, of which what is expected of the
/// call may tell more. Then goals are selected, which may have become known, and what the associated types are is read that the needs
/// of the callee are about. This is `infer/expr.rs`'s `check_call_arguments`.
fn check_call_arguments<
    F: Fn(&mut InferenceContext, ExprId, Expectation) -> Result<Ty, AllocError>,
>(
    infer: &F,
    alloc: Global,
    context: &mut InferenceContext,
    given: &GivenBody,
    call_expr: ExprId,
    args: &[ExprId],
    callee_ty: &Ty,
    inputs: &[Ty],
    output: &Ty,
    expected: Expectation,
) -> Result<(), AllocError>
    requires infers { InfersFrom (given_of given.now) (schedule_of given.now) context.old.clock (F.pre infer.now) (F.post infer.now) }
    requires before { BeforeInputs (given_of given.now) (schedule_of given.now)
        call_expr args.now inputs.now context.old }
    requires output { IsFine (scope_in given.now) context.old.goals.table output.now }
    requires expected { IsFineExpectation (scope_in given.now) context.old.goals.table (expected_type expected) }
    ensures done { IfOk result (λ _. ArgsDone (given_of given.now) (schedule_of given.now)
        call_expr args.now inputs.now context.old context.new) }
    ensures selected { IfOk result (λ _. EndsInSelection (given_of given.now) context.new) }
    ensures read { IfOk result (λ _. EndsInReading (given_of given.now) callee_ty.now context.new) }
{
    let needed = callee_needs(alloc, given.facts, callee_ty)?;
    let goals = needed.as_slice();
    check_each_argument(
        infer, alloc, context, given, call_expr, args, goals, inputs, output, expected,
    )?;
    select_and_read(alloc, context, given, goals)?;
    Ok(())
}

/// Types the arguments of a call, with what is expected of the call. Where there are not as many as it takes, that is
/// said, and no argument has a mismatch with its own.
fn check_each_argument<F: Fn(&mut InferenceContext, ExprId, Expectation) -> Result<Ty, AllocError>>(
    infer: &F,
    alloc: Global,
    context: &mut InferenceContext,
    given: &GivenBody,
    call_expr: ExprId,
    args: &[ExprId],
    needed: &[Goal],
    inputs: &[Ty],
    output: &Ty,
    expected: Expectation,
) -> Result<(), AllocError>
    requires infers { InfersFrom (given_of given.now) (schedule_of given.now) context.old.clock (F.pre infer.now) (F.post infer.now) }
    requires before { BeforeInputs (given_of given.now) (schedule_of given.now)
        call_expr args.now inputs.now context.old }
    requires output { IsFine (scope_in given.now) context.old.goals.table output.now }
    requires expected { IsFineExpectation (scope_in given.now) context.old.goals.table (expected_type expected) }
    ensures { IfOk result (λ _. ArgsDone (given_of given.now) (schedule_of given.now)
        call_expr args.now inputs.now context.old context.new) }
{
    expect_inputs(alloc, context, given, expected, inputs, output)?;
    if args.len() == inputs.len() {
        check_arguments(
            infer, alloc, context, given, call_expr, args, needed, inputs,
        )
    } else {
        check_miscounted_arguments(infer, alloc, context, given, call_expr, args, inputs)
    }
}

/// Types the arguments of a call, each against its input. Where nothing is known of that yet, what associated types are is read first
/// that the needs of the callee are about.
fn check_arguments<F: Fn(&mut InferenceContext, ExprId, Expectation) -> Result<Ty, AllocError>>(
    infer: &F,
    alloc: Global,
    context: &mut InferenceContext,
    given: &GivenBody,
    call_expr: ExprId,
    args: &[ExprId],
    needed: &[Goal],
    inputs: &[Ty],
) -> Result<(), AllocError>
    requires infers { InfersFrom (given_of given.now) (schedule_of given.now) context.old.clock (F.pre infer.now) (F.post infer.now) }
    requires before { BeforeInputs (given_of given.now) (schedule_of given.now)
        call_expr args.now inputs.now context.old }
    requires count { length args.now ≡ length inputs.now }
    ensures { IfOk result (λ _. ArgsDone (given_of given.now) (schedule_of given.now)
        call_expr args.now inputs.now context.old context.new) }
{
    for (i, arg) in args.iter().enumerate() {
        let input = &inputs[i];
        read_for(alloc, context, given, needed, input)?;
        let expected = Expectation::HasType(input);
        infer_expr_coerce(infer, alloc, context, given, *arg, expected)?;
    }
    Ok(())
}

/// Types the arguments of a call that has another number of them than it takes, and says so. The type
/// of each that has an input is made equal with it, where that can be.
fn check_miscounted_arguments<
    F: Fn(&mut InferenceContext, ExprId, Expectation) -> Result<Ty, AllocError>,
>(
    infer: &F,
    alloc: Global,
    context: &mut InferenceContext,
    given: &GivenBody,
    call_expr: ExprId,
    args: &[ExprId],
    inputs: &[Ty],
) -> Result<(), AllocError>
    requires infers { InfersFrom (given_of given.now) (schedule_of given.now) context.old.clock (F.pre infer.now) (F.post infer.now) }
    requires before { BeforeInputs (given_of given.now) (schedule_of given.now)
        call_expr args.now inputs.now context.old }
    requires differ { length args.now ≡ length inputs.now → ⊥ }
    ensures done { IfOk result (λ _. ArgsDone (given_of given.now) (schedule_of given.now)
        call_expr args.now inputs.now context.old context.new) }
    ensures met { IfOk result (λ _. AreMet args.now inputs.now context.new) }
{
    context.push_diagnostic(
        call_expr,
        InferenceDiagnostic::MismatchedArgCount {
            call_expr,
            expected: inputs.len(),
            found: args.len(),
        },
    );
    infer_arguments(infer, alloc, context, given, call_expr, args, inputs)?;
    Ok(())
}

/// Types the arguments of a call, with these types expected of the first of them, and nothing of
/// the others. The type of each of the first is made equal with its one of these, where that can be.
fn infer_arguments<F: Fn(&mut InferenceContext, ExprId, Expectation) -> Result<Ty, AllocError>>(
    infer: &F,
    alloc: Global,
    context: &mut InferenceContext,
    given: &GivenBody,
    call_expr: ExprId,
    args: &[ExprId],
    inputs: &[Ty],
) -> Result<(), AllocError>
    requires infers { InfersFrom (given_of given.now) (schedule_of given.now) context.old.clock (F.pre infer.now) (F.post infer.now) }
    requires before { BeforeLoose (given_of given.now) (schedule_of given.now)
        call_expr args.now inputs.now context.old }
    ensures { IfOk result (λ _. LooseDone (given_of given.now) (schedule_of given.now)
        call_expr args.now inputs.now context.old context.new) }
{
    for (i, arg) in args.iter().enumerate() {
        let ty = infer(context, *arg, Expectation::at(inputs, i))?;
        if i < inputs.len() {
            unify_with(context, given, &ty, &inputs[i])?;
        }
    }
    Ok(())
}

/// Makes two types equal, where that can be; else they differ.
fn unify_with(
    context: &mut InferenceContext,
    given: &GivenBody,
    ty: &Ty,
    other: &Ty,
) -> Result<(), AllocError>
    requires of_body { IsOfBody given.now.body.now context.old.result }
    requires sound { IsSound (scope_in given.now) context.old }
    requires ty { IsFine (scope_in given.now) context.old.goals.table ty.now }
    requires other { IsFine (scope_in given.now) context.old.goals.table other.now }
    ensures { IfOk result (λ _. UnifiesOne (given_of given.now) ty.now other.now context.old context.new) }
{
    unify(context, given, ty, other)?;
    Ok(())
}
