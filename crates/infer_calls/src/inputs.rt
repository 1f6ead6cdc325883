//! What is expected of the arguments of a call, from what is expected of the call itself.
ghost use Rattle.std.specs.Prelude.{IfOk};
ghost use Rattle.infer_calls.specs.Words.{IsOfBody, HolesAreOf, Grew, IsSound, given_of, scope_in, expected_type, IsFine, AllFine, IsFineExpectation};
ghost use Rattle.infer_calls.specs.Own.{FindsInputs, ExpectsInputs, IsTried};

use hir_facts::{List, Ty};
use infer_coerce::{copies, unify_all};
use infer_ctx::{Expectation, GivenBody, InferenceContext};
use infer_table::{InferenceTable, NoUnifier};
use std::alloc::{AllocError, Global};

/// Makes what a call takes equal with what is expected of its arguments, where something is: the
/// beginning of `infer/expr.rs`'s `check_call_arguments`.
pub fn expect_inputs(
    alloc: Global,
    context: &mut InferenceContext,
    given: &GivenBody,
    expected: Expectation,
    inputs: &[Ty],
    output: &Ty,
) -> Result<(), AllocError>
    requires of_body { IsOfBody given.now.body.now context.old.result }
    requires sound { IsSound (scope_in given.now) context.old }
    requires inputs { AllFine (scope_in given.now) context.old.goals.table inputs.now }
    requires output { IsFine (scope_in given.now) context.old.goals.table output.now }
    requires expected { IsFineExpectation (scope_in given.now) context.old.goals.table (expected_type expected) }
    ensures { IfOk result (λ _. ExpectsInputs (given_of given.now) (expected_type expected.entry)
        inputs.now output.now context.old context.new) }
{
    match expected_inputs_for_output(alloc, context, given, expected, inputs, output)? {
        Some(wanted) => {
            unify_all(context, given, inputs, wanted.as_slice())?;
            Ok(())
        }
        None => Ok(()),
    }
}

/// What is expected of the arguments of a call of which this is expected: what the call takes once
/// what it gives is made equal with that, which is tried and undone. `None` where nothing is expected
/// of it, or the two cannot be equal.
fn expected_inputs_for_output(
    alloc: Global,
    context: &mut InferenceContext,
    given: &GivenBody,
    expected: Expectation,
    inputs: &[Ty],
    output: &Ty,
) -> Result<Option<List<Ty>>, AllocError>
    requires of_body { IsOfBody given.now.body.now context.old.result }
    requires sound { IsSound (scope_in given.now) context.old }
    requires inputs { AllFine (scope_in given.now) context.old.goals.table inputs.now }
    requires output { IsFine (scope_in given.now) context.old.goals.table output.now }
    requires expected { IsFineExpectation (scope_in given.now) context.old.goals.table (expected_type expected) }
    ensures { IfOk result (λ wanted. FindsInputs (given_of given.now) (expected_type expected.entry)
        inputs.now output.now wanted context.old context.new) }
{
    match expected.only_has_type() {
        Some(expected_output) => {
            let tried = context.goals.table.fudge(|table| inputs_once(
                alloc,
                table,
                inputs,
                output,
                expected_output,
            ))?;
            match tried {
                Ok(wanted) => Ok(Some(wanted)),
                Err(_) => Ok(None),
            }
        }
        None => Ok(None),
    }
}

/// What a call takes, with what it gives made equal with what is expected of it.
fn inputs_once(
    alloc: Global,
    table: &mut InferenceTable,
    inputs: &[Ty],
    output: &Ty,
    expected_output: &Ty,
) -> Result<Result<List<Ty>, NoUnifier>, AllocError>
    requires output { HolesAreOf table.old output.now }
    requires expected { HolesAreOf table.old expected_output.now }
    ensures tried { IfOk result (λ answer. IsTried inputs.now output.now expected_output.now table.old table.new answer) }
    ensures grew { Grew table.old table.new }
{
    match table.try_unify(output, expected_output)? {
        Ok(()) => {
            // That some assignment agrees with what is found out now is known of each table.
            table.lawful();
            let takes = copies(alloc, inputs)?;
            Ok(Ok(takes))
        }
        Err(refusal) => Ok(Err(refusal)),
    }
}
