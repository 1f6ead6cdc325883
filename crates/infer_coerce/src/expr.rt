//! An expression, and what is expected of it.
ghost use Rattle.std.specs.Prelude.{IfOk};
ghost use Rattle.infer_coerce.specs.Words.{given_of, schedule_of, expected_type, Before, CoerceDone};
ghost use Rattle.infer_coerce.specs.Own.{InfersFrom};

use crate::coercion::{Coerced, NotCoercible, coerce};
use hir_facts::{ExprId, Ty};
use infer_ctx::{Expectation, GivenBody, InferenceContext};
use infer_result::TypeMismatch;
use std::alloc::{AllocError, Global};

/// Types an expression and coerces it to what is expected: `infer/expr.rs`, `infer_expr_coerce`.
pub fn infer_expr_coerce<
    F: Fn(&mut InferenceContext, ExprId, Expectation) -> Result<Ty, AllocError>,
>(
    infer: &F,
    alloc: Global,
    context: &mut InferenceContext,
    given: &GivenBody,
    expr: ExprId,
    expected: Expectation,
) -> Result<Ty, AllocError>
    requires infers { InfersFrom (given_of given.now) (schedule_of given.now) context.old.clock (F.pre infer.now) (F.post infer.now) }
    requires before { Before (given_of given.now) (schedule_of given.now)
        expr (expected_type expected) context.old }
    ensures { IfOk result (λ ty. CoerceDone (given_of given.now) (schedule_of given.now)
        expr (expected_type expected.entry) ty context.old context.new) }
{
    let ty = infer(context, expr, expected)?;
    match expected.only_has_type() {
        Some(target) => match coerce(alloc, context, given, expr, &ty, target)? {
            Ok(Coerced { ty }) => Ok(ty),
            Err(NotCoercible { source, target }) => {
                let coerced = target.dup(alloc)?;
                let mismatch = TypeMismatch {
                    expected: target,
                    actual: source,
                };
                context.note_mismatch(expr, mismatch);
                Ok(coerced)
            }
        },
        None => Ok(ty),
    }
}
