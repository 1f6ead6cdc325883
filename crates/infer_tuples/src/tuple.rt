//! The types of tuples.
ghost use Rattle.std.specs.Prelude.{◌≡◌, IfOk, Some, None};
ghost use Rattle.infer_tuples.specs.Words.{given_of, scope_in, schedule_of, expected_type, known_hole, IsFineExpectation, Before, CoerceDone, Within, KindDone, InfersFrom};
ghost use Rattle.infer_tuples.specs.Own.{IsTupleOf};

use hir_facts::{ExprId, List, Ty};
use infer_coerce::{demand_coerce, infer_expr_coerce};
use infer_ctx::{Expectation, GivenBody, InferenceContext};
use std::alloc::{AllocError, Global};

/// The type of a tuple, whose elements are expected to have the types of what is expected of
/// it: `infer/expr.rs`, `infer_expr_inner` at `Expr::Tuple`.
pub fn infer_tuple<F: Fn(&mut InferenceContext, ExprId, Expectation) -> Result<Ty, AllocError>>(
    infer: &F,
    alloc: Global,
    context: &mut InferenceContext,
    given: &GivenBody,
    tgt_expr: ExprId,
    exprs: &[ExprId],
    expected: Expectation,
) -> Result<Ty, AllocError>
    requires infers { InfersFrom (given_of given.now) (schedule_of given.now) context.old.clock (F.pre infer.now) (F.post infer.now) }
    requires before { Within (given_of given.now) (schedule_of given.now)
        tgt_expr (expected_type expected) context.old }
    requires is { IsTupleOf given.now.body.now tgt_expr exprs.now }
    ensures { IfOk result (λ ty. KindDone (given_of given.now) (schedule_of given.now)
        tgt_expr (expected_type expected.entry) ty context.old context.new) }
{
    // Each hole that a binding names was made.
    context.goals.table.lawful();
    let known = known_ty(context, expected)?;
    infer_elements(
        infer,
        alloc,
        context,
        given,
        tgt_expr,
        exprs,
        expected.known_as(&known),
    )
}

/// What is known of the type that is expected of a tuple, where that is a hole. Any other type is
/// looked at as it is. This is what `infer.rs`'s `Expectation::only_has_type` does.
fn known_ty(context: &InferenceContext, expected: Expectation) -> Result<Option<Ty>, AllocError>
    ensures { IfOk result (λ known. known ≡ known_hole context.now.goals.table (expected_type expected.entry)) }
{
    match expected {
        Expectation::HasType(ty) => match ty {
            Ty::Var(_) => {
                let known = context.goals.table.resolve(ty)?;
                Ok(Some(known))
            }
            _ => Ok(None),
        },
        Expectation::None => Ok(None),
    }
}

/// The type of a tuple, whose elements are expected to have the types of this one.
fn infer_elements<F: Fn(&mut InferenceContext, ExprId, Expectation) -> Result<Ty, AllocError>>(
    infer: &F,
    alloc: Global,
    context: &mut InferenceContext,
    given: &GivenBody,
    tgt_expr: ExprId,
    exprs: &[ExprId],
    expected: Expectation,
) -> Result<Ty, AllocError>
    requires infers { InfersFrom (given_of given.now) (schedule_of given.now) context.old.clock (F.pre infer.now) (F.post infer.now) }
    requires before { Within (given_of given.now) (schedule_of given.now) tgt_expr None context.old }
    requires expected { IsFineExpectation (scope_in given.now) context.old.goals.table (expected_type expected) }
    requires is { IsTupleOf given.now.body.now tgt_expr exprs.now }
    ensures { IfOk result (λ ty. KindDone (given_of given.now) (schedule_of given.now)
        tgt_expr None ty context.old context.new) }
{
    let mut tys = List::new(alloc);
    for (i, expr) in exprs.iter().enumerate() {
        let ty = infer_element(infer, alloc, context, given, *expr, expected.of_element(i))?;
        tys.push(ty)?;
    }
    Ok(Ty::Tuple(tys))
}

/// The type at which an element stands in its tuple: what is expected of it, else its own. Where
/// nothing is known of that, the element waits for a new hole to be known, as in
/// `infer/expr.rs`, where the component is a new variable in any case.
fn infer_element<F: Fn(&mut InferenceContext, ExprId, Expectation) -> Result<Ty, AllocError>>(
    infer: &F,
    alloc: Global,
    context: &mut InferenceContext,
    given: &GivenBody,
    expr: ExprId,
    expected: Expectation,
) -> Result<Ty, AllocError>
    requires infers { InfersFrom (given_of given.now) (schedule_of given.now) context.old.clock (F.pre infer.now) (F.post infer.now) }
    requires before { Before (given_of given.now) (schedule_of given.now)
        expr (expected_type expected) context.old }
    ensures { IfOk result (λ ty. CoerceDone (given_of given.now) (schedule_of given.now)
        expr (Some ty) ty context.old context.new) }
{
    let ty = infer_expr_coerce(infer, alloc, context, given, expr, expected)?;
    match expected {
        Expectation::HasType(_) => Ok(ty),
        Expectation::None => match context.goals.table.shallow_resolve(&ty) {
            Ty::Var(_) => {
                let component = context.goals.table.next_ty_var()?;
                demand_coerce(alloc, context, given, expr, &ty, &component)?;
                Ok(component)
            }
            _ => Ok(ty),
        },
    }
}
