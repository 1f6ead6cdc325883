//! The kinds of expressions.
ghost use Rattle.std.specs.Prelude.{IfOk};
ghost use Rattle.infer_ctx.specs.Context.{given_of, schedule_of, expected_type};
ghost use Rattle.infer_ctx.specs.Steps.{Within, KindDone};
ghost use Rattle.infer_coerce.specs.Recursion.{InfersFrom};

use hir_facts::{ExprId, RawExpr, Ty};
use infer_blocks::infer_block;
use infer_branches::{infer_if, infer_match};
use infer_calls::infer_call;
use infer_ctx::{Expectation, GivenBody, InferenceContext};
use infer_pat::{infer_expr_path, infer_literal};
use infer_tuples::infer_tuple;
use std::alloc::{AllocError, Global};

/// The type of an expression by its kind: the `match` of `infer/expr.rs`'s `infer_expr_inner`. It is
/// generic over the call that types a part, and so no part of a cycle.
pub fn infer_expr_of_kind<
    F: Fn(&mut InferenceContext, ExprId, Expectation) -> Result<Ty, AllocError>,
>(
    infer: &F,
    alloc: Global,
    context: &mut InferenceContext,
    given: &GivenBody,
    tgt_expr: ExprId,
    expected: Expectation,
) -> Result<Ty, AllocError>
    requires infers { InfersFrom (given_of given.now) (schedule_of given.now) context.old.clock (F.pre infer.now) (F.post infer.now) }
    requires before { Within (given_of given.now) (schedule_of given.now)
        tgt_expr (expected_type expected) context.old }
    ensures { IfOk result (λ ty. KindDone (given_of given.now) (schedule_of given.now)
        tgt_expr (expected_type expected.entry) ty context.old context.new) }
{
    match &given.body.exprs.as_slice()[tgt_expr.0 as usize] {
        RawExpr::Lit(_) => {
            let ty = infer_literal(context, given, tgt_expr, expected)?;
            Ok(ty)
        }
        RawExpr::Path(path) => {
            let ty = infer_expr_path(alloc, context, given, *path)?;
            Ok(ty)
        }
        RawExpr::Tuple(exprs) => {
            infer_tuple(
                infer,
                alloc,
                context,
                given,
                tgt_expr,
                exprs.as_slice(),
                expected,
            )
        }
        RawExpr::Block {
            statements,
            tail,
            ..
        } => {
            let statements = statements.as_slice();
            infer_block(
                infer, alloc, context, given, tgt_expr, statements, *tail, expected,
            )
        }
        RawExpr::If {
            condition,
            then_branch,
            else_branch,
        } => {
            let (condition, then_branch) = (*condition, *then_branch);
            infer_if(
                infer,
                alloc,
                context,
                given,
                tgt_expr,
                condition,
                then_branch,
                *else_branch,
                expected,
            )
        }
        RawExpr::Match { scrutinee, arms } => {
            infer_match(
                infer,
                alloc,
                context,
                given,
                tgt_expr,
                *scrutinee,
                arms.as_slice(),
                expected,
            )
        }
        RawExpr::Call { callee, args } => {
            infer_call(
                infer,
                alloc,
                context,
                given,
                tgt_expr,
                *callee,
                args.as_slice(),
                expected,
            )
        }
        RawExpr::Later(_) => unreachable!(),
    }
}
