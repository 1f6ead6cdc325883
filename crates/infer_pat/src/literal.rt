//! The types of literals.
ghost use Rattle.std.specs.Prelude.{◌≡◌, IfOk, slice_get};
ghost use Rattle.infer_pat.specs.Words.{IsLiteral, IsSound, given_of, schedule_of, expected_type, scope_in, Within, KindDone};
ghost use Rattle.infer_pat.specs.Own.{LiteralDone, IntDone, expected_integer, integer_for, literal_type_at};

use hir_facts::{ExprId, RawExpr, RawLiteral, Ty, UintTy};
use infer_ctx::{Expectation, GivenBody, InferenceContext};
use std::alloc::AllocError;

/// The type of an expression that is a literal: `infer/expr.rs`, `infer_expr_inner` at `Expr::Literal`.
pub fn infer_literal(
    context: &mut InferenceContext,
    given: &GivenBody,
    tgt_expr: ExprId,
    expected: Expectation,
) -> Result<Ty, AllocError>
    requires before { Within (given_of given.now) (schedule_of given.now)
        tgt_expr (expected_type expected) context.old }
    requires is { IsLiteral (slice_get given.now.body.now.exprs tgt_expr.0) }
    ensures kind { IfOk result (λ ty. KindDone (given_of given.now) (schedule_of given.now)
        tgt_expr (expected_type expected.entry) ty context.old context.new) }
    ensures typed { IfOk result (λ ty. ty ≡ literal_type_at context.old.goals.table
        (expected_type expected.entry) (slice_get given.now.body.now.exprs tgt_expr.0)) }
{
    match &given.body.exprs.as_slice()[tgt_expr.0 as usize] {
        RawExpr::Lit(literal) => {
            let ty = literal_ty(context, given, literal, expected)?;
            Ok(ty)
        }
        _ => unreachable!(),
    }
}

/// The type of a literal.
fn literal_ty(
    context: &mut InferenceContext,
    given: &GivenBody,
    literal: &RawLiteral,
    expected: Expectation,
) -> Result<Ty, AllocError>
    requires { IsSound (scope_in given.now) context.old }
    ensures { IfOk result (λ ty. LiteralDone (scope_in given.now) (expected_type expected.entry) literal.now ty context.old context.new) }
{
    match literal {
        RawLiteral::Bool(_) => Ok(Ty::Bool),
        RawLiteral::Char(_) => Ok(Ty::Char),
        RawLiteral::Int {
            suffix: Some(suffix),
            ..
        } => Ok(suffix.ty()),
        RawLiteral::Int { suffix: None, .. } => {
            let ty = infer_unsuffixed(context, given, expected)?;
            Ok(ty)
        }
    }
}

/// The type of an integer without a suffix: what is expected of it where that says one, else a
/// new hole for integer types.
fn infer_unsuffixed(
    context: &mut InferenceContext,
    given: &GivenBody,
    expected: Expectation,
) -> Result<Ty, AllocError>
    requires { IsSound (scope_in given.now) context.old }
    ensures { IfOk result (λ ty. IntDone (scope_in given.now) (expected_type expected.entry) ty context.old context.new) }
{
    match expected_integer(context, expected) {
        Some(ty) => Ok(ty),
        None => {
            let ty = context.goals.table.next_int_var()?;
            Ok(ty)
        }
    }
}

/// The integer type that is expected, where one is.
fn expected_integer(context: &InferenceContext, expected: Expectation) -> Option<Ty>
    ensures { result ≡ expected_integer context.now.goals.table (expected_type expected.entry) }
{
    let expected_ty = expected.only_has_type()?;
    integer_for(context.goals.table.shallow_resolve(expected_ty))
}

/// The type of an integer without a suffix of which this type is expected, where that says one: an
/// integer type itself, `u8` where `char` is expected, `usize` where a function item is.
fn integer_for(ty: &Ty) -> Option<Ty>
    ensures { result ≡ integer_for ty.now }
{
    match ty {
        Ty::Int(int) => Some(Ty::Int(*int)),
        Ty::Uint(uint) => Some(Ty::Uint(*uint)),
        Ty::Char => Some(Ty::Uint(UintTy::U8)),
        Ty::FnDef(_, _) => Some(Ty::Uint(UintTy::Usize)),
        _ => None,
    }
}
