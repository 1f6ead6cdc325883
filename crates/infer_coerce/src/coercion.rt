//! Coercions.
ghost use Rattle.std.specs.Prelude.{◌≡◌, ◌<◌, ◌++◌, ◌∷◌, [], IfOk, IsTrue, length};
ghost use Rattle.hir_types.specs.declared.ids.ExprOrPatId.TheVariants as node;
ghost use Rattle.infer_coerce.specs.Words.{IsUnknownPair, waiting, mismatch, IsOfBody, given_of, scope_in, waiting_at, IsSound, IsFine};
ghost use Rattle.infer_coerce.specs.Own.{IsCoercion, IsCoerced, MayWait};

use crate::unification::unify;
use hir_facts::{ExprId, ExprOrPatId, Ty};
use infer_ctx::{GivenBody, InferenceContext};
use infer_result::TypeMismatch;
use std::alloc::{AllocError, Global};
use thiserror::Error;

/// What an expression is from then on, once it is coerced: what `infer/coerce.rs`'s `coerce` answers.
#[derive(Drop)]
pub struct Coerced {
    /// The type that was asked for.
    pub ty: Ty,
}

/// Two types that are not the same for any types for their holes: what `infer/coerce.rs`'s `coerce`
/// answers otherwise.
#[derive(Debug, Drop, Error)]
#[error("the expression cannot be coerced to the type that was asked for")]
pub struct NotCoercible {
    /// The type that the expression is of.
    pub source: Ty,
    /// The type that was asked for.
    pub target: Ty,
}

/// What comes of a coercion to `target` that can be.
fn coerced_to(alloc: Global, target: &Ty) -> Result<Coerced, AllocError>
    ensures { IfOk result (λ made. made.ty ≡ target.now) }
{
    let ty = target.dup(alloc)?;
    Ok(Coerced { ty })
}

/// What comes of one that can't.
fn not_coercible(alloc: Global, source: &Ty, target: &Ty) -> Result<NotCoercible, AllocError>
    ensures source { IfOk result (λ made. made.source ≡ source.now) }
    ensures target { IfOk result (λ made. made.target ≡ target.now) }
{
    let source = source.dup(alloc)?;
    let target = target.dup(alloc)?;
    Ok(NotCoercible { source, target })
}

/// Puts an expression of type `source` where `target` is expected: the two are unified, or, where
/// nothing is known of either, the expression waits. Where they can't be unified nothing is changed.
/// This is `infer/coerce.rs`'s `coerce`.
pub fn coerce(
    alloc: Global,
    context: &mut InferenceContext,
    given: &GivenBody,
    expr: ExprId,
    source: &Ty,
    target: &Ty,
) -> Result<Result<Coerced, NotCoercible>, AllocError>
    requires within { expr.0 < length given.now.body.now.exprs }
    requires of_body { IsOfBody given.now.body.now context.old.result }
    requires sound { IsSound (scope_in given.now) context.old }
    requires source { IsFine (scope_in given.now) context.old.goals.table source.now }
    requires target { IsFine (scope_in given.now) context.old.goals.table target.now }
    ensures { IfOk result (λ answer. IsCoercion answer (given_of given.now) expr source.now target.now context.old context.new) }
{
    if source.is_same(target) {
        return Ok(Ok(coerced_to(alloc, target)?));
    }
    if may_wait(context, expr, source, target) {
        wait(alloc, context, given, expr, source, target)?;
        return Ok(Ok(coerced_to(alloc, target)?));
    }
    if unify(context, given, source, target)? {
        return Ok(Ok(coerced_to(alloc, target)?));
    }
    Ok(Err(not_coercible(alloc, source, target)?))
}

/// Coerces an expression of type `actual` to `target`, and notes a mismatch where that can't be:
/// `infer.rs`, `demand_coerce`. Answers whether it could.
pub fn demand_coerce(
    alloc: Global,
    context: &mut InferenceContext,
    given: &GivenBody,
    expr: ExprId,
    actual: &Ty,
    target: &Ty,
) -> Result<bool, AllocError>
    requires within { expr.0 < length given.now.body.now.exprs }
    requires of_body { IsOfBody given.now.body.now context.old.result }
    requires sound { IsSound (scope_in given.now) context.old }
    requires actual { IsFine (scope_in given.now) context.old.goals.table actual.now }
    requires target { IsFine (scope_in given.now) context.old.goals.table target.now }
    ensures { IfOk result (λ yes. IsCoerced yes (given_of given.now) expr actual.now target.now context.old context.new) }
{
    match coerce(alloc, context, given, expr, actual, target)? {
        Ok(_) => Ok(true),
        Err(NotCoercible { source, target }) => {
            let mismatch = TypeMismatch {
                expected: target,
                actual: source,
            };
            context.note_mismatch(expr, mismatch);
            Ok(false)
        }
    }
}

/// Whether an expression is to wait: nothing is known of either type, they are not the same hole,
/// and nothing stands at it.
fn may_wait(context: &InferenceContext, expr: ExprId, actual: &Ty, target: &Ty) -> bool
    ensures { IsTrue result → MayWait context.now expr actual.now target.now }
{
    are_unknown(context, actual, target) && context.is_unasked(expr)
}

/// Whether two types are different holes of which nothing is known.
fn are_unknown(context: &InferenceContext, source: &Ty, target: &Ty) -> bool
    ensures { IsTrue result → (n : _) → IsUnknownPair context.now.goals.table (record { source = source.now; target = target.now; node = n }) }
{
    match (
        context.goals.table.shallow_resolve(source),
        context.goals.table.shallow_resolve(target),
    ) {
        (Ty::Var(source), Ty::Var(target)) => source != target,
        _ => false,
    }
}

/// That the type `target` is asked of an expression of type `actual`.
fn mismatch_of(alloc: Global, actual: &Ty, target: &Ty) -> Result<TypeMismatch, AllocError>
    ensures { IfOk result (λ made. made ≡ mismatch target.now actual.now) }
{
    Ok(TypeMismatch {
        expected: target.dup(alloc)?,
        actual: actual.dup(alloc)?,
    })
}

/// Has an expression wait till one of two holes is known: what `infer/coerce.rs`'s `coerce` does
/// with two type variables.
fn wait(
    alloc: Global,
    context: &mut InferenceContext,
    given: &GivenBody,
    expr: ExprId,
    actual: &Ty,
    target: &Ty,
) -> Result<(), AllocError>
    requires actual { IsFine (scope_in given.now) context.old.goals.table actual.now }
    requires target { IsFine (scope_in given.now) context.old.goals.table target.now }
    ensures waits { IfOk result (λ _. context.new ≡ waiting_at context.old expr actual.now target.now) }
    ensures last { IfOk result (λ _. waiting context.new.goals.table.pairs ≡ waiting context.old.goals.table.pairs ++ (record { source = actual.now; target = target.now; node = node.ExprId expr }) ∷ []) }
{
    let asked = mismatch_of(alloc, actual, target)?;
    context
        .goals
        .table
        .wait(actual, target, ExprOrPatId::ExprId(expr))?;
    context.note_asked(expr, asked);
    Ok(())
}
