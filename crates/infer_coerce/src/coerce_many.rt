//! The common type of several expressions.
ghost use Rattle.std.specs.Prelude.{◌≡◌, ◌<◌, IfOk, length, Some, None};
ghost use Rattle.infer_coerce.specs.Words.{unit, IsOfBody, given_of, scope_in, expected_type, IsSound, IsFine, IsFineExpectation};
ghost use Rattle.infer_coerce.specs.Own.{IsFineCommon, Merges, Completes, common_of};

use crate::coercion::demand_coerce;
use hir_facts::{ExprId, List, Ty};
use infer_ctx::{Expectation, GivenBody, InferenceContext};
use std::alloc::{AllocError, Global};

/// The common type of the expressions one of which gives a node its value, as far as they are typed:
/// `infer/coerce.rs`, `CoerceMany`.
#[derive(Drop)]
pub enum CoerceMany {
    /// None is typed yet, and nothing is expected of them.
    Nothing,
    /// They have this type, or it is expected of them.
    Is(Ty),
    /// One of them could not be coerced to the type of those before it.
    Unknown,
}

impl CoerceMany {
    /// None is typed yet. Where nothing is expected, the first one's type is the common type.
    pub fn new(alloc: Global, expected: Expectation) -> Result<CoerceMany, AllocError>
        ensures { IfOk result (λ made. made ≡ common_of (expected_type expected.entry)) }
    {
        match expected.only_has_type() {
            Some(ty) => Ok(CoerceMany::Is(ty.dup(alloc)?)),
            None => Ok(CoerceMany::Nothing),
        }
    }

    /// Takes in one expression more, of the type `ty`, which is coerced to the common type.
    pub fn coerce(
        &mut self,
        alloc: Global,
        context: &mut InferenceContext,
        given: &GivenBody,
        expr: ExprId,
        ty: Ty,
    ) -> Result<(), AllocError>
        requires within { expr.0 < length given.now.body.now.exprs }
        requires of_body { IsOfBody given.now.body.now context.old.result }
        requires sound { IsSound (scope_in given.now) context.old }
        requires ty { IsFine (scope_in given.now) context.old.goals.table ty }
        requires common { IsFineCommon (scope_in given.now) context.old.goals.table self.old }
        ensures { IfOk result (λ _. Merges (given_of given.now) expr ty self.old self.new context.old context.new) }
    {
        match self {
            CoerceMany::Nothing => {
                *self = CoerceMany::Is(ty);
                Ok(())
            }
            CoerceMany::Is(common) => {
                if demand_coerce(alloc, context, given, expr, &ty, common)? {
                    return Ok(());
                }
                *self = CoerceMany::Unknown;
                Ok(())
            }
            CoerceMany::Unknown => Ok(()),
        }
    }

    /// Takes in `()`, as the type of a node that may end without a value.
    pub fn coerce_forced_unit(
        &mut self,
        alloc: Global,
        context: &mut InferenceContext,
        given: &GivenBody,
        expr: ExprId,
    ) -> Result<(), AllocError>
        requires within { expr.0 < length given.now.body.now.exprs }
        requires of_body { IsOfBody given.now.body.now context.old.result }
        requires sound { IsSound (scope_in given.now) context.old }
        requires common { IsFineCommon (scope_in given.now) context.old.goals.table self.old }
        ensures { IfOk result (λ _. Merges (given_of given.now) expr unit self.old self.new context.old context.new) }
    {
        let unit = Ty::Tuple(List::new(alloc));
        self.coerce(alloc, context, given, expr, unit)
    }

    /// The common type. Where one could not be coerced it is what is expected of them, to which the
    /// node is coerced in any case, else a new hole.
    pub fn complete(
        self,
        alloc: Global,
        context: &mut InferenceContext,
        given: &GivenBody,
        expected: Expectation,
    ) -> Result<Ty, AllocError>
        requires sound { IsSound (scope_in given.now) context.old }
        requires common { IsFineCommon (scope_in given.now) context.old.goals.table self }
        requires expected { IsFineExpectation (scope_in given.now) context.old.goals.table (expected_type expected) }
        ensures { IfOk result (λ ty. Completes (scope_in given.now) (expected_type expected.entry) self ty context.old context.new) }
    {
        match self {
            CoerceMany::Is(ty) => Ok(ty),
            CoerceMany::Nothing | CoerceMany::Unknown => match expected.only_has_type() {
                Some(ty) => ty.dup(alloc),
                None => {
                    let ty = context.goals.table.next_ty_var()?;
                    Ok(ty)
                }
            },
        }
    }
}
