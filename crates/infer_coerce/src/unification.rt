//! Types made equal, and the pairs of types that wait for it: `infer/unify.rs`.
ghost use Rattle.std.specs.Prelude.{◌≡◌, IfOk, length, true};
ghost use Rattle.infer_coerce.specs.Words.{IsOfBody, IsSound, given_of, scope_in, IsFine, AllFine, AreFinePairs};
ghost use Rattle.infer_coerce.specs.Own.{IsUnifiedIf, NoneIsKnown, UnifiesAll, UnifiesNext, UnifiesKnown, UnifiesEach, Settles};

use hir_facts::Ty;
use infer_ctx::{GivenBody, InferenceContext};
use infer_table::WaitingPair;
use std::alloc::AllocError;

/// Makes two types equal, or changes nothing where no types for holes make them so. Then the
/// pairs are unified that were waiting and have become known, so that of none which still waits a
/// side is known.
pub fn unify(
    context: &mut InferenceContext,
    given: &GivenBody,
    left: &Ty,
    right: &Ty,
) -> Result<bool, AllocError>
    requires of_body { IsOfBody given.now.body.now context.old.result }
    requires sound { IsSound (scope_in given.now) context.old }
    requires left { IsFine (scope_in given.now) context.old.goals.table left.now }
    requires right { IsFine (scope_in given.now) context.old.goals.table right.now }
    ensures unified { IfOk result (λ yes. IsUnifiedIf yes (given_of given.now) left.now right.now context.old context.new) }
    ensures known { IfOk result (λ yes. yes ≡ true → NoneIsKnown context.new) }
{
    if unify_alone(context, given, left, right)? {
        unify_known(context, given)?;
        Ok(true)
    } else {
        Ok(false)
    }
}

/// Makes each of these types equal with its one of the others, where that can be.
pub fn unify_all(
    context: &mut InferenceContext,
    given: &GivenBody,
    tys: &[Ty],
    others: &[Ty],
) -> Result<(), AllocError>
    requires of_body { IsOfBody given.now.body.now context.old.result }
    requires sound { IsSound (scope_in given.now) context.old }
    requires tys { AllFine (scope_in given.now) context.old.goals.table tys.now }
    requires others { AllFine (scope_in given.now) context.old.goals.table others.now }
    requires count { length tys.now ≡ length others.now }
    ensures { IfOk result (λ _. UnifiesAll (given_of given.now) tys.now others.now context.old context.new) }
{
    for i in 0..tys.len() {
        unify(context, given, &tys[i], &others[i])?;
    }
    Ok(())
}

/// Makes two types equal, or changes nothing. Pairs that wait are left alone.
fn unify_alone(
    context: &mut InferenceContext,
    given: &GivenBody,
    left: &Ty,
    right: &Ty,
) -> Result<bool, AllocError>
    requires of_body { IsOfBody given.now.body.now context.old.result }
    requires sound { IsSound (scope_in given.now) context.old }
    requires left { IsFine (scope_in given.now) context.old.goals.table left.now }
    requires right { IsFine (scope_in given.now) context.old.goals.table right.now }
    ensures { IfOk result (λ yes. IsUnifiedIf yes (given_of given.now) left.now right.now context.old context.new) }
{
    if context.goals.table.unify(left, right)? {
        // That some assignment agrees with what is found out now is known of each table.
        context.goals.table.lawful();
        Ok(true)
    } else {
        Ok(false)
    }
}

/// Takes the first pair that waits and of which a side is known off those that wait, and unifies it:
/// its two types are the same from then on, or they differ, which is a mismatch at the
/// expression that waited. Answers whether there was such a pair; where there was none, nothing changes.
fn unify_next(context: &mut InferenceContext, given: &GivenBody) -> Result<bool, AllocError>
    requires of_body { IsOfBody given.now.body.now context.old.result }
    requires sound { IsSound (scope_in given.now) context.old }
    ensures { IfOk result (λ yes. UnifiesNext yes (given_of given.now) context.old context.new) }
{
    match context.goals.table.take_known()? {
        Some(pair) => {
            context.goals.table.unify(&pair.source, &pair.target)?;
            // That some assignment agrees with what is found out now is known of each table.
            context.goals.table.lawful();
            Ok(true)
        }
        None => Ok(false),
    }
}

/// Unifies pairs that wait and of which a side is known, till there is none, also among those that
/// become known on the way.
pub fn unify_known(context: &mut InferenceContext, given: &GivenBody) -> Result<(), AllocError>
    requires of_body { IsOfBody given.now.body.now context.old.result }
    requires sound { IsSound (scope_in given.now) context.old }
    ensures { IfOk result (λ _. UnifiesKnown (given_of given.now) context.old context.new) }
{
    // Each time one pair less waits, and no more wait than ever were made to.
    for _ in 0..context.goals.table.pair_count() {
        if !unify_next(context, given)? {
            return Ok(());
        }
    }
    Ok(())
}

/// Unifies the pairs that still wait once the body is typed, so that each expression which waited
/// is of the type that was asked of it, or is not, whatever its open holes come to.
pub fn unify_unknown(context: &mut InferenceContext, given: &GivenBody) -> Result<(), AllocError>
    requires of_body { IsOfBody given.now.body.now context.old.result }
    requires sound { IsSound (scope_in given.now) context.old }
    ensures { IfOk result (λ _. Settles (given_of given.now) context.old context.new) }
{
    let pairs = context.goals.table.pairs()?;
    unify_each(context, given, pairs.as_slice())?;
    Ok(())
}

/// Unifies pairs of types, where that can be.
fn unify_each(
    context: &mut InferenceContext,
    given: &GivenBody,
    pairs: &[WaitingPair],
) -> Result<(), AllocError>
    requires of_body { IsOfBody given.now.body.now context.old.result }
    requires sound { IsSound (scope_in given.now) context.old }
    requires fine { AreFinePairs (scope_in given.now) context.old.goals.table pairs.now }
    ensures { IfOk result (λ _. UnifiesEach (given_of given.now) pairs.now context.old context.new) }
{
    for pair in pairs {
        unify_alone(context, given, &pair.source, &pair.target)?;
    }
    Ok(())
}
