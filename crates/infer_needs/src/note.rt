//! What associated types are by goals that have a proof.
ghost use Rattle.std.specs.Prelude.{◌↔◌, IsTrue, IfOk, OnOk, ◌≡◌};
ghost use Rattle.infer_needs.specs.Words.{term, answers, system, asked_goal, IsAboutAlias, stays_at, GoalReads};
ghost use Rattle.infer_needs.specs.Own.{IsProvable, HasProofOf, IsListedNow, Notes, AddsProofOf};

use crate::found::Found;
use crate::read::read_goal;
use crate::say::say;
use crate::unknown::holds_unknown;
use goal_facts::{ItemSources, Proof, asked, is_same};
use goal_prove::prove_goal;
use goal_terms::{args_term, staying_term, type_term};
use hir_facts::{ExprOrPatId, GenericArg, Goal, List, Ty, TypeAliasId};
use infer_result::Gap;
use std::alloc::{AllocError, Global};

/// Whether the two types are the same but for lifetimes.
fn is_same_ty(alloc: Global, left: &Ty, right: &Ty) -> Result<bool, AllocError>
    ensures { IfOk result (λ is. IsTrue is ↔ (term left.now ≡ term right.now)) }
{
    let left = type_term(alloc, left)?;
    let right = type_term(alloc, right)?;
    Ok(left.is_same(&right))
}

/// Lists an associated type with what it is, or says that it was found to be another type.
fn list(
    alloc: Global,
    alias: Ty,
    ty: Ty,
    node: ExprOrPatId,
    found: &mut Found,
    gaps: &mut List<Gap>,
) -> Result<(), AllocError>
    ensures { OnOk result (IsListedNow node alias ty found.old found.new gaps.old gaps.new) }
{
    let Some(first) = found.find(&alias) else {
        return found.add(alloc, alias, ty);
    };
    if is_same_ty(alloc, first, &ty)? {
        return Ok(());
    }
    let first = first.dup(alloc)?;
    let clash = Gap::Clash {
        node,
        alias,
        first,
        second: ty,
    };
    say(alloc, clash, gaps)
}

/// Whether the type is the associated type itself, which stays.
fn is_itself(
    alloc: Global,
    alias: TypeAliasId,
    args: &List<GenericArg>,
    ty: &Ty,
) -> Result<bool, AllocError>
    ensures { IfOk result (λ is. IsTrue is ↔ (term ty.now ≡ stays_at alias args.now)) }
{
    let args = args_term(alloc, args)?;
    let itself = staying_term(alloc, alias, &args)?;
    let ty = type_term(alloc, ty)?;
    Ok(ty.is_same(&itself))
}

/// Whether a goal asks an associated type to be another type than this itself, and `{unknown}` doesn't stand
/// in it.
fn is_about_alias(alloc: Global, goal: &Goal) -> Result<bool, AllocError>
    ensures { IfOk result (λ is. IsTrue is ↔ IsAboutAlias (asked_goal goal.now)) }
{
    match goal {
        Goal::Trait(_trait_ref) => Ok(false),
        Goal::Projection { alias, args, ty } => {
            if is_itself(alloc, *alias, args, ty)? {
                return Ok(false);
            }
            let unknown = holds_unknown(alloc, goal)?;
            Ok(!unknown)
        }
    }
}

/// Adds a proof of what a goal that has one reads as, where this is another goal.
fn prove_read(
    alloc: Global,
    sources: &ItemSources<'_>,
    goal: &Goal,
    read: &Goal,
    proofs: &mut Vec<Proof>,
) -> Result<(), AllocError>
    requires provable { IsProvable (asked_goal read.now) }
    requires yes { (answers (system sources.now.sources) sources.now.facts.limits.goal_depth).Yes (asked_goal read.now) }
    requires has { HasProofOf proofs.old.items (asked_goal goal.now) }
    requires reads { GoalReads (system sources.now.sources) sources.now.facts.limits.goal_depth (asked_goal goal.now) (asked_goal read.now) }
    requires about { IsAboutAlias (asked_goal read.now) }
    ensures { OnOk result (AddsProofOf sources.now.facts sources.now.item (system sources.now.sources) (asked_goal goal.now) (asked_goal read.now) proofs.old.items proofs.new.items) }
{
    let asks = asked(alloc, goal)?;
    let reads = asked(alloc, read)?;
    if is_same(&asks, &reads) {
        return Ok(());
    }
    let depth = sources.facts().raw().limits.goal_depth;
    prove_goal(alloc, sources, read, depth, proofs)?;
    Ok(())
}

/// Takes note of what a goal about an associated type says of it.
fn note_read(
    alloc: Global,
    sources: &ItemSources<'_>,
    goal: &Goal,
    node: ExprOrPatId,
    proofs: &mut Vec<Proof>,
    found: &mut Found,
    gaps: &mut List<Gap>,
) -> Result<(), AllocError>
    requires provable { IsProvable (asked_goal goal.now) }
    requires yes { (answers (system sources.now.sources) sources.now.facts.limits.goal_depth).Yes (asked_goal goal.now) }
    requires has { HasProofOf proofs.old.items (asked_goal goal.now) }
    ensures { OnOk result (Notes sources.now.facts sources.now.item (system sources.now.sources) node (asked_goal goal.now) proofs.old.items proofs.new.items found.old found.new gaps.old gaps.new) }
{
    let Some(read) = read_goal(alloc, sources, goal)? else {
        return Ok(());
    };
    if !is_about_alias(alloc, &read)? {
        return Ok(());
    }
    prove_read(alloc, sources, goal, &read, proofs)?;
    match read {
        Goal::Trait(_trait_ref) => Ok(()),
        Goal::Projection { alias, args, ty } => {
            list(alloc, Ty::Projection(alias, args), ty, node, found, gaps)
        }
    }
}

/// Takes note of what a goal that has a proof says of an associated type once it is read, where this is another
/// type than the associated type itself, and `{unknown}` stands neither in the goal nor in what is read.
pub fn note(
    alloc: Global,
    sources: &ItemSources<'_>,
    goal: &Goal,
    node: ExprOrPatId,
    proofs: &mut Vec<Proof>,
    found: &mut Found,
    gaps: &mut List<Gap>,
) -> Result<(), AllocError>
    requires provable { IsProvable (asked_goal goal.now) }
    requires yes { (answers (system sources.now.sources) sources.now.facts.limits.goal_depth).Yes (asked_goal goal.now) }
    requires has { HasProofOf proofs.old.items (asked_goal goal.now) }
    ensures { OnOk result (Notes sources.now.facts sources.now.item (system sources.now.sources) node (asked_goal goal.now) proofs.old.items proofs.new.items found.old found.new gaps.old gaps.new) }
{
    match goal {
        Goal::Trait(_trait_ref) => Ok(()),
        Goal::Projection { .. } => {
            if holds_unknown(alloc, goal)? {
                return Ok(());
            }
            note_read(alloc, sources, goal, node, proofs, found, gaps)
        }
    }
}
