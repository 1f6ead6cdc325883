//! What follows from goals along supertraits.
ghost use Rattle.std.specs.Prelude.{◌≡◌, ◌<◌, ◌≤◌, ◌↔◌, length, slice_get, Some, option_map, IsTrue, IfOk, IfSome, OnOk};
ghost use Rattle.hir_types.specs.declared.head.Hole.TheVariants as hole_of;
ghost use Rattle.goal_facts.specs.Words.{hole, term_of, HasHeads, kind_of, asked_of, asked_list};
ghost use Rattle.goal_facts.specs.Own.{Adds, SomeSays, Has, AreDistinct, AllHaveHeads, SaysAt, IsSuper, IsClosure, SaysIf, SomeSuper};

use crate::additions::add;
use crate::arguments::{goal_at, holes};
use crate::environment::trait_preds;
use goal_search::{Asked, Kind, field_at, key_of, self_type};
use goal_terms::Term;
use hir_facts::{Facts, GenericArg, GenericDefId, List, RawGoal};
use hir_raw::generic_params;
use hir_types::{Head, Hole};
use std::alloc::{AllocError, Global};

fn is_self(ty: &Term) -> bool
    ensures { IsTrue result ↔ (term_of ty.now ≡ hole (hole_of.Ty 0)) }
{
    match ty {
        Term::Hole(Hole::Ty(number)) => *number == 0,
        Term::Hole(_) | Term::Leaf(_) | Term::Pair(_, _) => false,
    }
}

/// What a predicate of a trait says at arguments of the trait, where it is on `Self`.
fn says_at(
    alloc: Global,
    facts: &Facts,
    holes: &List<GenericArg>,
    args: &Term,
    pred: &RawGoal,
) -> Result<Option<Asked>, AllocError>
    requires args { HasHeads (term_of args.now) }
    ensures is { IfOk result (λ found. SaysIf facts.now holes.now (term_of args.now) pred.now (option_map asked_of found)) }
    ensures heads { IfOk result (λ found. IfSome found (λ d. HasHeads (term_of d.parts))) }
{
    let goal = goal_at(alloc, facts, holes, pred)?;
    let end = Term::Leaf(Head::End);
    if !is_self(self_type(key_of(goal.kind, &goal.parts, &end), &end)) {
        return Ok(None);
    }
    match field_at(alloc, &goal.parts, args)? {
        Some(parts) => Ok(Some(Asked {
            kind: goal.kind,
            parts,
        })),
        None => Ok(None),
    }
}

fn add_said_by(
    alloc: Global,
    facts: &Facts,
    holes: &List<GenericArg>,
    args: &Term,
    pred: &RawGoal,
    goals: &mut Vec<Asked>,
) -> Result<(), AllocError>
    requires { HasHeads (term_of args.now) }
    ensures { OnOk result (Adds (SaysAt facts.now holes.now (term_of args.now) pred.now) (asked_list goals.old.items) (asked_list goals.new.items)) }
{
    match says_at(alloc, facts, holes, args, pred)? {
        Some(found) => add(goals, found),
        None => Ok(()),
    }
}

fn add_said(
    alloc: Global,
    facts: &Facts,
    holes: &List<GenericArg>,
    args: &Term,
    preds: &[RawGoal],
    goals: &mut Vec<Asked>,
) -> Result<(), AllocError>
    requires { HasHeads (term_of args.now) }
    ensures { OnOk result (Adds (SomeSays (λ i g. SaysAt facts.now holes.now (term_of args.now) g) preds.now) (asked_list goals.old.items) (asked_list goals.new.items)) }
{
    for pred in preds {
        add_said_by(alloc, facts, holes, args, pred, goals)?;
    }
    Ok(())
}

/// Adds what follows along one supertrait from a goal of this kind at these arguments.
fn add_supers(
    alloc: Global,
    facts: &Facts,
    kind: Kind,
    args: &Term,
    goals: &mut Vec<Asked>,
) -> Result<(), AllocError>
    requires { HasHeads (term_of args.now) }
    ensures { OnOk result (Adds (IsSuper facts.now (record { kind = kind_of kind; parts = term_of args.now })) (asked_list goals.old.items) (asked_list goals.new.items)) }
{
    match kind {
        Kind::Implements(id) => {
            let raw = facts.raw();
            let holes = holes(alloc, generic_params(raw, GenericDefId::TraitId(id)))?;
            add_said(alloc, facts, &holes, args, trait_preds(raw, id), goals)
        }
        Kind::Projects(_) => Ok(()),
    }
}

/// Adds what follows along one supertrait from the goal at this place.
fn add_supers_at(
    alloc: Global,
    facts: &Facts,
    goals: &mut Vec<Asked>,
    place: usize,
) -> Result<(), AllocError>
    requires place { place < length goals.old.items }
    requires heads { AllHaveHeads (asked_list goals.old.items) }
    ensures { OnOk result ((c : _) → slice_get (asked_list goals.old.items) place ≡ Some c → Adds (IsSuper facts.now c) (asked_list goals.old.items) (asked_list goals.new.items)) }
{
    let clause = &goals.as_slice()[place];
    let kind = clause.kind;
    let args = clause.parts.dup(alloc)?;
    add_supers(alloc, facts, kind, &args, goals)
}

/// Adds what follows along one supertrait from the goals between these places.
fn add_level(
    alloc: Global,
    facts: &Facts,
    goals: &mut Vec<Asked>,
    from: usize,
    to: usize,
) -> Result<(), AllocError>
    requires from { from ≤ to }
    requires to { to ≤ length (asked_list goals.old.items) }
    requires heads { AllHaveHeads (asked_list goals.old.items) }
    ensures { OnOk result (Adds (SomeSuper facts.now from to (asked_list goals.old.items)) (asked_list goals.old.items) (asked_list goals.new.items)) }
{
    for place in from..to {
        add_supers_at(alloc, facts, goals, place)?;
    }
    Ok(())
}

/// The goals, and what follows from them in at most so many steps, each once.
pub fn close(
    alloc: Global,
    facts: &Facts,
    mut goals: Vec<Asked>,
    steps: u32,
) -> Result<Vec<Asked>, AllocError>
    requires once { AreDistinct (asked_list goals.items) }
    requires heads { AllHaveHeads (asked_list goals.items) }
    ensures is { IfOk result (λ made. IsClosure facts.now (Has (asked_list goals.items)) steps (asked_list made.items)) }
    ensures heads { IfOk result (λ made. AllHaveHeads (asked_list made.items)) }
{
    let mut from = 0;
    for _ in 0..steps {
        let to = goals.as_slice().len();
        add_level(alloc, facts, &mut goals, from, to)?;
        from = to;
    }
    Ok(goals)
}
