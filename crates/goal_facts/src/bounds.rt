//! The bounds that are listed at associated types.
ghost use Rattle.std.specs.Prelude.{◌≡◌, ◌↔◌, [], option_map, IsTrue, IfOk, IfSome, OnOk, map};
ghost use Rattle.goal_facts.specs.Words.{chain, pair, type_part, arg_term, alias_at, staying, term_of, IsHead, HasHeads, asked_of, asked_list};
ghost use Rattle.goal_facts.specs.Own.{type_at, args_at, Adds, SomeSays, BoundSays, IsListed, BoundSaysIf};

use crate::additions::add;
use crate::arguments::{args_at, goal_types, goal_with, holes, type_at};
use goal_search::Asked;
use goal_terms::{Term, args_term, staying_term};
use hir_facts::{Facts, GenericArg, GenericDefId, List, RawGoal, TypeAliasId, TypeRefId};
use hir_raw::generic_params;
use hir_types::Head;
use std::alloc::{AllocError, Global};

/// Whether a written type is the associated type itself, at its trait's parameters.
fn is_itself(
    alloc: Global,
    facts: &Facts,
    alias: TypeAliasId,
    args: &List<GenericArg>,
    ty: TypeRefId,
) -> Result<bool, AllocError>
    ensures { IfOk result (λ yes. IsTrue yes ↔ (type_at facts.now args.now ty ≡ alias_at alias (chain (map arg_term args.now)))) }
{
    let ty = type_at(alloc, facts, args, ty)?;
    let own = args_term(alloc, args)?;
    let own = Term::join(alloc, Term::Leaf(Head::Projection(alias)), own)?;
    Ok(ty.is_same(&own))
}

/// A bound's arguments, with the alias as one that was read and stays in the place of the first.
fn staying_args(
    alloc: Global,
    facts: &Facts,
    alias: TypeAliasId,
    args: &List<GenericArg>,
    rest: &[TypeRefId],
) -> Result<Term, AllocError>
    ensures is { IfOk result (λ made. term_of made ≡ pair (type_part (staying alias (chain (map arg_term args.now)))) (args_at facts.now args.now rest.now)) }
    ensures head { IfOk result (λ made. IsHead (term_of made)) }
    ensures heads { IfOk result (λ made. HasHeads (term_of made)) }
{
    let own = args_term(alloc, args)?;
    let own = staying_term(alloc, alias, &own)?;
    let first = Term::join(alloc, Term::Leaf(Head::TypePart), own)?;
    let rest = args_at(alloc, facts, args, rest)?;
    Term::join(alloc, first, rest)
}

/// What a bound says of the alias at which it is listed.
fn bound_says(
    alloc: Global,
    facts: &Facts,
    alias: TypeAliasId,
    args: &List<GenericArg>,
    bound: &RawGoal,
) -> Result<Option<Asked>, AllocError>
    ensures is { IfOk result (λ found. BoundSaysIf facts.now alias args.now bound.now (option_map asked_of found)) }
    ensures heads { IfOk result (λ found. IfSome found (λ d. HasHeads (term_of d.parts))) }
{
    let Some((first, rest)) = goal_types(bound).split_first() else {
        return Ok(None);
    };
    if !is_itself(alloc, facts, alias, args, *first)? {
        return Ok(None);
    }
    let parts = staying_args(alloc, facts, alias, args, rest)?;
    Ok(Some(goal_with(alloc, facts, args, bound, parts)?))
}

fn add_bound(
    alloc: Global,
    facts: &Facts,
    alias: TypeAliasId,
    args: &List<GenericArg>,
    bound: &RawGoal,
    made: &mut Vec<Asked>,
) -> Result<(), AllocError>
    ensures { OnOk result (Adds (BoundSays facts.now alias args.now bound.now) (asked_list made.old.items) (asked_list made.new.items)) }
{
    match bound_says(alloc, facts, alias, args, bound)? {
        Some(found) => add(made, found),
        None => Ok(()),
    }
}

fn add_bounds(
    alloc: Global,
    facts: &Facts,
    alias: TypeAliasId,
    args: &List<GenericArg>,
    bounds: &[RawGoal],
    made: &mut Vec<Asked>,
) -> Result<(), AllocError>
    ensures { OnOk result (Adds (SomeSays (λ i g. BoundSays facts.now alias args.now g) bounds.now) (asked_list made.old.items) (asked_list made.new.items)) }
{
    for bound in bounds {
        add_bound(alloc, facts, alias, args, bound, made)?;
    }
    Ok(())
}

/// What the bounds say of the associated types at which they are listed.
pub fn listed(alloc: Global, facts: &Facts) -> Result<Vec<Asked>, AllocError>
    ensures { IfOk result (λ made. Adds (IsListed facts.now) [] (asked_list made.items)) }
{
    let raw = facts.raw();
    let aliases = raw.aliases.as_slice();
    let mut made = Vec::new(alloc);
    for place in 0..aliases.len() {
        let alias = &aliases[place];
        // No list of so many associated types is in memory.
        let number = u32::try_from(place).map_err(|_| AllocError)?;
        let args = holes(
            alloc,
            generic_params(raw, GenericDefId::TraitId(alias.trait_)),
        )?;
        let bounds = alias.bounds.as_slice();
        add_bounds(alloc, facts, TypeAliasId(number), &args, bounds, &mut made)?;
    }
    Ok(made)
}
