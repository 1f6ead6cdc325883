//! What an item states of its parameters.
ghost use Rattle.std.specs.Prelude.{◌≡◌, [], IfOk, OnOk};
ghost use Rattle.goal_facts.specs.Words.{term_of, HasHeads, asked_of, asked_list};
ghost use Rattle.goal_facts.specs.Own.{goal_at, own_params, Adds, SomeSays, trait_preds, env_trait, preds_of_trait, env_preds, own_clause, IsOwn, IsStated};

use crate::additions::add;
use crate::arguments::{goal_at, own_params};
use goal_search::{Asked, Kind};
use goal_terms::args_term;
use hir_facts::{Facts, GenericArg, GenericDefId, List, RawFacts, RawGoal, TraitId};
use hir_raw::generic_params;
use std::alloc::{AllocError, Global};

/// The predicates of a trait.
pub fn trait_preds(raw: &RawFacts, id: TraitId) -> &[RawGoal]
    ensures { result.now ≡ trait_preds raw.now id }
{
    match raw.traits.get(id.0 as usize) {
        Some(item) => item.preds.as_slice(),
        None => &[],
    }
}

fn env_trait(raw: &RawFacts, item: GenericDefId) -> Option<TraitId>
    ensures { result ≡ env_trait raw.now item }
{
    match item {
        GenericDefId::TraitId(id) => Some(id),
        GenericDefId::TypeAliasId(alias) => match raw.aliases.get(alias.0 as usize) {
            Some(alias) => Some(alias.trait_),
            None => None,
        },
        GenericDefId::AdtId(_) | GenericDefId::FunctionId(_) | GenericDefId::ImplId(_) => None,
        GenericDefId::ConstId(_) | GenericDefId::StaticId(_) => None,
    }
}

fn preds_of_trait(raw: &RawFacts, id: Option<TraitId>) -> &[RawGoal]
    ensures { result.now ≡ preds_of_trait raw.now id }
{
    match id {
        Some(id) => trait_preds(raw, id),
        None => &[],
    }
}

/// The predicates of an item; those of an associated type are its trait's.
fn env_preds(raw: &RawFacts, item: GenericDefId) -> &[RawGoal]
    ensures { result.now ≡ env_preds raw.now item }
{
    match item {
        GenericDefId::AdtId(adt) => match raw.adts.get(adt.0 as usize) {
            Some(adt) => adt.preds.as_slice(),
            None => &[],
        },
        GenericDefId::FunctionId(function) => match raw.fns.get(function.0 as usize) {
            Some(function) => function.preds.as_slice(),
            None => &[],
        },
        GenericDefId::ImplId(id) => match raw.impls.get(id.0 as usize) {
            Some(item) => item.preds.as_slice(),
            None => &[],
        },
        GenericDefId::TraitId(_)
        | GenericDefId::TypeAliasId(_)
        | GenericDefId::ConstId(_)
        | GenericDefId::StaticId(_) => preds_of_trait(raw, env_trait(raw, item)),
    }
}

fn own_clause(
    alloc: Global,
    args: &List<GenericArg>,
    id: TraitId,
    count: usize,
) -> Result<Asked, AllocError>
    requires { args.now ≡ own_params count }
    ensures is { IfOk result (λ made. asked_of made ≡ own_clause count id) }
    ensures heads { IfOk result (λ made. HasHeads (term_of made.parts)) }
{
    Ok(Asked {
        kind: Kind::Implements(id),
        parts: args_term(alloc, args)?,
    })
}

/// Adds that `Self` implements the trait, within one.
fn add_own(
    alloc: Global,
    raw: &RawFacts,
    args: &List<GenericArg>,
    item: GenericDefId,
    count: usize,
    made: &mut Vec<Asked>,
) -> Result<(), AllocError>
    requires { args.now ≡ own_params count }
    ensures { OnOk result (Adds (IsOwn raw.now count item) (asked_list made.old.items) (asked_list made.new.items)) }
{
    match env_trait(raw, item) {
        Some(id) => add(made, own_clause(alloc, args, id, count)?),
        None => Ok(()),
    }
}

fn add_goals(
    alloc: Global,
    facts: &Facts,
    args: &List<GenericArg>,
    goals: &[RawGoal],
    made: &mut Vec<Asked>,
) -> Result<(), AllocError>
    ensures { OnOk result (Adds (SomeSays (λ i g d. d ≡ goal_at facts.now args.now g) goals.now) (asked_list made.old.items) (asked_list made.new.items)) }
{
    for goal in goals {
        add(made, goal_at(alloc, facts, args, goal)?)?;
    }
    Ok(())
}

/// What an item states: its predicates, and within a trait that `Self` implements it.
pub fn stated(alloc: Global, facts: &Facts, item: GenericDefId) -> Result<Vec<Asked>, AllocError>
    ensures { IfOk result (λ made. Adds (IsStated facts.now item) [] (asked_list made.items)) }
{
    let raw = facts.raw();
    let count = generic_params(raw, item);
    let args = own_params(alloc, count)?;
    let mut made = Vec::new(alloc);
    add_own(alloc, raw, &args, item, count, &mut made)?;
    add_goals(alloc, facts, &args, env_preds(raw, item), &mut made)?;
    Ok(made)
}
