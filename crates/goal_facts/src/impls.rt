//! What impls say.
ghost use Rattle.std.specs.Prelude.{◌≡◌, ◌++◌, Some, map, flat_map, IfOk, OnOk};
ghost use Rattle.goal_facts.specs.Words.{Each, term_of, IsHead, HasHeads, asked_of, asked_list, rule_of, rules_of, RuleHasHeads};
ghost use Rattle.goal_facts.specs.Own.{goal_at, impl_holes, impl_rule, impl_args, assoc_rule, rules_for, impl_rules};

use crate::arguments::{args_after, goal_at, holes, type_at};
use goal_search::{Asked, Kind, Rule};
use goal_terms::Term;
use hir_facts::{Facts, GenericArg, List, RawAssocType, RawGoal, RawImpl, RawTraitRef};
use hir_raw::some_sized;
use std::alloc::{AllocError, Global};

fn goals_at(
    alloc: Global,
    facts: &Facts,
    args: &List<GenericArg>,
    goals: &[RawGoal],
) -> Result<Vec<Asked>, AllocError>
    ensures is { IfOk result (λ made. asked_list made.items ≡ map (goal_at facts.now args.now) goals.now) }
    ensures heads { IfOk result (λ made. Each (λ q. HasHeads q.parts) (asked_list made.items)) }
{
    let mut made = Vec::new(alloc);
    for goal in goals {
        made.push(goal_at(alloc, facts, args, goal)?)?;
    }
    Ok(made)
}

/// That the head holds where the predicates of the impl do.
fn impl_rule(
    alloc: Global,
    facts: &Facts,
    holes: &List<GenericArg>,
    item: &RawImpl,
    head: Asked,
) -> Result<Rule, AllocError>
    requires holes { holes.now ≡ impl_holes item.now }
    requires head { HasHeads (term_of head.parts) }
    ensures is { IfOk result (λ made. rule_of made ≡ impl_rule facts.now item.now (asked_of head)) }
    ensures heads { IfOk result (λ made. RuleHasHeads (rule_of made)) }
{
    let preds = goals_at(alloc, facts, holes, item.preds.as_slice())?;
    Ok(Rule { head, preds })
}

fn impl_args(
    alloc: Global,
    facts: &Facts,
    holes: &List<GenericArg>,
    item: &RawImpl,
    trait_ref: &RawTraitRef,
) -> Result<Term, AllocError>
    requires { holes.now ≡ impl_holes item.now }
    ensures is { IfOk result (λ made. term_of made ≡ impl_args facts.now item.now trait_ref.now) }
    ensures head { IfOk result (λ made. IsHead (term_of made)) }
    ensures heads { IfOk result (λ made. HasHeads (term_of made)) }
{
    args_after(alloc, facts, holes, item.self_, trait_ref.args.types())
}

/// What the impl says of an associated type of its trait.
fn assoc_rule(
    alloc: Global,
    facts: &Facts,
    holes: &List<GenericArg>,
    item: &RawImpl,
    trait_ref: &RawTraitRef,
    given: RawAssocType,
) -> Result<Rule, AllocError>
    requires { holes.now ≡ impl_holes item.now }
    ensures is { IfOk result (λ made. rule_of made ≡ assoc_rule facts.now item.now trait_ref.now given) }
    ensures heads { IfOk result (λ made. RuleHasHeads (rule_of made)) }
{
    let args = impl_args(alloc, facts, holes, item, trait_ref)?;
    let ty = type_at(alloc, facts, holes, given.ty)?;
    let head = Asked {
        kind: Kind::Projects(given.alias),
        parts: Term::join(alloc, args, ty)?,
    };
    impl_rule(alloc, facts, holes, item, head)
}

fn push_assoc_rules(
    alloc: Global,
    facts: &Facts,
    holes: &List<GenericArg>,
    item: &RawImpl,
    trait_ref: &RawTraitRef,
    rules: &mut Vec<Rule>,
) -> Result<(), AllocError>
    requires holes { holes.now ≡ impl_holes item.now }
    requires heads { Each RuleHasHeads (rules_of rules.old.items) }
    ensures is { OnOk result (rules_of rules.new.items ≡ rules_of rules.old.items ++ map (assoc_rule facts.now item.now trait_ref.now) item.now.types) }
    ensures heads { OnOk result (Each RuleHasHeads (rules_of rules.new.items)) }
{
    for given in item.types.as_slice() {
        rules.push(assoc_rule(alloc, facts, holes, item, trait_ref, *given)?)?;
    }
    Ok(())
}

/// What an impl of a trait says.
fn push_rules_for(
    alloc: Global,
    facts: &Facts,
    item: &RawImpl,
    trait_ref: &RawTraitRef,
    rules: &mut Vec<Rule>,
) -> Result<(), AllocError>
    requires { Each RuleHasHeads (rules_of rules.old.items) }
    ensures is { OnOk result (rules_of rules.new.items ≡ rules_of rules.old.items ++ rules_for facts.now item.now (Some trait_ref.now)) }
    ensures heads { OnOk result (Each RuleHasHeads (rules_of rules.new.items)) }
{
    let holes = holes(alloc, item.params.len())?;
    let head = Asked {
        kind: Kind::Implements(trait_ref.trait_),
        parts: impl_args(alloc, facts, &holes, item, trait_ref)?,
    };
    rules.push(impl_rule(alloc, facts, &holes, item, head)?)?;
    push_assoc_rules(alloc, facts, &holes, item, trait_ref, rules)
}

/// What an impl says. Which types have a size none says.
fn push_rules_of(
    alloc: Global,
    facts: &Facts,
    item: &RawImpl,
    rules: &mut Vec<Rule>,
) -> Result<(), AllocError>
    requires { Each RuleHasHeads (rules_of rules.old.items) }
    ensures is { OnOk result (rules_of rules.new.items ≡ rules_of rules.old.items ++ impl_rules facts.now item.now) }
    ensures heads { OnOk result (Each RuleHasHeads (rules_of rules.new.items)) }
{
    let Some(trait_ref) = &item.trait_ else {
        return Ok(());
    };
    if some_sized(facts.raw(), trait_ref.trait_) {
        return Ok(());
    }
    push_rules_for(alloc, facts, item, trait_ref, rules)
}

/// What the impls say, each that its trait is implemented, and what each of its associated types is.
pub fn push_impl_rules(
    alloc: Global,
    facts: &Facts,
    impls: &[RawImpl],
    rules: &mut Vec<Rule>,
) -> Result<(), AllocError>
    requires { Each RuleHasHeads (rules_of rules.old.items) }
    ensures is { OnOk result (rules_of rules.new.items ≡ rules_of rules.old.items ++ flat_map (impl_rules facts.now) impls.now) }
    ensures heads { OnOk result (Each RuleHasHeads (rules_of rules.new.items)) }
{
    for item in impls {
        push_rules_of(alloc, facts, item, rules)?;
    }
    Ok(())
}
