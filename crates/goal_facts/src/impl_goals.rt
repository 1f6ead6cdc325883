//! What an impl says as goals over types, with fresh holes for its parameters.
ghost use Rattle.std.specs.Prelude.{◌≡◌, ◌++◌, ◌∷◌, ◌<◌, length, slice_get, Some, map, IfOk};
ghost use Rattle.goal_facts.specs.Words.{RawFacts, RawImpl, Rule, IsTraitKind, IsConcrete, system};
ghost use Rattle.goal_facts.specs.Own.{goal_at, trait_goal, asked_goal, impl_holes, trait_rule, said_trait, impl_rules, holes_from, ImplHasRule, ComesFrom, head_at, AreGoalsOf, AreGoalsAt, AreGoalsIf, IsPlaceBehind, IsPlaceOf};

use crate::arguments::{goal_types, holes, instance, push_instances};
use crate::item_sources::ItemSources;
use hir_facts::{
    Facts, GenericArg, Goal, ImplId, List, RawGoal, RawImpl, RawTraitRef, TraitRef, Ty,
};
use hir_raw::some_sized;
use std::alloc::{AllocError, Global};

/// The rule that an impl implements its trait, over types.
#[derive(Debug, Drop)]
pub struct RuleGoals {
    /// The impl.
    pub source: ImplId,
    /// A fresh hole for each of its parameters.
    pub args: List<GenericArg>,
    /// That its trait is implemented, at these.
    pub head: Goal,
    /// Its predicates, at these.
    pub preds: Vec<Goal>,
}

/// A hole for each parameter, the first of this number.
fn holes_from(alloc: Global, first: usize, count: usize) -> Result<List<GenericArg>, AllocError>
    ensures { IfOk result (λ made. made ≡ holes_from first count) }
{
    let mut made = List::new(alloc);
    for number in 0..count {
        // No table of so many holes is in memory.
        let hole = first.checked_add(number).ok_or(AllocError)?;
        made.push(GenericArg::Ty(Ty::Var(hole)))?;
    }
    Ok(made)
}

/// A written goal.
fn goal_of(
    alloc: Global,
    facts: &Facts,
    args: &List<GenericArg>,
    goal: &RawGoal,
) -> Result<Goal, AllocError>
    ensures { IfOk result (λ made. asked_goal made ≡ goal_at facts.now args.now goal.now) }
{
    let mut own = List::new(alloc);
    push_instances(alloc, facts, args, goal_types(goal), &mut own)?;
    match goal {
        RawGoal::Trait(trait_ref) => Ok(Goal::Trait(TraitRef {
            id: trait_ref.trait_,
            args: own,
        })),
        RawGoal::Projection { alias, args: _, ty } => Ok(Goal::Projection {
            alias: *alias,
            args: own,
            ty: instance(alloc, facts, args, *ty)?,
        }),
    }
}

/// Written goals, at these arguments for the parameters of their item.
pub fn goals_of(
    alloc: Global,
    facts: &Facts,
    args: &List<GenericArg>,
    goals: &[RawGoal],
) -> Result<Vec<Goal>, AllocError>
    ensures { IfOk result (λ made. map asked_goal made.items ≡ map (goal_at facts.now args.now) goals.now) }
{
    let mut made = Vec::new(alloc);
    for goal in goals {
        made.push(goal_of(alloc, facts, args, goal)?)?;
    }
    Ok(made)
}

/// The trait that an impl implements, at its arguments.
fn trait_of(
    alloc: Global,
    facts: &Facts,
    args: &List<GenericArg>,
    item: &RawImpl,
    trait_ref: &RawTraitRef,
) -> Result<TraitRef, AllocError>
    ensures { IfOk result (λ made. trait_goal made ≡ head_at facts.now args.now item.now trait_ref.now) }
{
    let mut own = List::new(alloc);
    own.push(GenericArg::Ty(instance(alloc, facts, args, item.self_)?))?;
    push_instances(alloc, facts, args, trait_ref.args.types(), &mut own)?;
    Ok(TraitRef {
        id: trait_ref.trait_,
        args: own,
    })
}

/// That an impl implements this trait, which is its own, at these arguments for its parameters.
fn impl_goals_at(
    alloc: Global,
    facts: &Facts,
    source: ImplId,
    item: &RawImpl,
    trait_ref: &RawTraitRef,
    args: List<GenericArg>,
) -> Result<RuleGoals, AllocError>
    ensures { IfOk result (λ made. AreGoalsAt facts.now source args item.now trait_ref.now made) }
{
    let head = trait_of(alloc, facts, &args, item, trait_ref)?;
    let preds = goals_of(alloc, facts, &args, item.preds.as_slice())?;
    Ok(RuleGoals {
        source,
        args,
        head: Goal::Trait(head),
        preds,
    })
}

/// The same at fresh holes, the first of this number.
fn goals_for(
    alloc: Global,
    facts: &Facts,
    source: ImplId,
    item: &RawImpl,
    trait_ref: &RawTraitRef,
    first: usize,
) -> Result<RuleGoals, AllocError>
    requires item { slice_get facts.now.impls source.0 ≡ Some item.now }
    requires said { said_trait facts.now item.now.trait_ ≡ Some trait_ref.now }
    ensures { IfOk result (λ made. AreGoalsOf facts.now first (trait_rule facts.now item.now trait_ref.now) made) }
{
    let args = holes_from(alloc, first, item.params.len())?;
    impl_goals_at(alloc, facts, source, item, trait_ref, args)
}

/// That an impl implements its trait.
fn goals_of_impl(
    alloc: Global,
    facts: &Facts,
    source: ImplId,
    first: usize,
) -> Result<RuleGoals, AllocError>
    requires { (r : Rule) × ImplHasRule facts.now source r × IsTraitKind r.head.kind }
    ensures { IfOk result (λ made. (r : Rule) → ImplHasRule facts.now source r → IsTraitKind r.head.kind → AreGoalsOf facts.now first r made) }
{
    let item = facts.impl_(source);
    match &item.trait_ {
        Some(trait_ref) => goals_for(alloc, facts, source, item, trait_ref, first),
        None => unreachable!(),
    }
}

/// How far behind the rules of an impl a place is, where it is not among them.
fn place_behind(facts: &Facts, item: &RawImpl, place: usize) -> Option<usize>
    ensures { IsPlaceBehind (length (impl_rules facts.now item.now)) place result }
{
    let Some(trait_ref) = &item.trait_ else {
        return Some(place);
    };
    if some_sized(facts.raw(), trait_ref.trait_) {
        return Some(place);
    }
    match place.checked_sub(1) {
        Some(rest) => rest.checked_sub(item.types.len()),
        None => None,
    }
}

/// The impl of this number.
fn impl_number(number: usize) -> Result<ImplId, AllocError>
    ensures { IfOk result (λ id. id.0 ≡ number) }
{
    // No list of so many impls is in memory.
    let number = u32::try_from(number).map_err(|_| AllocError)?;
    Ok(ImplId(number))
}

/// The impl that has this place among the rules of all.
fn impl_at(facts: &Facts, place: usize) -> Result<Option<ImplId>, AllocError>
    ensures { IfOk result (λ found. IsPlaceOf facts.now place found) }
{
    let impls = facts.raw().impls.as_slice();
    let mut rest = place;
    for number in 0..impls.len() {
        let Some(behind) = place_behind(facts, &impls[number], rest) else {
            return Ok(Some(impl_number(number)?));
        };
        rest = behind;
    }
    Ok(None)
}

impl<'a> ItemSources<'a> {
    /// The impl that has the rule at this place, or `None` where no impl has it.
    pub fn rule_impl(&self, place: usize) -> Result<Option<ImplId>, AllocError>
        ensures { IfOk result (λ found. (r : Rule) → slice_get (system self.now.sources).rules place ≡ Some r → ComesFrom self.now.facts r found) }
    {
        self.lawful();
        impl_at(self.facts(), place)
    }

    /// The rule at this place, which says that an impl implements its trait, over types. Fresh holes stand
    /// for the parameters of the impl, the first of this number.
    pub fn rule_goals(
        &self,
        alloc: Global,
        place: usize,
        first: usize,
    ) -> Result<RuleGoals, AllocError>
        requires within { place < length (system self.now.sources).rules }
        requires kind { (r : Rule) → slice_get (system self.now.sources).rules place ≡ Some r → IsTraitKind r.head.kind }
        requires concrete { (r : Rule) → slice_get (system self.now.sources).rules place ≡ Some r → IsConcrete r.head.parts }
        ensures { IfOk result (λ made. (r : Rule) → slice_get (system self.now.sources).rules place ≡ Some r → AreGoalsOf self.now.facts first r made) }
    {
        let Some(source) = self.rule_impl(place)? else {
            unreachable!()
        };
        goals_of_impl(alloc, self.facts(), source, first)
    }

    /// A hole for each parameter of an impl.
    pub fn impl_holes(&self, alloc: Global, id: ImplId) -> Result<List<GenericArg>, AllocError>
        requires { id.0 < length self.now.facts.impls }
        ensures { IfOk result (λ made. (p : RawImpl) → slice_get self.now.facts.impls id.0 ≡ Some p → made ≡ impl_holes p) }
    {
        let item = self.facts().impl_(id);
        holes(alloc, item.params.len())
    }

    /// That an impl implements its trait, over types, at these arguments for its parameters; `None` where
    /// it implements none.
    pub fn impl_goals(
        &self,
        alloc: Global,
        id: ImplId,
        args: List<GenericArg>,
    ) -> Result<Option<RuleGoals>, AllocError>
        requires { id.0 < length self.now.facts.impls }
        ensures { IfOk result (λ found. (p : RawImpl) → slice_get self.now.facts.impls id.0 ≡ Some p → AreGoalsIf self.now.facts id args p p.trait_ found) }
    {
        let item = self.facts().impl_(id);
        match &item.trait_ {
            Some(trait_ref) => {
                let made = impl_goals_at(alloc, self.facts(), id, item, trait_ref, args)?;
                Ok(Some(made))
            }
            None => Ok(None),
        }
    }
}
