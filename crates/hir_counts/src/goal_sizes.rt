//! How long the lists of goals, traits and impls may be.
ghost use Rattle.std.specs.Prelude.{◌≡◌, ◌↔◌, ℕ, Some, slice_get, IsTrue, IfSome};
ghost use Rattle.hir_counts.specs.Words.{RawGoal, arg_types, IsShort, GoalIsShort, GoalsAreShort, TraitIsSmall, AliasIsSmall, ImplIsSmall, IsEarly};

use crate::sizes::{is_early, is_short};
use hir_ids::Test;
use hir_raw::{RawAlias, RawFacts, RawGoal, RawImpl, RawLang, RawTrait, RawTraitRef};
use std::alloc::{AllocError, Global};

fn goal_is_short(goal: &RawGoal) -> bool
    ensures { IsTrue result ↔ GoalIsShort goal.now }
{
    match goal {
        RawGoal::Trait(trait_ref) => is_short(trait_ref.args.types()),
        RawGoal::Projection { args, .. } => is_short(args.types()),
    }
}

fn goals_have_few_args(goals: &[RawGoal]) -> bool
    ensures { IsTrue result ↔ ((k : ℕ) (g : RawGoal) → slice_get goals.now k ≡ Some g → GoalIsShort g) }
{
    goals.iter().all(|goal| goal_is_short(goal))
}

/// Whether goals are few, and each has few arguments.
pub fn goals_are_short(goals: &[RawGoal]) -> bool
    ensures { IsTrue result ↔ GoalsAreShort goals.now }
{
    is_short(goals) && goals_have_few_args(goals)
}

/// The lists of a trait are short.
pub struct TraitSizes;

impl Test for TraitSizes {
    type Item = RawTrait;

    ghost listed = { λ raw. raw.traits };

    ghost holds = { λ raw. TraitIsSmall };

    ghost given = { λ raw s. Unit {0} };

    fn test(
        &self,
        _alloc: Global,
        _raw: &RawFacts,
        at: usize,
        item: &RawTrait,
    ) -> Result<bool, AllocError> {
        Ok(
            is_early(at)
                && is_short(item.params.as_slice())
                && goals_are_short(item.preds.as_slice())
                && is_short(item.fns.as_slice())
                && is_short(item.consts.as_slice())
                && is_short(item.types.as_slice()),
        )
    }
}

/// The bounds of an associated type are few.
pub struct AliasSizes;

impl Test for AliasSizes {
    type Item = RawAlias;

    ghost listed = { λ raw. raw.aliases };

    ghost holds = { λ raw. AliasIsSmall };

    ghost given = { λ raw s. Unit {0} };

    fn test(
        &self,
        _alloc: Global,
        _raw: &RawFacts,
        at: usize,
        item: &RawAlias,
    ) -> Result<bool, AllocError> {
        Ok(is_early(at) && goals_are_short(item.bounds.as_slice()))
    }
}

fn maybe_trait_is_short(trait_ref: &Option<RawTraitRef>) -> bool
    ensures { IsTrue result ↔ IfSome trait_ref.now (λ r. IsShort (arg_types r.args)) }
{
    match trait_ref {
        None => true,
        Some(trait_ref) => is_short(trait_ref.args.types()),
    }
}

/// The lists of an impl are short.
pub struct ImplSizes;

impl Test for ImplSizes {
    type Item = RawImpl;

    ghost listed = { λ raw. raw.impls };

    ghost holds = { λ raw. ImplIsSmall };

    ghost given = { λ raw s. Unit {0} };

    fn test(
        &self,
        _alloc: Global,
        _raw: &RawFacts,
        at: usize,
        item: &RawImpl,
    ) -> Result<bool, AllocError> {
        Ok(
            is_early(at)
                && maybe_trait_is_short(&item.trait_)
                && is_short(item.params.as_slice())
                && goals_are_short(item.preds.as_slice())
                && is_short(item.fns.as_slice())
                && is_short(item.consts.as_slice())
                && is_short(item.types.as_slice()),
        )
    }
}

/// There are not too many language items.
pub struct LangEarly;

impl Test for LangEarly {
    type Item = RawLang;

    ghost listed = { λ raw. raw.lang };

    ghost holds = { λ raw i l. IsEarly i };

    ghost given = { λ raw s. Unit {0} };

    fn test(
        &self,
        _alloc: Global,
        _raw: &RawFacts,
        at: usize,
        _item: &RawLang,
    ) -> Result<bool, AllocError> {
        Ok(is_early(at))
    }
}
