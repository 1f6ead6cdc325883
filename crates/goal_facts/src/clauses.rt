//! The clauses of an item, as goals of inference.
ghost use Rattle.std.specs.Prelude.{◌≡◌, ◌↔◌, ◌<◌, List, length, slice_get, Some, IsTrue, IfOk, map};
ghost use Rattle.goal_facts.specs.Words.{Ty, GenericArg, Goal, pair, chain, term, arg_term, implements, projects, Rule, SomeOf, term_of, asked_of, rules_of, system};
ghost use Rattle.goal_facts.specs.Own.{asked_goal};

use crate::additions::is_same;
use crate::goals::asked;
use crate::item_sources::ItemSources;
use goal_search::{Asked, Kind};
use goal_terms::{Term, term_args, term_type};
use hir_facts::{Goal, List, TraitId, TraitRef, Ty, TypeAliasId};
use std::alloc::{AllocError, Global};

/// The goal that arguments implement a trait.
fn trait_goal(alloc: Global, id: TraitId, parts: &Term) -> Result<Goal, AllocError>
    ensures { IfOk result (λ made. (xs : List GenericArg) → chain (map arg_term xs) ≡ term_of parts.now → asked_goal made ≡ record { kind = implements id; parts = term_of parts.now }) }
{
    let args = term_args(alloc, parts)?;
    Ok(Goal::Trait(TraitRef { id, args }))
}

/// The goal that an associated type at arguments is a type.
#[tactic(auto, using(crate::specs::Words::term_is))]
fn projection_goal(alloc: Global, alias: TypeAliasId, parts: &Term) -> Result<Goal, AllocError>
    ensures { IfOk result (λ made. (xs : List GenericArg) (t : Ty) → pair (chain (map arg_term xs)) (term t) ≡ term_of parts.now → asked_goal made ≡ record { kind = projects alias; parts = term_of parts.now }) }
{
    match parts {
        Term::Pair(args, ty) => {
            let args = term_args(alloc, args.get())?;
            let ty = term_type(alloc, ty.get())?;
            Ok(Goal::Projection { alias, args, ty })
        }
        Term::Hole(_) | Term::Leaf(_) => Ok(Goal::Projection {
            alias,
            args: List::new(alloc),
            ty: Ty::Error,
        }),
    }
}

/// The goal of inference that asks this, without lifetimes.
pub fn goal_of(alloc: Global, asked: &Asked) -> Result<Goal, AllocError>
    ensures { IfOk result (λ made. (g : Goal) → asked_goal g ≡ asked_of asked.now → asked_goal made ≡ asked_of asked.now) }
{
    match asked.kind {
        Kind::Implements(id) => trait_goal(alloc, id, &asked.parts),
        Kind::Projects(alias) => projection_goal(alloc, alias, &asked.parts),
    }
}

/// Whether the goal is the head of one of the rules.
fn is_head_of(rules: &[goal_search::Rule], goal: &Asked) -> bool
    ensures { IsTrue result ↔ SomeOf (λ r. r.head ≡ asked_of goal.now) (rules_of rules.now) }
{
    for rule in rules {
        if is_same(&rule.head, goal) {
            return true;
        }
    }
    false
}

impl<'a> ItemSources<'a> {
    /// Whether a clause is the goal, but for lifetimes.
    pub fn is_clause(&self, alloc: Global, goal: &Goal) -> Result<bool, AllocError>
        ensures { IfOk result (λ found. IsTrue found ↔ SomeOf (λ r. r.head ≡ asked_goal goal.now) (system self.now.sources).clauses) }
    {
        let goal = asked(alloc, goal)?;
        Ok(is_head_of(self.sources.clauses.as_slice(), &goal))
    }

    /// The clause at this place, as a goal of inference. It holds without more.
    pub fn clause(&self, alloc: Global, place: usize) -> Result<Goal, AllocError>
        requires { place < length (system self.now.sources).clauses }
        ensures { IfOk result (λ goal. (r : Rule) → slice_get (system self.now.sources).clauses place ≡ Some r → asked_goal goal ≡ r.head) }
    {
        let rule = &self.sources.clauses.as_slice()[place];
        let goal = goal_of(alloc, &rule.head)?;
        Ok(goal)
    }
}
