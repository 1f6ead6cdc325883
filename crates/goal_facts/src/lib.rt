//! What goals are answered by, from the facts.
#![tactic(auto)]

mod additions;
mod arguments;
mod bounds;
mod clauses;
mod closure;
mod environment;
mod goals;
mod impl_goals;
mod impls;
mod item_sources;
mod proof;
mod reading;
mod sources;

pub use additions::is_same;
pub use arguments::push_instances;
pub use clauses::goal_of;
pub use goal_search::{Answer, Choice};
pub use goals::asked;
pub use hir_facts::{
    AdtId, ExprOrPatId, Facts, GenericArg, GenericDefId, Goal, List, TraitId, TraitRef, Ty,
};
pub use impl_goals::{RuleGoals, goals_of};
pub use item_sources::ItemSources;
pub use proof::{Proof, ProofSource};
