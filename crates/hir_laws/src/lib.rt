//! The tests of the laws of facts in their order, and the facts that pass.
#![tactic(auto)]

mod body_sizes;
mod checks;
mod facts_error;
mod fields;
mod labels;
mod lang;
mod lawful;
mod limits;
mod literals;
mod or_patterns;
mod scopes;
mod targets;
mod trees;

pub use facts_error::FactsError;
pub use lawful::lawful_facts;
