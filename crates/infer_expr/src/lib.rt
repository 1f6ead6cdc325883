//! Inference of the types of a body: the walk over its expressions, which ties the families of their
//! kinds together.
#![tactic(auto)]

mod body;
mod expr;
mod kind;
mod query;

pub use infer_goals::{ObligationInspector, ToldList};
pub use query::infer_query_with_inspect;
