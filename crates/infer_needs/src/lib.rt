//! What the nodes of a typed body need, predicates of items that paths name, proved or complained of.
#![tactic(auto)]

mod found;
mod left;
mod note;
mod opened;
mod prove;
mod read;
mod readable;
mod say;
mod tell;
mod unknown;
mod written;

pub use prove::{prove_needs, scope_item};
pub use tell::tell_all;
