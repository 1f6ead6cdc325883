//! The nodes of a body one after another in the order of the walk, and those that enclose them.
#![tactic(auto)]

mod enclosing;
mod order;

pub use enclosing::Enclosing;
pub use order::nodes_in_order;
