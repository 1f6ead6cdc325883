//! How the nodes of a body are numbered in the order of the walk.
#![tactic(auto)]

mod graph;
mod later_parts;
mod parts;
mod schedule;

pub use parts::{nodes_of_body, nodes_of_expr, nodes_of_pat};
pub use schedule::{is_low, schedule_of};
