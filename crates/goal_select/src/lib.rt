//! One goal of inference selected: what it is made equal to, and what its source asks for.
#![tactic(auto)]

mod meeting;
mod parts;
mod select;

pub use parts::part_goals;
pub use select::{Selected, select_goal};
