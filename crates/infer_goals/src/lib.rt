//! The goals that inference meets, and their answers.
#![tactic(auto)]

mod inspect;
mod obligations;
mod self_ty;
mod sleepers;
mod table;
mod undo;

pub use goal_facts::Answer;
pub use inspect::{ObligationInspector, ToldList};
pub use obligations::Obligations;
pub use table::GoalTable;
