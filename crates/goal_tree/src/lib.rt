//! Goals that were asked at nodes, what each was selected by, and the proofs of those that are done.
#![tactic(auto)]

mod obligation;
mod tree;

pub use obligation::{Obligation, Standing};
pub use tree::GoalTree;
