//! Proofs of goals without holes, as `Yes` answers have them.
#![tactic(auto)]

mod fits;
mod listed;
mod lower;
mod prove;
mod types;

pub use prove::prove_goal;
