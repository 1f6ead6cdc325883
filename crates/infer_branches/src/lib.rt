//! Inference of the types of `if` and `match`, over whatever types their parts.
#![tactic(auto)]

mod branch;

pub use branch::{infer_if, infer_match};
