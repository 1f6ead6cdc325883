//! Inference of the types of tuples, over whatever types their parts.
#![tactic(auto)]

mod tuple;

pub use tuple::infer_tuple;
