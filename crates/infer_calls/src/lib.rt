//! Inference of the types of calls, over whatever types their parts.
#![tactic(auto)]

mod call;
mod inputs;

pub use call::infer_call;
