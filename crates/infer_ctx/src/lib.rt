//! What inference of a body has found out so far, what it expects, and what it reads.
#![tactic(auto)]

mod context;
mod expectation;
mod given;
mod resolve_all;

pub use context::{InferenceContext, put};
pub use expectation::Expectation;
pub use given::{CallableSig, GivenBody, first_args};
