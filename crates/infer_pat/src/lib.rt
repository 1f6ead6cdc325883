//! Inference of the types of literals, paths and patterns.
#![tactic(auto)]

mod literal;
mod pat;
mod path;

pub use literal::infer_literal;
pub use pat::infer_top_pat;
pub use path::infer_expr_path;
