//! Inference of the types of blocks and statements, over whatever types their parts.
#![tactic(auto)]

mod block;
mod body_ty;
mod stmt;

pub use block::infer_block;
