//! Whether two types could be the same: `infer/unify.rs`, `could_unify`, `could_unify_deeply`.
#![tactic(auto)]

mod known;
mod opening;
mod unification;

pub use unification::{Unification, could_unify, could_unify_deeply, unification_of};
