//! The table that inference fills.
#![tactic(auto)]

mod diagnostics;
mod gaps;
mod hand;
mod made;
mod modes;
mod needed;
mod result;
mod stable;
mod unknown;

pub use diagnostics::InferenceDiagnostic;
pub use gaps::Gap;
pub use goal_facts::{Proof, ProofSource};
pub use hand::is_in_hand;
pub use hir_types::Mutability;
pub use modes::BindingMode;
pub use needed::{callee_needs, expr_id, needed_goals, pat_id, pat_needs};
pub use result::{General, InferenceResult, Seen, TypeMismatch};
pub use stable::rules_are_stable;
pub use unknown::references_error;
