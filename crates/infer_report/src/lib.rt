//! The report on a table of types, as text.
#![tactic(auto)]

mod goals;
mod report;
mod types;

pub use goals::push_goal;
pub use report::{count_complaints, write_report};
pub use types::push_ty;
