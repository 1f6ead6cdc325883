//! The terms over which trait goals are searched, and what two of them have in common.
#![tactic(auto)]

mod binding;
mod common;
mod conversions;
mod equate;
mod levels;
mod matching;
mod opening;
mod same;
mod term;
mod types;

pub use binding::{Binding, filled, find, stands_in};
pub use common::find_common;
pub use conversions::{args_term, type_term};
pub use equate::{MOST_DEPTH, make_equal};
pub use matching::find_match;
pub use same::{can_be_itself, can_be_same, staying_term};
pub use term::{Role, Term};
pub use types::{is_concrete, push_holes, term_args, term_type};
