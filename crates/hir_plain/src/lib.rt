//! How plain written types, adts and functions of lawful facts are found.
#![tactic(auto)]

mod plain;
mod spread;

pub use plain::plain_marks;
