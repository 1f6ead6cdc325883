//! What is done once a body is typed, before open holes fall back: the types of a plain body are kept, and of
//! others what nodes need is selected and read.
#![tactic(auto)]

mod general;
mod select;

pub use general::keep_general;
pub use select::settle_where_possible;
