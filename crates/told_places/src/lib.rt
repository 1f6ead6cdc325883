//! Places in a text of facts, in words, and the parts of such a text looked at again.
#![tactic(auto)]

pub mod look;
pub mod mentions;
pub mod nodes;
pub mod place;
