//! What is wrong where a body has another shape, is not carried yet, or one of the laws from the fourth on is broken: trees and scopes of bodies, sizes,
//! limits, literals and holes.
#![tactic(auto)]

pub mod holes;
pub mod kinds;
pub mod limits;
pub mod literals;
pub mod scopes;
pub mod shapes;
pub mod sizes;
pub mod trees;
