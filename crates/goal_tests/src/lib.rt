//! Tests of terms and of the goals that were asked, with answers that were worked out by hand.
#![tactic(auto)]

#[cfg(test)]
mod given;
#[cfg(test)]
mod terms;
#[cfg(test)]
mod tree;
#[cfg(test)]
mod undo;
#[cfg(test)]
mod unify;
