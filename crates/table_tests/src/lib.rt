//! Tests of types and of the table of holes, with answers that were worked out by hand.
#![tactic(auto)]

#[cfg(test)]
mod table;
#[cfg(test)]
mod types;
