//! Law 6: limits that are not in their ranges.

use hir_facts::FactsList;
use serde_json::Value;
use std::fmt;
use told_places::look::{list, number};
use told_places::place::Place;

/// A limit that is not in its range.
#[derive(Clone, Copy)]
pub struct OutOfRange {
    limit: usize,
    name: &'static str,
    most: usize,
}

impl fmt::Display for OutOfRange {
    fn fmt<W: fmt::Write>(&self, f: &mut fmt::Formatter<W>) -> fmt::Result {
        let OutOfRange { limit, name, most } = *self;
        write!(
            f,
            "the limit of {name} is {limit}, and 1 to {most} is allowed"
        )
    }
}

/// The limit with this index.
pub fn find(facts: &Value, index: usize) -> Option<(Place, OutOfRange)> {
    let limit = number(list(facts, "limits").get(index))?;
    let (name, most) = match index {
        0 => ("goal depth", 32),
        1 => ("goal steps", 65_536),
        2 => ("dereferences", 32),
        _ => ("struct tails", 32),
    };
    let place = Place::new(FactsList::Limits, index);
    Some((place, OutOfRange { limit, name, most }))
}
