//! What is wrong where a law is broken, found in the text again.

use hir_facts::{FactsList, Law};
use serde_json::Value;
use std::alloc::{AllocError, Global};
use std::fmt;
use told_bodies::{holes, kinds, limits, literals, scopes, sizes, trees};
use told_items::{carried, counts, ids};
use told_places::place::Place;

fn told<W: fmt::Display + Drop>(
    alloc: Global,
    law: Law,
    found: Option<(Place, W)>,
) -> Result<Option<String>, AllocError> {
    match found {
        None => Ok(None),
        Some((place, wrong)) => {
            let number = law.number();
            let text = format!(in alloc; "law {number} is broken at `{place}`: {wrong}")?;
            Ok(Some(text))
        }
    }
}

/// What is wrong at the entry where a law is broken, first of all laws; `None` where it is not found.
pub fn told_breach(
    alloc: Global,
    facts: &Value,
    law: Law,
    list: FactsList,
    index: usize,
) -> Result<Option<String>, AllocError> {
    if law == Law::Carried && list != FactsList::Bodies {
        return told(alloc, law, carried::find(alloc, facts, list, index)?);
    }
    let Some(entry) = facts.get(list.key()).and_then(|list| list.get(index)) else {
        return Ok(None);
    };
    let place = Place::new(list, index);
    match law {
        Law::Carried => told(alloc, law, kinds::find(place, entry)),
        Law::Ids => told(alloc, law, ids::find(alloc, facts, list, index, entry)?),
        Law::Counts => told(alloc, law, counts::find(alloc, facts, list, index, entry)?),
        Law::Trees => told(alloc, law, trees::find(alloc, place, entry)?),
        Law::Scopes => told(alloc, law, scopes::find(alloc, place, entry)?),
        Law::Sizes => told(alloc, law, sizes::find(alloc, facts, list, index, entry)?),
        Law::Limits => told(alloc, law, limits::find(facts, index)),
        Law::Lang => Ok(None),
        Law::Literals => told(alloc, law, literals::find(alloc, list, index, entry)?),
        Law::Holes => told(alloc, law, holes::find(alloc, facts, index)?),
    }
}
