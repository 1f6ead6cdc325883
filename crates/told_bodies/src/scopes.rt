//! Law 4: locals that name a binding too early.

use serde_json::Value;
use std::alloc::{AllocError, Global};
use std::fmt;
use told_places::look::{list, number, word};
use told_places::mentions::Mention;
use told_places::nodes::{Node, Nodes};
use told_places::place::Place;

/// A binding is named before its pattern.
#[derive(Clone, Copy)]
pub struct Early {
    binding: usize,
    pat: usize,
}

impl fmt::Display for Early {
    fn fmt<W: fmt::Write>(&self, f: &mut fmt::Formatter<W>) -> fmt::Result {
        let Early { binding, pat } = *self;
        write!(
            f,
            "binding {binding} is named before pattern {pat} binds it"
        )
    }
}

/// When the walk comes to each node of a tree.
fn times_of(alloc: Global, nodes: Nodes<'_>) -> Result<Vec<usize>, AllocError> {
    let mut times = vec![in alloc; 0usize; nodes.count()]?;
    for (time, step) in nodes.walk(alloc)?.iter().enumerate() {
        let position = nodes.position(step.node);
        if position < times.len() {
            times[position] = time;
        }
    }
    Ok(times)
}

/// The pattern that binds each binding first on the walk.
fn binders_of(
    alloc: Global,
    nodes: Nodes<'_>,
    times: &[usize],
) -> Result<Vec<Option<usize>>, AllocError> {
    let mut binders: Vec<Option<usize>> = vec![in alloc; None; list(nodes.body, "bindings").len()]?;
    for (at, pat) in nodes.pats.iter().enumerate() {
        if word(Some(pat)) == "bind"
            && let Some(binding) = number(pat.get(1usize))
            && binding < binders.len()
        {
            let is_first = match binders[binding] {
                None => true,
                Some(before) => time_of(nodes, times, at) < time_of(nodes, times, before),
            };
            if is_first {
                binders[binding] = Some(at);
            }
        }
    }
    Ok(binders)
}

/// When the walk comes to a pattern.
fn time_of(nodes: Nodes<'_>, times: &[usize], pat: usize) -> Option<usize> {
    times.get(nodes.position(Node::Pat(pat))).copied()
}

/// What is wrong where a node at a time names a binding.
fn of_local(
    nodes: Nodes<'_>,
    times: &[usize],
    binders: &[Option<usize>],
    named: usize,
    binding: usize,
) -> Option<Early> {
    let pat = (*binders.get(binding)?)?;
    if time_of(nodes, times, pat)? < named || number(nodes.body.get("self")) == Some(binding) {
        None
    } else {
        Some(Early { binding, pat })
    }
}

/// The first node of a body that names a binding too early.
pub fn find(
    alloc: Global,
    place: Place,
    body: &Value,
) -> Result<Option<(Place, Early)>, AllocError> {
    let nodes = Nodes::of(body);
    let times = times_of(alloc, nodes)?;
    let binders = binders_of(alloc, nodes, &times)?;
    for position in 0..nodes.count() {
        let node = nodes.at(position);
        let Some(named) = times.get(position).copied() else {
            continue;
        };
        for mention in nodes.mentions(alloc, node)? {
            if let Mention::Local(binding) = mention
                && let Some(early) = of_local(nodes, &times, &binders, named, binding)
            {
                return Ok(Some((nodes.place(place, node), early)));
            }
        }
    }
    Ok(None)
}
