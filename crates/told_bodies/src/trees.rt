//! Law 3: nodes that are no tree, bindings that are not bound once, and labels that stand twice.

use serde_json::Value;
use std::alloc::{AllocError, Global};
use std::fmt;
use told_places::look::{list, number, word};
use told_places::mentions::Mention;
use told_places::nodes::{Node, Nodes};
use told_places::place::Place;

/// What a node is a part of.
#[derive(Clone, Copy, PartialEq, Eq)]
pub enum Whole {
    Body,
    Node(Node),
}

impl fmt::Display for Whole {
    fn fmt<W: fmt::Write>(&self, f: &mut fmt::Formatter<W>) -> fmt::Result {
        match self {
            Whole::Body => write!(f, "the body"),
            Whole::Node(node) => write!(f, "{node}"),
        }
    }
}

/// What is wrong with a body's tree.
#[derive(Clone, Copy)]
pub enum WrongTree {
    /// A node is a part of two, or of one twice.
    Shared {
        node: Node,
        first: Whole,
        second: Whole,
    },
    /// A node is a part of nothing.
    Loose(Node),
    /// A node is a part of what the walk does not come to.
    Unreached(Node),
    /// No pattern binds a binding.
    Unbound(usize),
    /// Two patterns bind a binding, and stand in different parts of no or-pattern.
    Rebound {
        binding: usize,
        first: usize,
        second: usize,
    },
    /// A pattern binds what is bound as `self`.
    SelfBound {
        binding: usize,
        pat: usize,
    },
    /// A label stands at two nodes.
    Relabelled {
        label: usize,
        first: Node,
        second: Node,
    },
}

impl fmt::Display for WrongTree {
    fn fmt<W: fmt::Write>(&self, f: &mut fmt::Formatter<W>) -> fmt::Result {
        match self {
            WrongTree::Shared {
                node,
                first,
                second,
            } if first == second => write!(f, "{node} is a part of {first} twice"),
            WrongTree::Shared {
                node,
                first,
                second,
            } => write!(f, "{node} is a part of {first} and of {second}"),
            WrongTree::Loose(node) => write!(f, "{node} is a part of nothing"),
            WrongTree::Unreached(node) => { write!(f, "no way leads from the body to {node}") }
            WrongTree::Unbound(binding) => write!(f, "no pattern binds binding {binding}"),
            WrongTree::Rebound {
                binding,
                first,
                second,
            } => write!(
                f,
                "binding {binding} is bound by pattern {first} and by pattern {second}"
            ),
            WrongTree::SelfBound { binding, pat } => {
                write!(f, "binding {binding} is `self`, and pattern {pat} binds it")
            }
            WrongTree::Relabelled {
                label,
                first,
                second,
            } => write!(f, "label {label} stands at {first} and at {second}"),
        }
    }
}

/// Notes what some nodes are a part of, or finds the first that is a part already.
fn note(
    nodes: Nodes<'_>,
    wholes: &mut Vec<Option<Whole>>,
    parts: &[Node],
    whole: Whole,
) -> Option<WrongTree> {
    for part in parts {
        let position = nodes.position(*part);
        if let Some(Some(first)) = wholes.get(position) {
            return Some(WrongTree::Shared {
                node: *part,
                first: *first,
                second: whole,
            });
        }
        if position < wholes.len() {
            wholes[position] = Some(whole);
        }
    }
    None
}

/// The first node that the walk does not come to, where each is a part of one.
fn unreached(alloc: Global, nodes: Nodes<'_>) -> Result<Option<WrongTree>, AllocError> {
    let mut reached = vec![in alloc; false; nodes.count()]?;
    for step in nodes.walk(alloc)? {
        let position = nodes.position(step.node);
        if position < reached.len() {
            reached[position] = true;
        }
    }
    for (position, is_reached) in reached.iter().enumerate() {
        if !*is_reached {
            return Ok(Some(WrongTree::Unreached(nodes.at(position))));
        }
    }
    Ok(None)
}

fn of_nodes(alloc: Global, nodes: Nodes<'_>) -> Result<Option<WrongTree>, AllocError> {
    let mut wholes = vec![in alloc; None; nodes.count()]?;
    let roots = nodes.roots(alloc)?;
    if let Some(wrong) = note(nodes, &mut wholes, &roots, Whole::Body) {
        return Ok(Some(wrong));
    }
    for position in 0..nodes.count() {
        let node = nodes.at(position);
        let parts = nodes.parts(alloc, node)?;
        if let Some(wrong) = note(nodes, &mut wholes, &parts, Whole::Node(node)) {
            return Ok(Some(wrong));
        }
    }
    for (position, whole) in wholes.iter().enumerate() {
        if whole.is_none() {
            return Ok(Some(WrongTree::Loose(nodes.at(position))));
        }
    }
    unreached(alloc, nodes)
}

/// A node that the walk has come to, and when.
#[derive(Clone, Copy)]
struct Come {
    node: Node,
    time: usize,
}

fn is_or(nodes: Nodes<'_>, node: Node) -> bool {
    match node {
        Node::Expr(_) => false,
        Node::Pat(_) => word(nodes.entry(node)) == "or",
    }
}

/// Whether the node that the walk comes to, in these nodes, stands in another part of an or-pattern than one before.
fn are_alternatives(nodes: Nodes<'_>, open: &[Come], before: Come) -> bool {
    let above = open.partition_point(|whole| whole.time <= before.time);
    match open[..above].last() {
        None => false,
        Some(whole) => is_or(nodes, whole.node),
    }
}

fn bound(nodes: Nodes<'_>, node: Node) -> Option<usize> {
    match (node, nodes.entry(node)) {
        (Node::Pat(_), Some(pat)) if word(Some(pat)) == "bind" => number(pat.get(1usize)),
        _ => None,
    }
}

/// What is wrong where a pattern binds a binding that a pattern before it binds.
fn again(
    nodes: Nodes<'_>,
    open: &[Come],
    binding: usize,
    first: Come,
    second: Node,
) -> Option<WrongTree> {
    match (first.node, second) {
        (Node::Pat(first_pat), Node::Pat(second)) if !are_alternatives(nodes, open, first) => {
            Some(WrongTree::Rebound {
                binding,
                first: first_pat,
                second,
            })
        }
        _ => None,
    }
}

/// The first binding that patterns bind twice in a tree, and which bindings are bound.
fn of_binders(
    alloc: Global,
    nodes: Nodes<'_>,
    binders: &mut Vec<Option<Come>>,
) -> Result<Option<(usize, WrongTree)>, AllocError> {
    let mut open: Vec<Come> = Vec::new(alloc);
    for (time, step) in nodes.walk(alloc)?.iter().enumerate() {
        open.truncate(step.depth.saturating_sub(1));
        let come = Come {
            node: step.node,
            time,
        };
        if let Some(binding) = bound(nodes, step.node)
            && binding < binders.len()
        {
            if let Some(first) = binders[binding]
                && let Some(wrong) = again(nodes, &open, binding, first, step.node)
            {
                return Ok(Some((binding, wrong)));
            }
            binders[binding] = Some(come);
        }
        open.push(come)?;
    }
    Ok(None)
}

/// What is wrong with how a binding is bound, where that is not twice by patterns.
fn of_binding(self_: Option<usize>, binding: usize, binder: Option<Come>) -> Option<WrongTree> {
    match binder {
        None if self_ == Some(binding) => None,
        None => Some(WrongTree::Unbound(binding)),
        Some(
            Come {
                node: Node::Pat(pat),
                ..
            },
        ) if self_ == Some(binding) => Some(WrongTree::SelfBound { binding, pat }),
        Some(_) => None,
    }
}

/// The first binding that is not bound as it has to be.
fn of_bindings(alloc: Global, nodes: Nodes<'_>) -> Result<Option<(usize, WrongTree)>, AllocError> {
    let count = list(nodes.body, "bindings").len();
    let mut binders: Vec<Option<Come>> = vec![in alloc; None; count]?;
    if let Some(found) = of_binders(alloc, nodes, &mut binders)? {
        return Ok(Some(found));
    }
    let self_ = number(nodes.body.get("self"));
    for (binding, binder) in binders.iter().enumerate() {
        if let Some(wrong) = of_binding(self_, binding, *binder) {
            return Ok(Some((binding, wrong)));
        }
    }
    Ok(None)
}

/// The first label that stands at two nodes.
fn of_labels(alloc: Global, nodes: Nodes<'_>) -> Result<Option<(Node, WrongTree)>, AllocError> {
    let count = number(nodes.body.get("labels")).unwrap_or(0);
    let mut firsts: Vec<(usize, Node)> = Vec::new(alloc);
    for position in 0..nodes.count() {
        let node = nodes.at(position);
        for mention in nodes.mentions(alloc, node)? {
            if let Mention::Label(label) = mention
                && label < count
            {
                firsts.push((label, node))?;
            }
        }
    }
    firsts.sort_by_key(|at| at.0)?;
    for pair in firsts.windows(2) {
        if let [(label, first), (again, second)] = pair
            && label == again
        {
            let wrong = WrongTree::Relabelled {
                label: *label,
                first: *first,
                second: *second,
            };
            return Ok(Some((*second, wrong)));
        }
    }
    Ok(None)
}

/// The node or binding of a body that is wrong.
pub fn find(
    alloc: Global,
    place: Place,
    body: &Value,
) -> Result<Option<(Place, WrongTree)>, AllocError> {
    let nodes = Nodes::of(body);
    if let Some(wrong) = of_nodes(alloc, nodes)? {
        let place = match wrong {
            WrongTree::Shared { node, .. } => nodes.place(place, node),
            WrongTree::Loose(node) | WrongTree::Unreached(node) => nodes.place(place, node),
            _ => place,
        };
        return Ok(Some((place, wrong)));
    }
    if let Some((binding, wrong)) = of_bindings(alloc, nodes)? {
        return Ok(Some((place.item("bindings", binding), wrong)));
    }
    let found = of_labels(alloc, nodes)?;
    Ok(found.map(|(node, wrong)| (nodes.place(place, node), wrong)))
}
