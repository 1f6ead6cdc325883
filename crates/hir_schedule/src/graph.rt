//! Numbers for the nodes of a graph in the order of a walk from a root.
ghost use Rattle.std.specs.Prelude.{◌≡◌, ◌<◌, ◌-◌, false, length, replicate, slice_get, IfOk, OnOk, OnSome, MatchOption, MatchBool};
ghost use Rattle.hir_schedule.specs.Own.{kids_of, KidsFit, IsTreeGraph, IsNumbering, visited_by, blank, entered, departed, is_seen, HasRoomFor, MovesOn, MeetsAgain};

use hir_raw::Schedule;
use hir_types::List;
use std::alloc::{AllocError, Global};

/// A walk through a graph, under way.
#[derive(Drop)]
struct Walk {
    /// Which nodes were entered.
    seen: Vec<bool>,
    /// How many of each node's children were entered.
    next: Vec<usize>,
    starts: List<usize>,
    ends: List<usize>,
    depths: List<usize>,
    /// The nodes that were entered and not left, each a child of the one before it.
    stack: Vec<usize>,
    /// How many nodes were entered.
    clock: usize,
}

fn zeros(alloc: Global, count: usize) -> Result<List<usize>, AllocError>
    ensures { IfOk result (λ zs. zs ≡ replicate count 0) }
{
    let zeros = vec![in alloc; 0; count]?;
    Ok(List::from_vec(zeros))
}

/// The child of a node at a position, or `None` past the last.
fn child_at(kids: &List<List<usize>>, node: usize, at: usize) -> Option<usize>
    requires { node < length kids.now }
    ensures value { result ≡ slice_get (kids_of kids.now node) at }
    ensures room { OnSome result (at < usize.MAX) }
{
    let children = kids.as_slice()[node].as_slice();
    if at < children.len() {
        Some(children[at])
    } else {
        None
    }
}

impl Walk {
    fn new(alloc: Global, count: usize) -> Result<Walk, AllocError>
        ensures { IfOk result (λ w. visited_by w ≡ blank count) }
    {
        Ok(Walk {
            seen: vec![in alloc; false; count]?,
            next: vec![in alloc; 0; count]?,
            starts: zeros(alloc, count)?,
            ends: zeros(alloc, count)?,
            depths: zeros(alloc, count)?,
            stack: Vec::new(alloc),
            clock: 0,
        })
    }

    /// Enters a node that was not entered before.
    fn enter(&mut self, node: usize) -> Result<(), AllocError>
        requires ready { HasRoomFor (length self.old.starts) (visited_by self.old) }
        requires node { node < length self.old.starts }
        requires fresh { is_seen (visited_by self.old) node ≡ false }
        ensures { OnOk result (visited_by self.new ≡ entered (visited_by self.old) node) }
    {
        self.seen[node] = true;
        self.starts.set(node, self.clock);
        self.depths.set(node, self.stack.len());
        self.clock += 1;
        self.stack.push(node)?;
        Ok(())
    }

    /// Leaves the node on top.
    fn leave(&mut self, node: usize)
        requires node { node < length self.old.ends }
        ensures { visited_by self.new ≡ departed (visited_by self.old) node }
    {
        self.ends.set(node, self.clock);
        self.stack.pop();
    }

    /// The innermost node that was entered and not left.
    fn top(&self) -> Option<usize>
        ensures { result ≡ slice_get self.now.stack.items (length self.now.stack.items - 1) }
    {
        self.stack.last().copied()
    }

    /// Enters the next child of a node, or leaves it where it has none. The answer is false where
    /// the child was entered before.
    fn step(&mut self, kids: &List<List<usize>>, node: usize) -> Result<bool, AllocError>
        requires fit { KidsFit kids.now }
        requires ready { HasRoomFor (length kids.now) (visited_by self.old) }
        requires node { node < length kids.now }
        ensures { IfOk result (λ is_new. MatchBool is_new
            (MovesOn kids.now (visited_by self.old) (visited_by self.new) node)
            (MeetsAgain kids.now (visited_by self.old) node)) }
    {
        let at = self.next[node];
        let Some(child) = child_at(kids, node, at) else {
            self.leave(node);
            return Ok(true);
        };
        if self.seen[child] {
            return Ok(false);
        }
        self.next[node] = at + 1;
        self.enter(child)?;
        Ok(true)
    }
}

/// Numbers for the nodes of a graph in the order of a walk from its root, or `None` where it is no tree.
///
/// `kids` are each node's children. The walk takes as many steps as there are nodes and children,
/// and needs no more stack for a deep graph.
pub fn number_graph(
    alloc: Global,
    kids: &List<List<usize>>,
    root: usize,
) -> Result<Option<Schedule>, AllocError>
    requires fit { KidsFit kids.now }
    requires root { root < length kids.now }
    ensures { IfOk result (λ found. MatchOption found
        (¬ IsTreeGraph kids.now root)
        (λ schedule. IsNumbering kids.now root schedule)) }
{
    let mut walk = Walk::new(alloc, kids.len())?;
    walk.enter(root)?;
    while let Some(node) = walk.top() {
        let is_new = walk.step(kids, node)?;
        if !is_new {
            return Ok(None);
        }
    }
    if walk.clock != kids.len() {
        return Ok(None);
    }
    Ok(Some(Schedule {
        starts: walk.starts,
        ends: walk.ends,
        depths: walk.depths,
    }))
}
