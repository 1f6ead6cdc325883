//! The nodes that enclose a place of the walk.
ghost use Rattle.std.specs.Prelude.{◌≡◌, ◌<◌, ◌+◌, ℕ, OnOk};
ghost use Rattle.hir_walk.specs.Words.{Node, IsNode, IsSchedule, node_count, position, start};
ghost use Rattle.hir_walk.specs.Enclosed.{AreOpen, AreAround, IsInnermost};

use hir_raw::{RawBody, Schedule};
use std::alloc::{AllocError, Global};

/// A node that was entered and not left.
#[derive(Clone, Copy, Debug)]
pub struct Enclosed {
    /// Its position among the nodes of the body.
    pub node: usize,
    /// Its number.
    pub start: usize,
    /// The number after those of the node and all below it.
    pub end: usize,
}

/// The nodes that were entered and not left, the outermost first.
#[derive(Drop)]
pub struct Enclosing {
    nodes: Vec<Enclosed>,
}

impl Enclosing {
    /// None, before the walk.
    pub fn new(alloc: Global) -> Enclosing
        ensures { (b : RawBody) (s : Schedule) → AreOpen b s 0 result.nodes.items }
    {
        Enclosing {
            nodes: Vec::new(alloc),
        }
    }

    /// Leaves the nodes that end before this number.
    pub fn leave(&mut self, number: usize)
        ensures { (b : RawBody) (s : Schedule) → IsSchedule b s → AreOpen b s number self.old.nodes.items
            → AreAround b s number self.new.nodes.items }
    {
        let count = self.nodes.partition_point(|enclosed| number < enclosed.end);
        self.nodes.truncate(count);
    }

    /// Enters the node at this position.
    pub fn enter(
        &mut self,
        _body: &RawBody,
        schedule: &Schedule,
        node: usize,
    ) -> Result<(), AllocError>
        requires schedule { IsSchedule _body.now schedule.now }
        requires node { node < node_count _body.now }
        ensures { OnOk result ((n : Node) → IsNode _body.now n → position _body.now n ≡ node
            → AreAround _body.now schedule.now (start _body.now schedule.now n) self.old.nodes.items
            → AreOpen _body.now schedule.now (start _body.now schedule.now n + 1) self.new.nodes.items) }
    {
        self.nodes.push(Enclosed {
            node,
            start: schedule.starts.as_slice()[node],
            end: schedule.ends.as_slice()[node],
        })?;
        Ok(())
    }

    /// The innermost that begins at this number or before it, by its position.
    pub fn innermost_from(&self, number: usize) -> Option<usize>
        ensures { (b : RawBody) (s : Schedule) (k : ℕ) → AreAround b s k self.now.nodes.items
            → IsInnermost b s k number result }
    {
        let count = self
            .nodes
            .partition_point(|enclosed| enclosed.start <= number);
        if count == 0 {
            return None;
        }
        Some(self.nodes[count - 1].node)
    }
}
