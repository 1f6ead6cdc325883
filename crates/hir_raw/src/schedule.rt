//! The numbers of the nodes of a body in the order of the walk.
ghost use Rattle.std.specs.Prelude.{◌≡◌, ◌<◌, ◌^◌};
ghost use Rattle.hir_raw.specs.Own.{inner, position, node_count, start, end, IsInBody, IsSchedule};

use crate::raw::RawBody;
use hir_types::{ExprOrPatId, List};

/// Numbers for the nodes of a body in the order of the walk: the body itself first, and a node
/// before its parts. The nodes are the expressions, then the patterns, then the body.
#[derive(Debug, Drop)]
pub struct Schedule {
    /// Each node's number.
    pub starts: List<usize>,
    /// The number after those of the node and all below it.
    pub ends: List<usize>,
    /// How many steps lead to the node from the body.
    pub depths: List<usize>,
}

/// The position of an expression or pattern among the nodes of its body.
pub fn position_of(body: &RawBody, node: ExprOrPatId) -> usize
    requires count { node_count body.now < 2 ^ 64 }
    requires node { IsInBody body.now node }
    ensures { result ≡ position body.now (inner node) }
{
    match node {
        ExprOrPatId::ExprId(expr) => expr.0 as usize,
        ExprOrPatId::PatId(pat) => body.exprs.len() + pat.0 as usize,
    }
}

impl Schedule {
    /// The number of an expression or pattern.
    pub fn start_of(&self, body: &RawBody, node: ExprOrPatId) -> usize
        requires schedule { IsSchedule body.now self.now }
        requires node { IsInBody body.now node }
        ensures { result ≡ start body.now self.now (inner node) }
    {
        self.starts.as_slice()[position_of(body, node)]
    }

    /// The number after those of an expression or pattern and all below it.
    pub fn end_of(&self, body: &RawBody, node: ExprOrPatId) -> usize
        requires schedule { IsSchedule body.now self.now }
        requires node { IsInBody body.now node }
        ensures { result ≡ end body.now self.now (inner node) }
    {
        self.ends.as_slice()[position_of(body, node)]
    }
}
