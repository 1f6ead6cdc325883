//! The order in which the walk comes to the nodes of a body.
ghost use Rattle.std.specs.Prelude.{◌≡◌, ◌<◌, ◌^◌, ◌++◌, ◌↔◌, ℕ, map, slice_get, slice_index, EachIndex, ◌≤◌, Some, IfOk, IsTrue, OnOk, MatchOption};
ghost use Rattle.hir_schedule.specs.Words.{node_count, expr_parts, pat_parts, IsInBody, PartsFit, IsLow, IsSchedule, AreDepths, ExprOrPatId, nodes};
ghost use Rattle.hir_raw.specs.Order.{IsTree};
ghost use Rattle.hir_schedule.specs.Own.{node_lists, positions, graph_of};

use crate::graph::number_graph;
use crate::parts::{nodes_of_body, nodes_of_expr, nodes_of_pat};
use hir_raw::{RawBody, RawExpr, RawPat, Schedule, position_of};
use hir_types::{ExprOrPatId, List};
use std::alloc::{AllocError, Global};

fn push_expr_lists(
    alloc: Global,
    lists: &mut List<List<ExprOrPatId>>,
    body: &RawBody,
    exprs: &[RawExpr],
) -> Result<(), AllocError>
    ensures { OnOk result (lists.new ≡ lists.old ++ map (λ e. nodes (expr_parts body.now e)) exprs.now) }
{
    for expr in exprs {
        let nodes = nodes_of_expr(alloc, body, expr)?;
        lists.push(List::from_vec(nodes))?;
    }
    Ok(())
}

fn push_pat_lists(
    alloc: Global,
    lists: &mut List<List<ExprOrPatId>>,
    pats: &[RawPat],
) -> Result<(), AllocError>
    ensures { OnOk result (lists.new ≡ lists.old ++ map (λ p. nodes (pat_parts p)) pats.now) }
{
    for pat in pats {
        let nodes = nodes_of_pat(alloc, pat)?;
        lists.push(List::from_vec(nodes))?;
    }
    Ok(())
}

/// The parts of each node.
fn lists_of_nodes(alloc: Global, body: &RawBody) -> Result<List<List<ExprOrPatId>>, AllocError>
    ensures { IfOk result (λ lists. lists ≡ node_lists body.now) }
{
    let mut lists = List::new(alloc);
    push_expr_lists(alloc, &mut lists, body, body.exprs.as_slice())?;
    push_pat_lists(alloc, &mut lists, body.pats.as_slice())?;
    let nodes = nodes_of_body(alloc, body)?;
    lists.push(List::from_vec(nodes))?;
    Ok(lists)
}

/// The positions of expressions and patterns among the nodes of their body.
fn positions_of(
    alloc: Global,
    body: &RawBody,
    nodes: &[ExprOrPatId],
) -> Result<List<usize>, AllocError>
    requires count { node_count body.now < 2 ^ 64 }
    requires nodes { (k : ℕ) (x : ExprOrPatId) → slice_get nodes.now k ≡ Some x → IsInBody body.now x }
    ensures { IfOk result (λ ps. ps ≡ positions body.now nodes.now) }
{
    let mut out = List::new(alloc);
    for node in nodes {
        out.push(position_of(body, *node))?;
    }
    Ok(out)
}

/// The nodes of a body as a graph: the positions of each node's parts.
fn graph(alloc: Global, body: &RawBody) -> Result<List<List<usize>>, AllocError>
    requires { PartsFit body.now }
    ensures { IfOk result (λ kids. kids ≡ graph_of body.now) }
{
    let lists = lists_of_nodes(alloc, body)?;
    let mut kids = List::new(alloc);
    for nodes in lists.as_slice() {
        let positions = positions_of(alloc, body, nodes.as_slice())?;
        kids.push(positions)?;
    }
    Ok(kids)
}

/// The numbers of a body in the order of the walk, or `None` where it is no tree: where some
/// expression or pattern is not reached along exactly one way.
pub fn schedule_of(alloc: Global, body: &RawBody) -> Result<Option<Schedule>, AllocError>
    requires { PartsFit body.now }
    ensures { IfOk result (λ found. MatchOption found
        (¬ IsTree body.now)
        (λ schedule. IsSchedule body.now schedule × AreDepths body.now schedule)) }
{
    let kids = graph(alloc, body)?;
    let root = kids.len() - 1;
    number_graph(alloc, &kids, root)
}

fn are_at_most(depths: &[usize], limit: usize) -> bool
    ensures { IsTrue result ↔ EachIndex depths.now (λ k. slice_index depths.now k ≤ limit) }
{
    depths.iter().all(|depth| *depth <= limit)
}

/// Whether no way from the body takes more than `limit` steps.
pub fn is_low(_body: &RawBody, schedule: &Schedule, limit: usize) -> bool
    requires schedule { IsSchedule _body.now schedule.now }
    requires depths { AreDepths _body.now schedule.now }
    ensures { IsTrue result ↔ IsLow limit _body.now }
{
    are_at_most(schedule.depths.as_slice(), limit)
}
