//! Patterns that are places stand under an assignment's target.
ghost use Rattle.std.specs.Prelude.{◌≡◌, ◌↔◌, ◌+◌, ◌||◌, not, IsTrue, IfOk, MatchBool, slice_get, slice_set};
ghost use Rattle.hir_types.specs.declared.ids.ExprOrPatId.TheVariants.{PatId};
ghost use Rattle.hir_laws.specs.Words.{PatId as Pat, Node, IsAssigned, IsSchedule, IsNumber, AreAround, IsNode, inner, position, start};
ghost use Rattle.hir_laws.specs.Own.{AreAssigned, AreMarkedSoFar, PlacesFit, assigns_to, is_place, is_under, mark_by, pattern_index};

use hir_raw::{LaterExpr, LaterPat, RawBody, RawExpr, RawPat, Schedule};
use hir_walk::{Enclosing, nodes_in_order};
use std::alloc::{AllocError, Global};

fn pattern_index(body: &RawBody, node: usize) -> Option<usize>
    ensures { result ≡ pattern_index body.now node }
{
    let pat = node.checked_sub(body.exprs.len())?;
    if pat < body.pats.len() {
        Some(pat)
    } else {
        None
    }
}

fn assigns_to(body: &RawBody, node: usize, pat: usize) -> bool
    ensures { result ≡ assigns_to (slice_get body.now.exprs node) pat }
{
    match body.exprs.get(node) {
        Some(RawExpr::Later(LaterExpr::Assignment { target, value: _ })) => {
            target.0 as usize == pat
        }
        _ => false,
    }
}

fn mark_by(marks: &[bool], pat: Option<usize>) -> bool
    ensures { result ≡ mark_by marks.now pat }
{
    match pat {
        None => false,
        Some(pat) => pat < marks.len() && marks[pat],
    }
}

fn is_under(body: &RawBody, marks: &[bool], node: usize, pat: usize) -> bool
    ensures { result ≡ is_under body.now marks.now node pat }
{
    assigns_to(body, node, pat) || mark_by(marks, pattern_index(body, node))
}

fn is_place(body: &RawBody, pat: usize) -> bool
    ensures { result ≡ is_place (slice_get body.now.pats pat) }
{
    matches!(body.pats.get(pat), Some(RawPat::Later(LaterPat::Expr(_))))
}

fn note(marks: &mut Vec<bool>, pat: usize, mark: bool)
    ensures { marks.new.items ≡ slice_set marks.old.items pat mark }
{
    if pat < marks.len() {
        marks[pat] = mark;
    }
}

/// The patterns that a walk has come to.
#[derive(Drop)]
struct Assigned {
    enclosing: Enclosing,
    /// Whether each of them is an assignment's target, or part of one by patterns alone.
    marks: Vec<bool>,
}

/// Whether a pattern is an assignment's target or part of one, by the innermost node around it.
fn is_assigned(body: &RawBody, assigned: &Assigned, number: usize, pat: usize) -> bool
    ensures { (s : Schedule) (p : Pat) → IsSchedule body.now s → p.0 ≡ pat → IsNode body.now (inner (PatId p)) → start body.now s (inner (PatId p)) ≡ number
        → AreAround body.now s number assigned.now.enclosing.nodes.items → AreMarkedSoFar body.now s number assigned.now.marks.items
        → IsTrue result ↔ IsAssigned body.now p }
{
    match assigned.enclosing.innermost_from(number) {
        None => false,
        Some(node) => is_under(body, &assigned.marks, node, pat),
    }
}

/// Whether a pattern is no place, or is assigned to.
fn may_stand(body: &RawBody, pat: usize, is_assigned: bool) -> bool
    ensures { result ≡ (is_assigned || not (is_place (slice_get body.now.pats pat))) }
{
    is_assigned || !is_place(body, pat)
}

/// Marks the node at this position, if it is a pattern. The answer is false where it is a place that is
/// not assigned to.
fn mark(body: &RawBody, assigned: &mut Assigned, number: usize, node: usize) -> bool
    ensures { (s : Schedule) (n : Node) → IsSchedule body.now s → IsNode body.now n → position body.now n ≡ node → start body.now s n ≡ number
        → AreAround body.now s number assigned.old.enclosing.nodes.items → AreMarkedSoFar body.now s number assigned.old.marks.items
        → (assigned.new.enclosing ≡ assigned.old.enclosing) × MatchBool result (AreMarkedSoFar body.now s (number + 1) assigned.new.marks.items) (PlacesFit body.now → ⊥) }
{
    let Some(pat) = pattern_index(body, node) else {
        return true;
    };
    let told = is_assigned(body, assigned, number, pat);
    note(&mut assigned.marks, pat, told);
    may_stand(body, pat, told)
}

/// Goes on by a number, to the node that has it. The answer is false where that is a place that is not
/// assigned to.
fn visit(
    body: &RawBody,
    schedule: &Schedule,
    assigned: &mut Assigned,
    number: usize,
    node: Option<usize>,
) -> Result<bool, AllocError>
    requires schedule { IsSchedule body.now schedule.now }
    requires node { IsNumber body.now schedule.now number node }
    requires before { AreAssigned body.now schedule.now number assigned.old }
    ensures { IfOk result (λ told. MatchBool told (AreAssigned body.now schedule.now (number + 1) assigned.new) (PlacesFit body.now → ⊥)) }
{
    assigned.enclosing.leave(number);
    let Some(node) = node else {
        return Ok(true);
    };
    if !mark(body, assigned, number, node) {
        return Ok(false);
    }
    assigned.enclosing.enter(body, schedule, node)?;
    Ok(true)
}

/// Whether patterns that are places stand under an assignment's target.
pub fn have_targets(alloc: Global, body: &RawBody, schedule: &Schedule) -> Result<bool, AllocError>
    requires { IsSchedule body.now schedule.now }
    ensures { IfOk result (λ told. IsTrue told ↔ PlacesFit body.now) }
{
    let order = nodes_in_order(alloc, schedule)?;
    let mut assigned = Assigned {
        enclosing: Enclosing::new(alloc),
        marks: vec![in alloc; false; body.pats.len()]?,
    };
    for (number, node) in order.iter().enumerate() {
        if !visit(body, schedule, &mut assigned, number, *node)? {
            return Ok(false);
        }
    }
    Ok(true)
}
