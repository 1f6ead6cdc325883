//! Patterns that bind the same stand in different parts of one or-pattern.
ghost use Rattle.std.specs.Prelude.{◌≡◌, ◌↔◌, ◌<◌, ◌+◌, ℕ, None, IsTrue, IfOk, MatchBool, slice_set, slice_index_or};
ghost use Rattle.hir_laws.specs.Words.{Node, IsNode, IsSchedule, AreAround, IsNumber, position, start};
ghost use Rattle.hir_laws.specs.Own.{AllParted, IsBinder, IsPartedFrom, IsPartedSoFar, IsWalked, bound_at, is_or, pattern_at};

use crate::trees::bound_binding;
use hir_raw::{LaterPat, RawBody, RawPat, Schedule};
use hir_walk::{Enclosing, nodes_in_order};
use std::alloc::{AllocError, Global};

fn bound_at(body: &RawBody, node: usize) -> Option<usize>
    ensures { result ≡ bound_at body.now node }
{
    match node.checked_sub(body.exprs.len()) {
        None => None,
        Some(pat) => match body.pats.get(pat) {
            None => None,
            Some(pat) => bound_binding(pat),
        },
    }
}

fn is_or_at(body: &RawBody, node: usize) -> bool
    ensures { result ≡ is_or (pattern_at body.now node) }
{
    match node.checked_sub(body.exprs.len()) {
        None => false,
        Some(pat) => matches!(body.pats.get(pat), Some(RawPat::Later(LaterPat::Or(_)))),
    }
}

/// Whether the innermost node around a place and the one with the number `last` is an or-pattern.
fn is_parted(body: &RawBody, enclosing: &Enclosing, last: Option<usize>) -> bool
    ensures { (s : Schedule) (k : ℕ) → IsSchedule body.now s → AreAround body.now s k enclosing.now.nodes.items
        → IsBinder body.now s k last → IsTrue result ↔ IsPartedFrom body.now s k last }
{
    let Some(last) = last else {
        return true;
    };
    match enclosing.innermost_from(last) {
        None => false,
        Some(node) => is_or_at(body, node),
    }
}

fn last_at(lasts: &[Option<usize>], v: usize) -> Option<usize>
    ensures { result ≡ slice_index_or lasts.now v None }
{
    if v < lasts.len() { lasts[v] } else { None }
}

fn note(lasts: &mut Vec<Option<usize>>, v: usize, number: usize)
    ensures { lasts.new.items ≡ slice_set lasts.old.items v (Some number) }
{
    if v < lasts.len() {
        lasts[v] = Some(number);
    }
}

/// The patterns that a walk has come to.
#[derive(Drop)]
struct Walked {
    enclosing: Enclosing,
    /// The number of the last pattern that binds each binding.
    lasts: Vec<Option<usize>>,
}

fn is_alternative(body: &RawBody, walked: &mut Walked, number: usize, node: usize) -> bool
    ensures { (s : Schedule) (n : Node) → IsSchedule body.now s → IsNode body.now n → position body.now n ≡ node → start body.now s n ≡ number
        → AreAround body.now s number walked.old.enclosing.nodes.items → IsPartedSoFar body.now s number walked.old.lasts.items
        → (walked.new.enclosing ≡ walked.old.enclosing) × MatchBool result (IsPartedSoFar body.now s (number + 1) walked.new.lasts.items) (AllParted body.now s → ⊥) }
{
    let Some(v) = bound_at(body, node) else {
        return true;
    };
    let told = is_parted(body, &walked.enclosing, last_at(&walked.lasts, v));
    note(&mut walked.lasts, v, number);
    told
}

/// Goes on by a number, to the node that has it. The answer is false where that binds what a pattern
/// before it binds that is no alternative of it.
fn visit(
    body: &RawBody,
    schedule: &Schedule,
    walked: &mut Walked,
    number: usize,
    node: Option<usize>,
) -> Result<bool, AllocError>
    requires schedule { IsSchedule body.now schedule.now }
    requires node { IsNumber body.now schedule.now number node }
    requires before { IsWalked body.now schedule.now number walked.old }
    ensures { IfOk result (λ told. MatchBool told (IsWalked body.now schedule.now (number + 1) walked.new) (AllParted body.now schedule.now → ⊥)) }
{
    walked.enclosing.leave(number);
    let Some(node) = node else {
        return Ok(true);
    };
    if !is_alternative(body, walked, number, node) {
        return Ok(false);
    }
    walked.enclosing.enter(body, schedule, node)?;
    Ok(true)
}

/// Whether any two patterns that bind the same stand in different parts of one or-pattern.
///
/// The nodes are gone through in the order of the walk. The innermost node around a pattern and the last one before it
/// that binds the same has to be an or-pattern; then those before that one are parted from it too.
pub fn are_alternatives(
    alloc: Global,
    body: &RawBody,
    schedule: &Schedule,
) -> Result<bool, AllocError>
    requires { IsSchedule body.now schedule.now }
    ensures { IfOk result (λ told. IsTrue told ↔ AllParted body.now schedule.now) }
{
    let order = nodes_in_order(alloc, schedule)?;
    let mut walked = Walked {
        enclosing: Enclosing::new(alloc),
        lasts: vec![in alloc; None; body.bindings.len()]?,
    };
    for (number, node) in order.iter().enumerate() {
        if !visit(body, schedule, &mut walked, number, *node)? {
            return Ok(false);
        }
    }
    Ok(true)
}
