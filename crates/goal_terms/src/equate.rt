//! Making two terms equal, by the fewest bindings.
ghost use Rattle.std.specs.Prelude.{◌≡◌, ◌↔◌, [], IsTrue, IfOk, None, MatchOption, option_map};
ghost use Rattle.hir_types.specs.declared.head.Head.TheVariants as head;
ghost use Rattle.goal_terms.specs.Words.{hole, leaf, pair, node, IsInt, found, Free, IsIntHole, UnifiedIf, IsNoHole};
ghost use Rattle.goal_terms.specs.Own.{term_of, HasHeads, log_of, IsLog, Extends};

use crate::binding::{Binding, bind, find, resolve, stands_in};
use crate::levels::one_level;
use crate::term::{Term, is_same_head, is_same_hole};
use hir_types::{Head, Hole};
use std::alloc::{AllocError, Global};

/// How many levels two terms may have, counted with the bindings that are followed.
pub const MOST_DEPTH: u32 = 1 << 12;

fn is_int_hole(hole: Hole) -> bool
    ensures { IsTrue result ↔ IsIntHole hole }
{
    match hole {
        Hole::Int(_) => true,
        Hole::Ty(_) | Hole::Const(_) => false,
    }
}

fn is_int_head(head: Head) -> bool
    ensures { IsTrue result ↔ IsInt (node head []) }
{
    match head {
        Head::Int(_) | Head::Uint(_) => true,
        _ => false,
    }
}

/// Whether a pair with this first part is an integer type.
#[tactic(auto, using(crate::specs::Terms::term_is))]
fn starts_int(first: &Term) -> bool
    ensures { IsTrue result ↔ IsInt (pair (term_of first.now) (leaf head.End)) }
{
    match first {
        Term::Leaf(head) => is_int_head(*head),
        Term::Hole(_) | Term::Pair(_, _) => false,
    }
}

/// Whether the term is an integer type, or a hole for one.
#[tactic(auto, using(crate::specs::Terms::term_is))]
fn is_int(term: &Term) -> bool
    ensures { IsTrue result ↔ IsInt (term_of term.now) }
{
    match term {
        Term::Hole(hole) => is_int_hole(*hole),
        Term::Leaf(_) => false,
        Term::Pair(first, _) => starts_int(first.get()),
    }
}

/// The hole that the term is, if it is one.
#[tactic(auto, using(crate::specs::Terms::term_is))]
fn as_hole(term: &Term) -> Option<Hole>
    ensures { MatchOption result (IsNoHole (term_of term.now)) (λ k. term_of term.now ≡ hole k) }
{
    match term {
        Term::Hole(hole) => Some(*hole),
        Term::Leaf(_) | Term::Pair(_, _) => None,
    }
}

/// Makes two holes equal that are not bound.
fn bind_holes(log: &mut Vec<Binding>, x: Hole, y: Hole) -> Result<bool, AllocError>
    requires is_log { IsLog (log_of log.old.items) }
    requires left { found (log_of log.old.items) x ≡ None }
    requires right { found (log_of log.old.items) y ≡ None }
    ensures extends { Extends (log_of log.old.items) (log_of log.new.items) }
    ensures unified { IfOk result (λ yes. UnifiedIf yes (log_of log.old.items) (log_of log.new.items) (hole x) (hole y)) }
{
    if is_same_hole(x, y) {
        return Ok(true);
    }
    if is_int_hole(x) {
        bind(log, y, Term::Hole(x))?;
        return Ok(true);
    }
    bind(log, x, Term::Hole(y))?;
    Ok(true)
}

/// Makes a hole that is not bound and what is no hole equal, or answers false where nothing does.
fn bind_term(log: &mut Vec<Binding>, x: Hole, term: Term) -> Result<bool, AllocError>
    requires is_log { IsLog (log_of log.old.items) }
    requires not_bound { found (log_of log.old.items) x ≡ None }
    requires no_hole { IsNoHole (term_of term) }
    requires heads { HasHeads (term_of term) }
    requires none_bound { Free (log_of log.old.items) (term_of term) }
    ensures extends { Extends (log_of log.old.items) (log_of log.new.items) }
    ensures unified { IfOk result (λ yes. UnifiedIf yes (log_of log.old.items) (log_of log.new.items) (hole x) (term_of term)) }
{
    if is_int_hole(x) && !is_int(&term) {
        return Ok(false);
    }
    if stands_in(x, &term) {
        return Ok(false);
    }
    bind(log, x, term)?;
    Ok(true)
}

/// Makes a hole that is not bound and a term equal, or answers false where nothing does.
fn bind_hole(
    alloc: Global,
    log: &mut Vec<Binding>,
    x: Hole,
    term: &Term,
) -> Result<bool, AllocError>
    requires is_log { IsLog (log_of log.old.items) }
    requires not_bound { found (log_of log.old.items) x ≡ None }
    requires heads { HasHeads (term_of term.now) }
    ensures extends { Extends (log_of log.old.items) (log_of log.new.items) }
    ensures unified { IfOk result (λ yes. UnifiedIf yes (log_of log.old.items) (log_of log.new.items) (hole x) (term_of term.now)) }
{
    let known = resolve(alloc, log, term)?;
    match as_hole(&known) {
        Some(y) => bind_holes(log, x, y),
        None => bind_term(log, x, known),
    }
}

/// A copy of what the hole is bound to, if it is.
fn bound_to(alloc: Global, log: &[Binding], x: Hole) -> Result<Option<Term>, AllocError>
    ensures { IfOk result (λ bound. option_map term_of bound ≡ found (log_of log.now) x) }
{
    match find(log, x) {
        Some(term) => Ok(Some(term.dup(alloc)?)),
        None => Ok(None),
    }
}

/// Makes a hole and a term equal, by what the hole is bound to.
#[cycle(equate)]
fn equal_hole(
    alloc: Global,
    log: &mut Vec<Binding>,
    x: Hole,
    term: &Term,
    levels: u32,
) -> Result<bool, AllocError>
    requires is_log { IsLog (log_of log.old.items) }
    requires heads { HasHeads (term_of term.now) }
    ensures extends { Extends (log_of log.old.items) (log_of log.new.items) }
    ensures unified { IfOk result (λ yes. UnifiedIf yes (log_of log.old.items) (log_of log.new.items) (hole x) (term_of term.now)) }
{
    match bound_to(alloc, log, x)? {
        Some(bound) => make_equal(alloc, log, &bound, term, levels),
        None => bind_hole(alloc, log, x, term),
    }
}

/// Makes two terms of two parts equal.
#[cycle(equate)]
fn equal_pairs(
    alloc: Global,
    log: &mut Vec<Binding>,
    a: &Term,
    b: &Term,
    c: &Term,
    d: &Term,
    levels: u32,
) -> Result<bool, AllocError>
    requires is_log { IsLog (log_of log.old.items) }
    requires left { HasHeads (pair (term_of a.now) (term_of b.now)) }
    requires right { HasHeads (pair (term_of c.now) (term_of d.now)) }
    ensures extends { Extends (log_of log.old.items) (log_of log.new.items) }
    ensures unified { IfOk result (λ yes. UnifiedIf yes (log_of log.old.items) (log_of log.new.items) (pair (term_of a.now) (term_of b.now)) (pair (term_of c.now) (term_of d.now))) }
{
    if !make_equal(alloc, log, a, c, levels)? {
        return Ok(false);
    }
    make_equal(alloc, log, b, d, levels)
}

/// Makes two terms equal by binding holes, or answers false where nothing does. After false or want
/// of memory some bindings may be left.
#[cycle(equate)]
#[tactic(auto, using(crate::specs::Terms::term_is))]
pub fn make_equal(
    alloc: Global,
    log: &mut Vec<Binding>,
    left: &Term,
    right: &Term,
    levels: u32,
) -> Result<bool, AllocError>
    requires is_log { IsLog (log_of log.old.items) }
    requires left { HasHeads (term_of left.now) }
    requires right { HasHeads (term_of right.now) }
    ensures extends { Extends (log_of log.old.items) (log_of log.new.items) }
    ensures unified { IfOk result (λ yes. UnifiedIf yes (log_of log.old.items) (log_of log.new.items) (term_of left.now) (term_of right.now)) }
{
    let below = one_level(levels)?;
    match left {
        Term::Hole(x) => equal_hole(alloc, log, *x, right, below),
        Term::Leaf(head) => match right {
            Term::Hole(y) => equal_hole(alloc, log, *y, left, below),
            Term::Leaf(other) => Ok(is_same_head(*head, *other)),
            Term::Pair(_, _) => Ok(false),
        },
        Term::Pair(a, b) => match right {
            Term::Hole(y) => equal_hole(alloc, log, *y, left, below),
            Term::Leaf(_) => Ok(false),
            Term::Pair(c, d) => equal_pairs(alloc, log, a.get(), b.get(), c.get(), d.get(), below),
        },
    }
}
