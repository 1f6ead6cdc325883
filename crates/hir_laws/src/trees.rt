//! The nodes of a body are a tree, each binding is bound once, but for the parts of or-patterns, and
//! each label stands once.
ghost use Rattle.std.specs.Prelude.{◌≡◌, ◌↔◌, ◌<◌, ℕ, IsTrue, IfOk, length, map, slice_index_or};
ghost use Rattle.hir_laws.specs.Words.{PartsFit, AllHold, BodyIdsExist, IsSchedule, IsWellFormed};
ghost use Rattle.hir_laws.specs.Words.hir_ids.declared.namers.Namers.TheVariants.{Nobody};
ghost use Rattle.hir_laws.specs.Own.{AllBound, AreBinders, bound_binding, is_bound, is_self};

use crate::labels::stand_once;
use crate::or_patterns::are_alternatives;
use hir_ids::{Namers, Test, binding_of, namers_of};
use hir_raw::{RawBody, RawFacts, RawPat, Schedule};
use hir_schedule::schedule_of;
use hir_types::BindingId;
use std::alloc::{AllocError, Global};

/// The binding of a pattern, by its number.
pub fn bound_binding(pat: &RawPat) -> Option<usize>
    ensures { result ≡ bound_binding pat.now }
{
    match binding_of(pat) {
        None => None,
        Some(v) => Some(v.0 as usize),
    }
}

fn bound_bindings(alloc: Global, pats: &[RawPat]) -> Result<Vec<Option<usize>>, AllocError>
    ensures { IfOk result (λ v. v.items ≡ map bound_binding pats.now) }
{
    pats.iter().map(|pat| bound_binding(pat)).collect(alloc)
}

/// Which patterns bind each binding of a body.
fn binders_of(alloc: Global, body: &RawBody) -> Result<Vec<Namers>, AllocError>
    ensures { IfOk result (λ v. AreBinders body.now v.items) }
{
    let targets = bound_bindings(alloc, body.pats.as_slice())?;
    namers_of(alloc, &targets, body.bindings.len())
}

/// Whether this binding is `self`.
fn is_self(own: Option<BindingId>, v: usize) -> bool
    ensures { result ≡ is_self own v }
{
    match own {
        None => false,
        Some(own) => own.0 as usize == v,
    }
}

fn is_bound(is_self: bool, binders: Namers) -> bool
    ensures { result ≡ is_bound is_self binders }
{
    match binders {
        Namers::Nobody => is_self,
        Namers::One(_) | Namers::Several => !is_self,
    }
}

fn are_bound(body: &RawBody, binders: &[Namers]) -> bool
    ensures { IsTrue result ↔ ((v : ℕ) → v < length binders.now → IsTrue (is_bound (is_self body.now.self_ v) (slice_index_or binders.now v Nobody))) }
{
    for (v, binder) in binders.iter().enumerate() {
        if !is_bound(is_self(body.self_, v), *binder) {
            return false;
        }
    }
    true
}

/// Whether each binding is bound by `self` alone, or by patterns that are alternatives.
fn are_bound_once(alloc: Global, body: &RawBody, schedule: &Schedule) -> Result<bool, AllocError>
    requires { IsSchedule body.now schedule.now }
    ensures { IfOk result (λ told. IsTrue told ↔ AllBound body.now) }
{
    let binders = binders_of(alloc, body)?;
    if !are_bound(body, &binders) {
        return Ok(false);
    }
    are_alternatives(alloc, body, schedule)
}

fn is_well_formed(alloc: Global, body: &RawBody) -> Result<bool, AllocError>
    requires { PartsFit body.now }
    ensures { IfOk result (λ told. IsTrue told ↔ IsWellFormed body.now) }
{
    let Some(schedule) = schedule_of(alloc, body)? else {
        return Ok(false);
    };
    if !are_bound_once(alloc, body, &schedule)? {
        return Ok(false);
    }
    stand_once(alloc, body)
}

/// The nodes of a body are a tree, each binding is bound once, but for the parts of or-patterns, and
/// each label stands once.
pub struct Trees;

impl Test for Trees {
    type Item = RawBody;

    ghost listed = { λ raw. raw.bodies };

    ghost holds = { λ raw i b. IsWellFormed b };

    ghost given = { λ raw s. AllHold (BodyIdsExist raw) raw.bodies };

    fn test(
        &self,
        alloc: Global,
        _raw: &RawFacts,
        _at: usize,
        item: &RawBody,
    ) -> Result<bool, AllocError> {
        is_well_formed(alloc, item)
    }
}
