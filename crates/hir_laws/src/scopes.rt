//! A local names a binding that the walk has come to before.
ghost use Rattle.std.specs.Prelude.{◌≡◌, ◌↔◌, ℕ, Some, None, IsTrue, IfOk, length, slice_get, slice_set, slice_index_or};
ghost use Rattle.hir_laws.specs.Words.{Said, PartsFit, IsSchedule, AreDepths, AllHold, BodyIdsExist, AreInScope, ScopesHold, AreSchedules};
ghost use Rattle.hir_laws.specs.Words.hir_raw.Order.{IsTree};
ghost use Rattle.hir_laws.specs.Own.{binding_bound, and_number, comes_before, AreFirsts, ComesAfter, LocalsExist};

use hir_counts::number_at;
use hir_ids::{Test, said_of_body};
use hir_raw::{Mention, RawBody, RawFacts, Said, Schedule};
use hir_schedule::{is_low, schedule_of};
use hir_types::List;
use std::alloc::{AllocError, Global};

/// The most steps that a way from a body takes.
pub const MOST_STEPS: usize = 256;

fn binding_bound(mention: Mention) -> Option<usize>
    ensures { result ≡ binding_bound mention }
{
    match mention {
        Mention::Binds(v) => Some(v.0 as usize),
        _ => None,
    }
}

fn and_number(before: Option<usize>, number: usize) -> usize
    ensures { result ≡ and_number before number }
{
    match before {
        None => number,
        Some(before) => before.min(number),
    }
}

fn note(firsts: &mut Vec<Option<usize>>, v: usize, number: usize)
    ensures { firsts.new.items ≡ slice_set firsts.old.items v (Some (and_number (slice_index_or firsts.old.items v None) number)) }
{
    if v < firsts.len() {
        let before = firsts[v];
        firsts[v] = Some(and_number(before, number));
    }
}

/// The lowest number of a node that binds it, for each of so many bindings.
fn firsts_of(
    alloc: Global,
    starts: &[usize],
    said: &[Said],
    count: usize,
) -> Result<Vec<Option<usize>>, AllocError>
    ensures { IfOk result (λ v. AreFirsts starts.now said.now (length said.now) count v.items) }
{
    let mut firsts = vec![in alloc; None; count]?;
    for said in said {
        if let Some(v) = binding_bound(said.mention) {
            note(&mut firsts, v, number_at(starts, said.node));
        }
    }
    Ok(firsts)
}

fn comes_before(first: Option<usize>, number: usize) -> bool
    ensures { result ≡ comes_before first number }
{
    match first {
        None => false,
        Some(first) => first < number,
    }
}

fn first_at(firsts: &[Option<usize>], v: usize) -> Option<usize>
    ensures { result ≡ slice_index_or firsts.now v None }
{
    if v < firsts.len() { firsts[v] } else { None }
}

fn comes_after(starts: &[usize], firsts: &[Option<usize>], node: usize, mention: Mention) -> bool
    ensures { IsTrue result ↔ ComesAfter starts.now firsts.now node mention }
{
    match mention {
        Mention::Local(v) => comes_before(first_at(firsts, v.0 as usize), number_at(starts, node)),
        _ => true,
    }
}

fn come_after(starts: &[usize], firsts: &[Option<usize>], said: &[Said]) -> bool
    ensures { IsTrue result ↔ ((k : ℕ) (s : Said) → slice_get said.now k ≡ Some s → ComesAfter starts.now firsts.now s.node s.mention) }
{
    said.iter()
        .all(|s| comes_after(starts, firsts, s.node, s.mention))
}

fn are_in_scope(alloc: Global, body: &RawBody, schedule: &Schedule) -> Result<bool, AllocError>
    requires { LocalsExist body.now }
    ensures { IfOk result (λ told. IsTrue told ↔ AreInScope body.now schedule.now) }
{
    let said = said_of_body(alloc, body)?;
    let said = said.as_slice();
    let starts = schedule.starts.as_slice();
    let firsts = firsts_of(alloc, starts, said, body.bindings.len())?;
    Ok(come_after(starts, &firsts, said))
}

fn schedule_of_tree(alloc: Global, body: &RawBody) -> Result<Schedule, AllocError>
    requires parts { PartsFit body.now }
    requires tree { IsTree body.now }
    ensures { IfOk result (λ s. IsSchedule body.now s × AreDepths body.now s) }
{
    let schedule = schedule_of(alloc, body)?;
    Ok(schedule.unwrap())
}

/// The numbers of each body in the order of the walk.
pub fn schedules_of(alloc: Global, bodies: &[RawBody]) -> Result<List<Schedule>, AllocError>
    requires parts { AllHold (λ i b. PartsFit b) bodies.now }
    requires trees { AllHold (λ i b. IsTree b) bodies.now }
    ensures { IfOk result (λ schedules. AreSchedules bodies.now schedules) }
{
    let mut schedules = List::new(alloc);
    for body in bodies {
        let schedule = schedule_of_tree(alloc, body)?;
        schedules.push(schedule)?;
    }
    Ok(schedules)
}

/// A local names a binding that the walk has come to before.
#[derive(Drop)]
pub struct Scopes<'a> {
    pub schedules: &'a List<Schedule>,
}

impl<'a> Test for Scopes<'a> {
    type Item = RawBody;

    ghost listed = { λ raw. raw.bodies };

    ghost holds = { λ raw i b. ScopesHold b };

    ghost given = { λ raw s. AllHold (BodyIdsExist raw) raw.bodies × AreSchedules raw.bodies s.schedules.now };

    fn test(
        &self,
        alloc: Global,
        _raw: &RawFacts,
        at: usize,
        item: &RawBody,
    ) -> Result<bool, AllocError> {
        let schedule = &self.schedules.as_slice()[at];
        if !is_low(item, schedule, MOST_STEPS) {
            return Ok(true);
        }
        are_in_scope(alloc, item, schedule)
    }
}
