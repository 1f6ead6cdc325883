//! How long the lists of a body may be, and how deep its tree.
ghost use Rattle.std.specs.Prelude.{◌≡◌, ◌↔◌, ℕ, Some, IsTrue, IfOk, slice_get};
ghost use Rattle.hir_laws.specs.Words.{Said, AllMentioned, IsSchedule, AreDepths, AreSchedules, ListIsShort, BodyIsSmall};

use crate::scopes::MOST_STEPS;
use hir_counts::{is_early, is_short, is_short_list};
use hir_ids::{Test, said_of_body};
use hir_raw::{RawBody, RawFacts, Said, Schedule};
use hir_schedule::is_low;
use hir_types::List;
use std::alloc::{AllocError, Global};

/// How many labels a body may have.
const MOST_LABELS: u32 = 1048576;

fn are_short(said: &[Said]) -> bool
    ensures { IsTrue result ↔ ((k : ℕ) (s : Said) → slice_get said.now k ≡ Some s → ListIsShort s.mention) }
{
    said.iter().all(|s| is_short_list(s.mention))
}

fn has_short_lists(alloc: Global, body: &RawBody) -> Result<bool, AllocError>
    ensures { IfOk result (λ told. IsTrue told ↔ AllMentioned (λ n m. ListIsShort m) body.now) }
{
    let said = said_of_body(alloc, body)?;
    Ok(are_short(&said))
}

fn is_small(at: usize, body: &RawBody, schedule: &Schedule) -> bool
    requires schedule { IsSchedule body.now schedule.now }
    requires depths { AreDepths body.now schedule.now }
    requires lists { AllMentioned (λ n m. ListIsShort m) body.now }
    ensures { IsTrue result ↔ BodyIsSmall at body.now }
{
    is_early(at)
        && is_short(body.traits.as_slice())
        && is_short(body.exprs.as_slice())
        && is_short(body.pats.as_slice())
        && is_short(body.bindings.as_slice())
        && body.labels <= MOST_LABELS
        && is_low(body, schedule, MOST_STEPS)
}

/// The lists of a body are short, its labels few, and its tree not deep.
#[derive(Drop)]
pub struct BodySizes<'a> {
    pub schedules: &'a List<Schedule>,
}

impl<'a> Test for BodySizes<'a> {
    type Item = RawBody;

    ghost listed = { λ raw. raw.bodies };

    ghost holds = { λ raw. BodyIsSmall };

    ghost given = { λ raw s. AreSchedules raw.bodies s.schedules.now };

    fn test(
        &self,
        alloc: Global,
        _raw: &RawFacts,
        at: usize,
        item: &RawBody,
    ) -> Result<bool, AllocError> {
        let schedule = &self.schedules.as_slice()[at];
        if !has_short_lists(alloc, item)? {
            return Ok(false);
        }
        Ok(is_small(at, item, schedule))
    }
}
