//! Facts that pass the tests of all laws.
ghost use Rattle.std.specs.Prelude.{◌≡◌, IfOk, IfErr};
ghost use Rattle.hir_laws.specs.Words.{IsLawful, tests};
ghost use Rattle.hir_laws.specs.Own.{Refuses};

use crate::checks::check;
use crate::facts_error::FactsError;
use hir_facts::Facts;
use hir_plain::plain_marks;
use hir_raw::RawFacts;
use std::alloc::Global;

/// Tests the laws in their order, and keeps the facts where all hold. `FactsError::Law` names the
/// first law that is broken, with the first list and entry that break it (docs/LAWS.md);
/// `FactsError::OutOfMemory` says that memory ran out.
pub fn lawful_facts(alloc: Global, raw: RawFacts) -> Result<Facts, FactsError>
    ensures facts { IfOk result (λ f. f ≡ raw) }
    ensures lawful { IfOk result (λ f. IsLawful f) }
    ensures broken { IfErr result (λ e. Refuses raw tests e) }
{
    let schedules = check(alloc, &raw)?;
    let plain = plain_marks(alloc, &raw)?;
    Ok(Facts::new(raw, schedules, plain))
}
