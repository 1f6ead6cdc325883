//! The limits are in their ranges.
ghost use Rattle.std.specs.Prelude.{◌≡◌};
ghost use Rattle.hir_laws.specs.Words.{limits_of, most_at, IsInRange};

use hir_ids::Test;
use hir_raw::RawFacts;
use std::alloc::{AllocError, Global};

fn most_at(at: usize) -> u32
    ensures { result ≡ most_at at }
{
    match at {
        1 => 65536,
        _ => 32,
    }
}

/// A limit is in its range.
pub struct LimitsInRange;

impl Test for LimitsInRange {
    type Item = u32;

    ghost listed = { limits_of };

    ghost holds = { λ raw. IsInRange };

    ghost given = { λ raw s. Unit {0} };

    fn test(
        &self,
        _alloc: Global,
        _raw: &RawFacts,
        at: usize,
        item: &u32,
    ) -> Result<bool, AllocError> {
        Ok(1 <= *item && *item <= most_at(at))
    }
}
