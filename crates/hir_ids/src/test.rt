//! A law at the entries of a list, and the first entry that breaks it.
ghost use Rattle.std.specs.Prelude.{◌≡◌, ◌↔◌, ℕ, List, IfOk, IsTrue, MatchOption, Some, slice_get};
ghost use Rattle.hir_ids.specs.Words.{RawFacts, AllHold, BreaksAt};

use hir_raw::RawFacts;
use std::alloc::{AllocError, Global};

/// A test of a law at the entries of a list of the facts.
pub trait Test {
    /// The entries.
    type Item;

    // the list
    ghost listed: { RawFacts → List Self.Item };

    // the law at an entry with this index
    ghost holds: { RawFacts → ℕ → Self.Item → Type 0 };

    // what the test rests on: earlier laws, and what it found out before
    ghost given: { RawFacts → Self → Type 0 };

    /// Whether the law holds at this entry.
    fn test(
        &self,
        alloc: Global,
        raw: &RawFacts,
        at: usize,
        item: &Self::Item,
    ) -> Result<bool, AllocError>
        requires given { given raw.now self.now }
        requires listed { slice_get (listed raw.now) at ≡ Some item.now }
        ensures { IfOk result (λ yes. IsTrue yes ↔ holds raw.now at item.now) };
}

/// The first entry that breaks a law.
pub fn first_broken<T: Test>(
    alloc: Global,
    test: &T,
    raw: &RawFacts,
    items: &[T::Item],
) -> Result<Option<usize>, AllocError>
    requires given { T.given raw.now test.now }
    requires listed { items.now ≡ T.listed raw.now }
    ensures { IfOk result (λ o. MatchOption o (AllHold (T.holds raw.now) (T.listed raw.now)) (λ i. BreaksAt (T.holds raw.now) (T.listed raw.now) i)) }
{
    for (at, item) in items.iter().enumerate() {
        if !test.test(alloc, raw, at, item)? {
            return Ok(Some(at));
        }
    }
    Ok(None)
}
