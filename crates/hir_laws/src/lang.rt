//! Language items have the shape that they are known by.
ghost use Rattle.std.specs.Prelude.{◌≡◌, ◌↔◌, IsTrue};
ghost use Rattle.hir_laws.specs.Words.{HasNoParams, LangFits};

use hir_ids::Test;
use hir_raw::{RawFacts, RawLang};
use hir_types::TraitId;
use std::alloc::{AllocError, Global};

fn has_no_params(raw: &RawFacts, id: TraitId) -> bool
    ensures { IsTrue result ↔ HasNoParams raw.now id }
{
    match raw.traits.get(id.0 as usize) {
        None => true,
        Some(item) => item.params.is_empty(),
    }
}

/// A language item has the shape that it is known by.
pub struct LangShapes;

impl Test for LangShapes {
    type Item = RawLang;

    ghost listed = { λ raw. raw.lang };

    ghost holds = { λ raw i l. LangFits raw l };

    ghost given = { λ raw s. Unit {0} };

    fn test(
        &self,
        _alloc: Global,
        raw: &RawFacts,
        _at: usize,
        item: &RawLang,
    ) -> Result<bool, AllocError> {
        Ok(match item {
            RawLang::Sized(id) | RawLang::Copy(id) | RawLang::Clone(id) => has_no_params(raw, *id),
            RawLang::Other => true,
        })
    }
}
