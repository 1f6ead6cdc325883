//! Why facts are refused.
use hir_facts::{FactsList, Law};
use std::alloc::{AllocError, AllocFailed};
use thiserror::Error;

/// Why facts are refused.
#[derive(Clone, Copy, Debug, PartialEq, Eq, Error)]
pub enum FactsError {
    /// This law is the first that is broken, first at the entry of this list with this index.
    #[error("law {number} is broken at {key}[{index}]: {text}", number = .law.number(), key = .list.key(), text = .law.text())]
    Law {
        law: Law,
        list: FactsList,
        index: usize,
    },
    /// There is no memory left.
    #[error("out of memory")]
    OutOfMemory,
}

impl From<AllocError> for FactsError {
    ghost use Rattle.std.specs.Prelude.{◌≡◌};
    ghost use Rattle.hir_laws.specs.declared.facts_error.FactsError.TheVariants.{OutOfMemory};

    ghost from_gives = { λ _ e. e ≡ OutOfMemory };

    fn from(_e: AllocError) -> FactsError {
        FactsError::OutOfMemory
    }
}

impl<T: Drop> From<AllocFailed<T>> for FactsError {
    ghost use Rattle.std.specs.Prelude.{◌≡◌};
    ghost use Rattle.hir_laws.specs.declared.facts_error.FactsError.TheVariants.{OutOfMemory};

    ghost from_gives = { λ _ e. e ≡ OutOfMemory };

    fn from(_e: AllocFailed<T>) -> FactsError {
        FactsError::OutOfMemory
    }
}
