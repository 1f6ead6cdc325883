//! Why a text is no facts.
ghost use Rattle.std.specs.Prelude.{◌≡◌};
ghost use Rattle.infer_text.specs.declared.fault.Misread.TheVariants.{OutOfMemory};

use crate::wanted::wanted_at;
use hir_facts::{FactsList, Law, Text};
use hir_laws::FactsError;
use std::alloc::{AllocError, AllocFailed};
use std::fmt;
use thiserror::Error;

/// Why nothing was read from a value: it has another shape, at this path, or memory ran out.
#[derive(Debug, Drop, Error)]
pub enum Misread {
    #[error("another shape is wanted at `{path}`")]
    Shape { path: Text },
    #[error("there is not enough memory")]
    OutOfMemory,
}

impl From<AllocError> for Misread {
    ghost from_gives = { λ _ e. e ≡ OutOfMemory };

    fn from(_e: AllocError) -> Misread {
        Misread::OutOfMemory
    }
}

impl<T: Drop> From<AllocFailed<T>> for Misread {
    ghost from_gives = { λ _ e. e ≡ OutOfMemory };

    fn from(_e: AllocFailed<T>) -> Misread {
        Misread::OutOfMemory
    }
}

/// The part of a text that stands at a path; at an empty one that is the whole text.
#[derive(Clone, Copy)]
struct PartAt<'a>(&'a str);

impl fmt::Display for PartAt<'_> {
    fn fmt<W: fmt::Write>(&self, f: &mut fmt::Formatter<W>) -> fmt::Result {
        let path = self.0;
        if path.is_empty() {
            write!(f, "the whole text")
        } else {
            write!(f, "`{path}`")
        }
    }
}

/// Why a text stands for no lawful facts.
#[derive(Debug, Drop, Error)]
pub enum ReadError {
    /// It is no JSON, or nests too deep.
    #[error("the text is no JSON in UTF-8, or nests more than 127 arrays and objects")]
    Json,
    /// Another shape is wanted at the path: keys and positions from the top, joined by points.
    #[error("{part} has another shape: {wanted} is wanted", part = PartAt(.path.as_str()), wanted = wanted_at(.path.as_str()))]
    Shape {
        path: Text,
    },
    /// A law is broken at an entry of a list, and all before hold.
    #[error("{broken}", broken = FactsError::Law {law: *.law, list: *.list, index: *.index})]
    Unlawful {
        law: Law,
        list: FactsList,
        index: usize,
    },
    /// There was not enough memory to tell.
    #[error("there is not enough memory")]
    OutOfMemory,
}
