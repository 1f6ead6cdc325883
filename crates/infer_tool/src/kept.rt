//! A source that keeps what is read.
ghost use Rattle.std.specs.Prelude.{◌≡◌};

use infer_run::{Failed, Source};
use std::alloc::Global;

/// A source that keeps what is read from another, as long as there is memory for it.
#[derive(Drop)]
pub struct KeptSource<S: Source + Drop> {
    source: S,
    kept: Option<Vec<u8>>,
}

impl<S: Source + Drop> KeptSource<S> {
    /// The same source, of which nothing is kept yet.
    pub fn new(alloc: Global, source: S) -> KeptSource<S>
        ensures { result.source ≡ source }
    {
        KeptSource {
            source,
            kept: Some(Vec::new(alloc)),
        }
    }

    /// All that was read, if there was memory for it.
    pub fn kept(&self) -> Option<&[u8]> {
        match &self.kept {
            None => None,
            Some(kept) => Some(kept.as_slice()),
        }
    }

    fn keep(&mut self, bytes: &[u8])
        ensures { self.new.source ≡ self.old.source }
    {
        let is_lost = match &mut self.kept {
            None => false,
            Some(kept) => kept.extend_from_slice(bytes).is_err(),
        };
        if is_lost {
            self.kept = None;
        }
    }
}

impl<S: Source + Drop> Source for KeptSource<S> {
    ghost left = { λ s. S.left s.source };

    ghost faults = { λ s. S.faults s.source };

    fn read(&mut self, buf: &mut [u8]) -> Result<usize, Failed> {
        let count = self.source.read(buf)?;
        self.keep(&buf[..count]);
        Ok(count)
    }
}
