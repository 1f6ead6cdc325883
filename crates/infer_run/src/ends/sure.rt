//! Ends that never fail.
ghost use Rattle.std.specs.Prelude.{◌≡◌, ◌≤◌, length, drop, Some, None};

use super::{Failed, Sink, Source};

/// Bytes that are read without a fault.
#[derive(Drop)]
pub struct SureSource {
    bytes: Vec<u8>,
    at: usize,
    ghost within: { at ≤ length bytes.items },
}

impl SureSource {
    /// A source of these bytes, none of which has been read.
    pub fn new(bytes: Vec<u8>) -> SureSource
        ensures bytes { result.bytes.items ≡ bytes.items }
        ensures start { result.at ≡ 0 }
    {
        SureSource { bytes, at: 0 }
    }
}

impl Source for SureSource {
    ghost left = { λ s. Some (drop s.at s.bytes.items) };

    ghost faults = { λ _. 0 };

    fn read(&mut self, buf: &mut [u8]) -> Result<usize, Failed> {
        let count = buf.len().min(self.bytes.len() - self.at);
        buf[..count].copy_from_slice(&self.bytes[self.at..self.at + count]);
        self.at += count;
        Ok(count)
    }
}

/// A sink that takes all there is, and keeps none of it.
#[derive(Clone, Copy, Debug)]
pub struct SureSink;

impl Sink for SureSink {
    ghost written = { λ _. None };

    ghost faults = { λ _. 0 };

    fn write(&mut self, bytes: &[u8]) -> Result<usize, Failed> {
        Ok(bytes.len())
    }
}
