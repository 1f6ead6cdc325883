//! Ends in memory.
ghost use Rattle.std.specs.Prelude.{◌≡◌, ◌≤◌, [], length, drop, Some, IfOk};

use super::{Failed, Sink, Source};
use std::alloc::{AllocError, Global};

/// Bytes that are read in pieces of a most length, with some calls, counted from 0, that fail.
#[derive(Drop)]
pub struct MemorySource {
    bytes: Vec<u8>,
    at: usize,
    most: usize,
    call: u64,
    fails: Vec<u64>,
    faults: u64,
    ghost within: { at ≤ length bytes.items },
    ghost moves: { 1 ≤ most },
}

impl MemorySource {
    /// A source of these bytes, none of which has been read.
    pub fn new(bytes: Vec<u8>, most: usize, fails: Vec<u64>) -> MemorySource
        requires { 1 ≤ most }
        ensures bytes { result.bytes.items ≡ bytes.items }
        ensures start { result.at ≡ 0 }
        ensures most { result.most ≡ most }
        ensures call { result.call ≡ 0 }
        ensures fails { result.fails.items ≡ fails.items }
        ensures none { result.faults ≡ 0 }
    {
        MemorySource {
            bytes,
            at: 0,
            most,
            call: 0,
            fails,
            faults: 0,
        }
    }
}

impl Source for MemorySource {
    ghost left = { λ s. Some (drop s.at s.bytes.items) };

    ghost faults = { λ s. s.faults };

    /// Reads what fits, at most `most` bytes, or fails at a call that is to fail. That it fails at no
    /// other is tested; the clauses are those of `Source` alone.
    fn read(&mut self, buf: &mut [u8]) -> Result<usize, Failed> {
        let call = self.call;
        self.call = call.saturating_add(1);
        if self.fails.contains(&call) {
            self.faults = self.faults.saturating_add(1);
            return Err(Failed);
        }
        let count = buf.len().min(self.most).min(self.bytes.len() - self.at);
        buf[..count].copy_from_slice(&self.bytes[self.at..self.at + count]);
        self.at += count;
        Ok(count)
    }
}

/// What was written in pieces of a most length, with some calls, counted from 0, that fail. The
/// room is made with the sink, and a call that finds none left fails.
#[derive(Drop)]
pub struct MemorySink {
    bytes: Vec<u8>,
    room: usize,
    most: usize,
    call: u64,
    fails: Vec<u64>,
    faults: u64,
}

impl MemorySink {
    /// An empty sink with room for so many bytes.
    pub fn new(
        alloc: Global,
        room: usize,
        most: usize,
        fails: Vec<u64>,
    ) -> Result<MemorySink, AllocError>
        ensures bytes { IfOk result (λ s. s.bytes.items ≡ []) }
        ensures room { IfOk result (λ s. s.room ≡ room) }
        ensures most { IfOk result (λ s. s.most ≡ most) }
        ensures call { IfOk result (λ s. s.call ≡ 0) }
        ensures fails { IfOk result (λ s. s.fails.items ≡ fails.items) }
        ensures none { IfOk result (λ s. s.faults ≡ 0) }
    {
        let bytes = Vec::with_capacity(alloc, room)?;
        Ok(MemorySink {
            bytes,
            room,
            most,
            call: 0,
            fails,
            faults: 0,
        })
    }

    /// All that was written.
    pub fn bytes(&self) -> &[u8]
        ensures { result.now ≡ self.now.bytes.items }
    {
        self.bytes.as_slice()
    }
}

impl Sink for MemorySink {
    ghost written = { λ s. Some s.bytes.items };

    ghost faults = { λ s. s.faults };

    /// Writes at most `most` bytes, as far as there is room. It fails at a call that is to fail, and
    /// where there is no room for one byte. That it fails nowhere else is tested; the clauses are
    /// those of `Sink` alone.
    fn write(&mut self, bytes: &[u8]) -> Result<usize, Failed> {
        let call = self.call;
        self.call = call.saturating_add(1);
        let left = self.room.saturating_sub(self.bytes.len());
        let count = bytes.len().min(self.most).min(left);
        if self.fails.contains(&call)
            || (count == 0 && !bytes.is_empty())
            || self.bytes.extend_from_slice(&bytes[..count]).is_err()
        {
            self.faults = self.faults.saturating_add(1);
            return Err(Failed);
        }
        Ok(count)
    }
}
