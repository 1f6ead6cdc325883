//! The ends that a run reads from and writes to.
ghost use Rattle.std.specs.Prelude.{◌≡◌, ℕ, List, [], Option, Result};
ghost use Rattle.std.specs.Io.{ReadsAtMost, WritesAtMost};
ghost use Rattle.std.specs.Io.KnownBytes.{ReadConsumes, WriteAppends};
ghost use Rattle.infer_run.specs.Causes.{HasCause};

mod memory;
mod standard;
mod sure;

pub use memory::{MemorySink, MemorySource};
pub use standard::{StdSink, StdSource};
pub use sure::{SureSink, SureSource};

/// An end failed, and has counted it.
#[derive(Clone, Copy, Debug)]
pub struct Failed;

/// Where bytes come from. `left` is what has not been read yet, where the source tells it, and
/// `faults` counts failures, up to the type's last value.
pub trait Source {
    ghost left: { Self → Option (List ℕ) };

    ghost faults: { Self → ℕ };

    /// Reads some bytes into the front of a buffer, and says how many; none at the end of input.
    fn read(&mut self, buf: &mut [u8]) -> Result<usize, Failed>
        ensures bound { ReadsAtMost result buf.new }
        ensures bytes { ReadConsumes (left self.old) (left self.new) result buf.new }
        ensures cause { HasCause (faults self.old) (faults self.new) result };
}

/// Where bytes go to. `written` is all that was written, where the sink tells it, and `faults`
/// counts failures, up to the type's last value.
pub trait Sink {
    ghost written: { Self → Option (List ℕ) };

    ghost faults: { Self → ℕ };

    /// Writes a front of the bytes, and says how many they are; at least one where there is one.
    fn write(&mut self, bytes: &[u8]) -> Result<usize, Failed>
        ensures bound { WritesAtMost result bytes.now }
        ensures bytes { WriteAppends (written self.old) (written self.new) result bytes.now }
        ensures some { (result ≡ Result.Ok 0) → bytes.now ≡ [] }
        ensures cause { HasCause (faults self.old) (faults self.new) result };
}
