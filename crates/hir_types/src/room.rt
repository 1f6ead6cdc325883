//! How large a type may be made.
ghost use Rattle.std.specs.Prelude.{◌<◌, IfOk};

use std::alloc::AllocError;

/// How many types may be made at once. What inference builds can grow exponentially with a body, as
/// in nested `let b = (a, a);`: beyond this it is more than memory is taken for.
const MOST_TYPES: u32 = 1 << 20;

/// How many levels a made type may have, so that nothing that goes down a type runs out of stack.
pub const MOST_LEVELS: u32 = 1 << 10;

/// How many types may still be made.
#[derive(Debug, Drop)]
pub struct Room {
    types: u32,
}

impl Room {
    /// The room of one value.
    pub fn new() -> Room {
        Room { types: MOST_TYPES }
    }

    /// Takes the room of one type that may have so many levels, and answers how many the types in it
    /// may have, or says that memory is wanting.
    pub fn take(&mut self, levels: u32) -> Result<u32, AllocError>
        ensures { IfOk result (λ below. below < levels) }
    {
        match (self.types.checked_sub(1), levels.checked_sub(1)) {
            (Some(types), Some(below)) => {
                self.types = types;
                Ok(below)
            }
            _ => Err(AllocError),
        }
    }
}
