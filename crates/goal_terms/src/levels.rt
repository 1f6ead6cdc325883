//! How deep a term may be.
ghost use Rattle.std.specs.Prelude.{◌≡◌, ◌+◌, IfOk};

use std::alloc::AllocError;

/// Takes one of the levels that a term may have, so that no recursion runs out of stack, or says
/// that memory is wanting.
pub(crate) fn one_level(levels: u32) -> Result<u32, AllocError>
    ensures { IfOk result (λ below. levels ≡ below + 1) }
{
    levels.checked_sub(1).ok_or(AllocError)
}
