//! Why a run ends early.
use std::alloc::AllocError;
use thiserror::Error;

/// Why a run ends early.
#[derive(Clone, Copy, Debug, Error)]
pub enum Fault {
    #[error("there is not enough memory")]
    Memory(#[from(alloc)] AllocError),
    /// A hole stands in a type that the table did not make.
    #[error("a hole was not made")]
    NotMade,
}
