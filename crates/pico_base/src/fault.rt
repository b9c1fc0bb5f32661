//! Want of memory, and bytes that are no body.
ghost use Rattle.std.specs.Prelude.{◌≡◌};
ghost use Rattle.pico_base.specs.declared.fault.UnpackFault.TheVariants.{Memory as OutOfMemory};

use std::alloc::{AllocError, AllocFailed};
use thiserror::Error;

/// An allocation was refused. The call that answers it says what stands afterwards.
#[derive(Clone, Copy, Debug, PartialEq, Eq, Error)]
#[error("out of memory")]
pub struct Memory;

impl From<AllocError> for Memory {
    fn from(_: AllocError) -> Self {
        Memory
    }
}

impl<T: Drop> From<AllocFailed<T>> for Memory {
    fn from(_: AllocFailed<T>) -> Self {
        Memory
    }
}

/// Why packed bytes gave no value.
#[derive(Clone, Copy, Debug, PartialEq, Eq, Error)]
pub enum UnpackFault {
    /// An allocation was refused.
    #[error("out of memory")]
    Memory,
    /// The bytes are outside the grammar of the body.
    #[error("not a body")]
    NotABody,
}

impl From<Memory> for UnpackFault {
    ghost from_gives = { λ _ e. e ≡ OutOfMemory };

    fn from(_: Memory) -> Self {
        UnpackFault::Memory
    }
}

impl From<AllocError> for UnpackFault {
    ghost from_gives = { λ _ e. e ≡ OutOfMemory };

    fn from(_: AllocError) -> Self {
        UnpackFault::Memory
    }
}

impl<T: Drop> From<AllocFailed<T>> for UnpackFault {
    ghost from_gives = { λ _ e. e ≡ OutOfMemory };

    fn from(_: AllocFailed<T>) -> Self {
        UnpackFault::Memory
    }
}
