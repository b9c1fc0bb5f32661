//! Why a stream gave no frame.
ghost use Rattle.std.specs.Prelude.{◌≡◌};
ghost use Rattle.frame_bytes.specs.declared.fault.FrameFault.TheVariants.{Memory as OutOfMemory};

use std::alloc::{AllocError, AllocFailed};
use thiserror::Error;

/// Why a piece of a stream gave no frame.
#[derive(Clone, Copy, Debug, PartialEq, Eq, Error)]
pub enum FrameFault {
    /// An allocation was refused. The piece isn't taken.
    #[error("out of memory")]
    Memory,
    /// A length above 262,144 stands where a frame was to begin. It lasts.
    #[error("a frame is too long")]
    TooLong,
    /// A length 0, or bytes that no frame spells, stand where a frame was to begin. It lasts.
    #[error("not a frame")]
    NotAFrame,
}

impl From<AllocError> for FrameFault {
    ghost from_gives = { λ _ e. e ≡ OutOfMemory };

    fn from(_: AllocError) -> Self {
        FrameFault::Memory
    }
}

impl<T: Drop> From<AllocFailed<T>> for FrameFault {
    ghost from_gives = { λ _ e. e ≡ OutOfMemory };

    fn from(_: AllocFailed<T>) -> Self {
        FrameFault::Memory
    }
}
