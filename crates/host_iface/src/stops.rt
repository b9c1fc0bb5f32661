//! Why not all was read or written.
ghost use Rattle.std.specs.Prelude.{◌≡◌};
ghost use Rattle.host_iface.specs.declared.stops.ReadStop.TheVariants.{Memory as OutOfMemory, Fault};

use crate::Failed;
use pico_base::Bytes;
use std::alloc::AllocError;
use thiserror::Error;

/// Why a source wasn't read to its end.
#[derive(Debug, Drop, PartialEq, Eq, Error)]
pub enum ReadStop {
    /// An allocation was refused. The source may have been read in part or whole.
    #[error("out of memory")]
    Memory,
    /// A read failed. What was read before is lost.
    #[error("a read failed")]
    Fault,
    /// There are more bytes than the limit.
    #[error("more bytes than the limit")]
    TooLong {
        /// The first bytes, one more than the limit.
        read: Bytes,
    },
}

impl From<AllocError> for ReadStop {
    ghost from_gives = { λ _ e. e ≡ OutOfMemory };

    fn from(_: AllocError) -> Self {
        ReadStop::Memory
    }
}

impl From<Failed> for ReadStop {
    ghost from_gives = { λ _ e. e ≡ Fault };

    fn from(_: Failed) -> Self {
        ReadStop::Fault
    }
}

/// Why a sink didn't take all bytes.
#[derive(Clone, Copy, Debug, PartialEq, Eq, Error)]
pub enum WriteStop {
    /// A write failed.
    #[error("a write failed after {taken} bytes")]
    Fault {
        /// How many bytes were taken before.
        taken: usize,
    },
}
