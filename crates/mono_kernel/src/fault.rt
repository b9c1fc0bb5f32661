//! Why a call made no step.
ghost use Rattle.std.specs.Prelude.{◌≡◌};
ghost use Rattle.mono_kernel.specs.declared.fault.CallFault.TheVariants.{Memory as NoMemory};

use pico_base::Memory as OutOfMemory;
use thiserror::Error;

/// Why a call was not carried out. The kernel is unchanged.
#[derive(Clone, Copy, Debug, PartialEq, Eq, Error)]
pub enum CallFault {
    #[error("out of memory")]
    Memory,
    /// The kernel has no transition here: the caller doesn't live, waits, or has nothing more to do; or
    /// the ending doesn't fit its doom; or the number for something new is 0 or used; or the caller
    /// withdraws from where it doesn't wait, or wasn't struck.
    #[error("not allowed here")]
    NotAllowed,
}

impl From<OutOfMemory> for CallFault {
    ghost from_gives = { λ _ e. e ≡ NoMemory };

    fn from(_: OutOfMemory) -> CallFault {
        CallFault::Memory
    }
}
