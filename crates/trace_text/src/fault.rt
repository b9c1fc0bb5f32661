//! Why a trace isn't that of a legal history.
ghost use Rattle.std.specs.Prelude.{◌≡◌};
ghost use Rattle.trace_text.specs.declared.fault.CheckFault.TheVariants.{Memory as OutOfMemory};

use pico_base::{Call, Memory, Outcome};
use std::alloc::AllocError;
use thiserror::Error;

/// The first fault of a trace. A line is counted from the one that the caller gives for the trace's first one.
#[derive(Debug, Drop, Error)]
pub enum CheckFault {
    /// An allocation was refused.
    #[error("out of memory")]
    Memory,
    /// The line isn't in the grammar of a trace, its totals are wrong or none, one follows them, or a limit is passed.
    #[error("line {line}: not a trace")]
    NotATrace {
        line: u32,
    },
    /// The kernel has no transition here, or another outcome: another reply of the caller's own, or other callers that
    /// are woken.
    #[error("line {line}: another outcome than the kernel's")]
    Illegal {
        line: u32,
        /// What the call comes to in the kernel; none where it has no transition.
        kernel: Option<Outcome>,
        /// What it comes to by the line.
        trace: Outcome,
    },
    /// The call isn't the one that is due by the script.
    #[error("line {line}: another call than the one that is due")]
    NotTheScript {
        line: u32,
        /// The call that is due; none where nothing is.
        due: Option<Call>,
        /// The call of the line; none at the totals.
        found: Option<Call>,
    },
}

impl From<Memory> for CheckFault {
    ghost from_gives = { λ _ e. e ≡ OutOfMemory };

    fn from(_: Memory) -> Self {
        CheckFault::Memory
    }
}

impl From<AllocError> for CheckFault {
    ghost from_gives = { λ _ e. e ≡ OutOfMemory };

    fn from(_: AllocError) -> Self {
        CheckFault::Memory
    }
}
