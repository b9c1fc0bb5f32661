//! Why a turn made no step.
ghost use Rattle.std.specs.Prelude.{◌≡◌};
ghost use Rattle.node_state.specs.declared.fault.TurnFault.TheVariants.{Memory as OutOfMemory};

use pico_base::Memory;
use thiserror::Error;

/// Why a turn wasn't made.
#[derive(Clone, Copy, Debug, PartialEq, Eq, Error)]
pub enum TurnFault {
    /// An allocation was refused, in this turn or in an earlier one, or the turn met a state that no run of a script
    /// leads to. The node is spent.
    #[error("out of memory")]
    Memory,
    /// The node has no rule for the input: it can't run, or the frame doesn't fit it. The node is unchanged.
    #[error("not allowed here")]
    NotAllowed,
}

/// What a rule answers where no run of a script leads, so that it needs no invariant. No allocation was refused, but
/// what follows is the same: the node is spent.
#[inline(always)]
pub fn unreached() -> Memory {
    Memory
}

impl From<Memory> for TurnFault {
    ghost from_gives = { λ _ e. e ≡ OutOfMemory };

    fn from(_: Memory) -> TurnFault {
        TurnFault::Memory
    }
}
