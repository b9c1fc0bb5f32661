//! What a turn of the parts comes to, and what a node that logs makes of that.
ghost use Rattle.std.specs.Prelude.{◌≡◌};
ghost use Rattle.stream_pair.specs.Ends.{after_looks};
ghost use Rattle.log_model.specs.Turns.{answer_of, one_more_quiet};
ghost use Rattle.node_log.specs.Parts.{answer_after, fault_after, made_of, quiet_after};

use log_model::{LogFault, TurnAnswer};

/// What a turn came to, where it had no fault.
#[derive(Clone, Copy, Debug, PartialEq, Eq)]
pub(crate) enum Made {
    /// An event.
    Event,
    /// A piece of a frame was taken.
    Part,
    /// There was nothing to do.
    Nothing,
}

/// An event, where it was made.
pub(crate) fn made_of(done: Result<(), LogFault>) -> Result<Made, LogFault>
    ensures { result ≡ made_of done }
{
    match done {
        Ok(()) => Ok(Made::Event),
        Err(fault) => Err(fault),
    }
}

/// What each turn answers after a fault.
pub(crate) fn answer_of(fault: LogFault) -> TurnAnswer
    ensures { result ≡ answer_of fault }
{
    match fault {
        LogFault::Memory => TurnAnswer::Memory,
        LogFault::BadFrame => TurnAnswer::BadFrame,
        LogFault::StampEnd { last } => TurnAnswer::StampEnd { last },
    }
}

/// The answer to who has the turn made.
pub(crate) fn answer_after(turned: &Result<Made, LogFault>) -> TurnAnswer
    ensures { result ≡ answer_after turned.now }
{
    match turned {
        Ok(Made::Event) => TurnAnswer::Did,
        Ok(Made::Part) => TurnAnswer::Piece,
        Ok(Made::Nothing) => TurnAnswer::Idle,
        Err(fault) => answer_of(*fault),
    }
}

/// Why there are no turns any more.
pub(crate) fn fault_after(turned: &Result<Made, LogFault>) -> Option<LogFault>
    ensures { result ≡ fault_after turned.now }
{
    match turned {
        Ok(_) => None,
        Err(fault) => Some(*fault),
    }
}

/// How many turns in a row found nothing.
pub(crate) fn quiet_after(quiet: u64, turned: &Result<Made, LogFault>) -> u64
    ensures { result ≡ quiet_after quiet turned.now }
{
    match turned {
        Ok(Made::Nothing) => quiet.saturating_add(1),
        _ => 0,
    }
}

/// How many turns in a row found nothing, after so many more.
pub(crate) fn quiet_on(quiet: u64, turns: u64) -> u64
    ensures { result ≡ after_looks turns quiet }
{
    quiet.saturating_add(turns)
}
