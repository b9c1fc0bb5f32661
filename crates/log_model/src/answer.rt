//! What a turn comes to.

/// Why a node that logs makes no turns any more. Each later turn answers the same.
#[derive(Clone, Copy, Debug, PartialEq, Eq)]
pub enum LogFault {
    /// An allocation was refused in a turn.
    Memory,
    /// A joiner refused bytes, one piece completed more than one frame, or the frame, or the line that the turn would
    /// run, has no rule.
    BadFrame,
    /// No stamp is left for an event that has a rule: `last` is at least 2^63 - 1.
    StampEnd { last: u64 },
}

/// What a turn of a node that logs comes to.
#[derive(Clone, Copy, Debug, PartialEq, Eq)]
pub enum TurnAnswer {
    /// An event was made: a frame was taken, or a line was run.
    Did,
    /// A piece of a frame came, no frame is complete, and no line can be run.
    Piece,
    /// Nothing came, and no line can be run.
    Idle,
    /// An allocation was refused, in this turn or in an earlier one.
    Memory,
    /// As `LogFault` says, in this turn or in an earlier one.
    BadFrame,
    /// As `LogFault` says, in this turn or in an earlier one.
    StampEnd { last: u64 },
}
