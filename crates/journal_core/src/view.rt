//! What a seat at the table knows. No value of these types is made: they are for the rule and its proofs alone.
use crate::Journal;
use pico_base::Sequence;

/// What a seat had appended and seen when it was joined into the first seat.
pub struct Share {
    pub own: Journal,
    pub seen: Journal,
}

/// The number of the seat (0 where it was joined into another), its own entries in order, the journal that it has seen,
/// the ticket that it has drawn, counted from the first ticket of all, whether it has taken the journal, and, at the
/// first seat, the shares of the seats 2, 3, .. that were joined into it, and how many seat numbers were given out.
pub struct View {
    pub number: u32,
    pub own: Journal,
    pub seen: Journal,
    pub ticket: Option<u64>,
    pub taken: bool,
    pub joined: Sequence<Share>,
    pub given: u32,
}
