//! The rule of a stream's queue: what was sent is what was taken, followed by what the queue holds. Each kind of step
//! has a name here: send, take, take that finds nothing, part the two ends, put them together.
use crate::piece::{Parcel, Piece};
use crossbeam_queue::protocol::{Join, Lesson, Outcome, Protocol, Split};
use crossbeam_queue::{RuledSegQueue, SegPass};
use std::collections::LinkedList;

// What an end of a stream may do, all that it has sent and all that it has taken. No value of it is made.
pub struct Hand {
    pub sends: bool,
    pub takes: bool,
    pub sent: LinkedList<Piece>,
    pub taken: LinkedList<Piece>,
}

pub struct InOrder;

impl Protocol<Parcel, Hand> for InOrder {
    ghost use Rattle.std.specs.Prelude.{true, []};
    ghost use Rattle.stream_pair.specs.Order.{hand, IsInOrder};

    ghost holds = { IsInOrder };

    ghost first = { hand true true [] [] };
}

/// The two ends part: one sends, the other takes.
pub struct Parts;

impl Split<Hand> for Parts {
    ghost use Rattle.std.specs.Prelude.{true, false, []};
    ghost use Rattle.stream_pair.specs.Order.{hand};

    ghost left = { λ h. hand true false h.sent [] };

    ghost right = { λ h. hand false true [] h.taken };
}

/// The two ends come together. The other one may do nothing more.
pub struct Meets;

impl Join<Hand> for Meets {
    ghost use Rattle.std.specs.Prelude.{true, false, []};
    ghost use Rattle.stream_pair.specs.Order.{hand};

    ghost both = { λ out into. hand true true out.sent into.taken };

    ghost spent = { hand false false [] [] };
}

/// Who sends gives away what it knows to be sent, and nothing that it may do.
pub struct Shows;

impl Split<Hand> for Shows {
    ghost use Rattle.std.specs.Prelude.{false, []};
    ghost use Rattle.stream_pair.specs.Order.{hand};

    ghost left = { λ h. h };

    ghost right = { λ h. hand false false h.sent [] };
}

/// Who takes is told what was sent.
pub struct Tells;

impl Join<Hand> for Tells {
    ghost use Rattle.std.specs.Prelude.{true, false, []};
    ghost use Rattle.stream_pair.specs.Order.{hand};

    ghost both = { λ into receipt. hand false true receipt.sent into.taken };

    ghost spent = { hand false false [] [] };
}

/// A piece goes to the end of what was sent.
pub struct Sends;

impl Outcome<Parcel, Hand> for Sends {
    ghost use Rattle.std.specs.Prelude.{◌≡◌};
    ghost use Rattle.stream_pair.specs.Order.{after_send};

    ghost then = { λ h piece new. new ≡ after_send h piece };
}

/// A piece goes to the end of what was taken; or the stream is empty.
pub struct Takes;

impl Outcome<Parcel, Hand> for Takes {
    ghost use Rattle.std.specs.Prelude.{◌≡◌};
    ghost use Rattle.stream_pair.specs.Order.{after_take};

    ghost then = { λ h piece new. new ≡ after_take h piece };
}

impl Lesson<Parcel, Hand> for Takes {
    ghost use Rattle.stream_pair.specs.Order.{WasThere};

    ghost fact = { WasThere };
}

/// The same by who has both ends, and so knows what the queue holds.
pub struct TakesOn;

impl Outcome<Parcel, Hand> for TakesOn {
    ghost use Rattle.stream_pair.specs.Order.{TakesNext};

    ghost then = { TakesNext };
}

impl Lesson<Parcel, Hand> for TakesOn {
    ghost use Rattle.std.specs.Prelude.{◌≡◌, ◌++◌};

    ghost fact = { λ h items. h.sent ≡ h.taken ++ items };
}

pub type Queue = RuledSegQueue<Parcel, Hand, InOrder>;

pub type Pass = SegPass<Parcel, Hand>;
