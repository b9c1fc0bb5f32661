//! A seat at the journal's lock.
ghost use Rattle.std.specs.Prelude.{◌≡◌};

use crate::Journal;
use crate::view::View;
use atomic_table::Seat;
use pico_base::Sequence;
use std::marker::Model;

/// A seat at a journal's lock, for one thread at a time. Contracts see its lock, its number, the entries that it has
/// appended, in order and with their stamps, and the journal that it has seen.
#[derive(Drop)]
pub struct JSeat {
    pub(crate) number: u32,
    pub(crate) seat: Seat<Journal, View>,
}

impl Model for JSeat {
    ghost use Rattle.journal_core.specs.Seated.{Seated};

    ghost Value = { Seated };

    ghost use Rattle.journal_core.specs.Inside.{seated, IsIdle};

    ghost view = { seated };

    ghost invariant = { IsIdle };
}

/// The seats of a lock, by number.
pub type Seats = Sequence<JSeat>;

impl JSeat {
    /// Its number at the lock, from 1.
    pub fn number(&self) -> u32
        ensures { result ≡ self.now.number }
    {
        self.number
    }
}
