//! Entries as they stand in a journal.
use pico_base::{Entry, Sequence};

/// An entry of a journal, the stamp under which it was appended (from 1 to 2^63 - 1), and the number of the seat that
/// appended it (at least 1).
#[derive(Debug, PartialEq, Eq, Drop)]
pub struct Stamped {
    pub stamp: u64,
    pub seat: u32,
    pub entry: Entry,
}

/// A journal, or a part of one, in order. Entries that were appended together have one stamp.
pub type Journal = Sequence<Stamped>;
