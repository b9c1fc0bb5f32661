//! What frames bring of deeds: packed deeds, calls that were asked, and parcels.
use pico_base::{Bytes, Call, Name, Pid, Sequence};

/// A deed on its way: the right to carry out calls on a name, together with the state of what it names, as bytes.
#[derive(Debug, PartialEq, Eq, Drop)]
pub struct PackedDeed {
    pub name: Name,
    pub body: Bytes,
}

/// Deeds on their way together.
pub type PackedDeeds = Sequence<PackedDeed>;

/// What a process hands over at its end: its number and its parent's, the call that ends it, and its deeds, its own
/// and those of its ended children, by rising number.
#[derive(Debug, PartialEq, Eq, Drop)]
pub struct Parcel {
    pub pid: Pid,
    pub parent: Pid,
    pub call: Call,
    pub deeds: PackedDeeds,
}
