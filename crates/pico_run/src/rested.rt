//! What a run with threads comes to.
use journal_core::Journal;
use node_log::Parting;
use pico_base::{Event, Sequence};
use stamp_merge::Merged;
use world_core::World;

/// What each node's turns came to, by rising node.
pub type Partings = Sequence<Parting>;

/// A run that has come to rest: its journal, in which each entry has its event's stamp and the seat of the node that
/// made it; its events, by stamp and node; the world after them; and what the threads left.
#[derive(Drop)]
pub struct Rested {
    pub journal: Journal,
    pub events: Merged<Event>,
    pub world: World,
    pub partings: Partings,
}
