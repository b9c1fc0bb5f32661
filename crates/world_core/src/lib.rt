//! The world of picoprocesses as one plain value: its nodes, the frames on their way between them, and the journal.
//! It carries out one event at a time, and says which events may come next.
#![tactic(auto)]

ghost use Rattle.world_core.specs.Laws.{RestIsWhereNothingIsChosen};

mod counts;
mod inbox;
mod state;
mod stream;
mod streaming;
mod world;

pub use streaming::StreamingWorld;
pub use world::World;

/// A schedule finds no event only where the world is at rest, in each world that a run leads to.
pub fn rest_is_where_nothing_is_chosen()
    ensures { RestIsWhereNothingIsChosen }
{}
