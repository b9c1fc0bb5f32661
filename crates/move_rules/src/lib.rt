//! A node takes a frame about a queue or set that moves, about its process's birth, or about its own leaving.
#![tactic(auto)]

mod births;
mod handing;
mod leaving;
mod moves;

pub use births::take_checkpoint;
pub use handing::take_recall_all;
pub use leaving::take_leaving;
pub use moves::{take_give_back, take_grant, take_recall, take_suggest};
