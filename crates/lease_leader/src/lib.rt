//! The leader's directory: who was given which range of numbers, the place of each known name with what is held for it,
//! and who is leaving or has left.
#![tactic(auto)]

mod directory;
mod parcels;
mod partings;
mod ranges;
mod spot;
mod spots;

pub use directory::Directory;
pub use node_model::{Held, Route};
pub use spot::HeldList;
