//! What a node is: its life, its process's calls, the deeds that it holds with the watches over them, the numbers that
//! it may give, its cache of owners, and what the leader has besides. And a step that grows.
#![tactic(auto)]

mod fault;
pub mod forms;
mod growing;
mod leader;
mod leases;
mod state;
mod watches;

pub use fault::{TurnFault, unreached};
pub use growing::{Growing, Sends};
pub use leader::Leader;
pub use leases::Leases;
pub use state::{LEADER, Stage, State};
pub use watches::Watches;
