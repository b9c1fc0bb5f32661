//! A run of a script with a thread for each of its picoprocesses. The nodes share nothing but streams of bytes and the
//! journal under its lock. Each thread makes turns of its node until it is quiet; then what the nodes logged is merged
//! to one run of the machine, and what is left of that run is stepped to rest.
#![tactic(auto)]

mod beds;
mod grid;
mod joining;
mod merging;
mod opening;
mod rested;
mod resting;
mod running;
mod settling;
mod threads;

pub use rested::{Partings, Rested};
pub use running::run;
