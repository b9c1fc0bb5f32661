//! What a process knows of signals: its actions, its mask, what is pending, how often each signal was
//! caught, and the signal by which it will end.
#![tactic(auto)]

mod reading;
mod signals;
mod writing;

/// How many bytes a packed signal state has.
pub const PACKED: usize = 55;

pub use signals::Signals;
