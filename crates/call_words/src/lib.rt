//! The words that calls are written with, in scripts and in traces: the names of calls, of signals, of what a signal
//! does and of how a mask changes.
#![tactic(auto)]

mod names;
mod same;
mod verb;

pub use names::{action_name, how_name, signal_argument, signal_name};
pub use same::{is_five, is_four, is_six};
pub use verb::Verb;
