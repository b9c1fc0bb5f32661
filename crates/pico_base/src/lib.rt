//! The plain values that every layer speaks of: numbers, signals, calls, replies and scripts.
#![tactic(auto)]

mod call;
mod fault;
mod homes;
mod numbers;
mod reply;
mod script;
mod sequence;
mod signal;

pub use call::{Call, Home, SemStep, Steps};
pub use fault::{Memory, UnpackFault};
pub use homes::home;
pub use numbers::{Id, Key, Kind, Name, Node, Pid};
pub use reply::{EndedChild, Ending, Entries, Entry, Errno, Outcome, Reply, Woken};
pub use script::{Block, Blocks, Event, Line, Lines, Script, Var, Vars};
pub use sequence::{Bytes, Sequence, Values};
pub use signal::{Act, How, PerSignal, SIGNALS, Sig, SigArg, SigSet};
