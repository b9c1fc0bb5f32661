//! The lines of a script as a process runs them: the call of a line, with the values of the process's variables.
#![tactic(auto)]

mod calls;

pub use calls::{call_naming, call_with};
