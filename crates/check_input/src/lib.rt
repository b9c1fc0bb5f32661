//! What `check` reads: the script before the line `trace`, and the trace behind it.
#![tactic(auto)]

mod parts;

pub use parts::{Parts, read_checked};
