//! The children of a process: those that live, and those that have ended and weren't waited for.
#![tactic(auto)]

mod checking;
mod ended;
mod family;
mod reading;
mod writing;

pub use family::{Family, Waited};
