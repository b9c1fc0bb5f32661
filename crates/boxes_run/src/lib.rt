//! A run of several sandboxes at once: each has a run with threads of its own, with its own nodes, streams and journal,
//! so what a sandbox comes to is what a run of its script alone may come to.
#![tactic(auto)]

mod job;
mod running;
mod shifted;

pub use job::Job;
pub use running::{RestedList, run_all};
