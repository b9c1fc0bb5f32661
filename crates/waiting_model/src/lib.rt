//! The kernel of one POSIX system in which callers wait, by definitions: who parks, whom a call wakes, and who may
//! withdraw. `specs/` has a file for each subject; what waiting doesn't change is `kernel_model`'s. No code runs here.
#![tactic(auto)]

mod callers;

pub use callers::{Applied, Waiting, Wake, Wakes};
