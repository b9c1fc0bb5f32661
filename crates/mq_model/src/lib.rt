//! POSIX message queues by definitions, in words of their own: what a call does, which histories are legal and fit a
//! given script, and the script of System V that runs it. `specs/` has a file for each subject. No call runs here.
#![tactic(auto)]

mod errno;
mod lines;

pub use errno::MqErrno;
pub use lines::{MqCall, MqLine, MqLines};
