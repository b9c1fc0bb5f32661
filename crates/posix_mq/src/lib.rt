//! POSIX message queues over System V's: a script of theirs is read as a script of System V, and the history of its run
//! is told as one of theirs.
#![tactic(auto)]

mod follow;
mod forms;
mod progress;
mod read;
mod says;
mod script;
mod show;
mod system_v;
mod text;

pub use mq_model::MqErrno;
pub use read::read_mq;
pub use script::MqScript;
pub use text::mq_trace;
