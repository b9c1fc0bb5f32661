//! What a node does with the deeds that it holds: it carries calls out on their bodies, as the kernel would.
#![tactic(auto)]

mod body;
mod carrying;
mod ending;
mod laws;
mod own;
mod packing;
mod prompt;
mod queues;
mod rows;
mod serving;
mod sets;
mod shared;
mod unpacking;
mod waiters;
mod waiting;
mod who;

pub use body::{Body, Row};
pub use ending::{ServeFault, commit_exit};
pub use laws::{read_bodies_are_spelled, spelled_bodies_are_read};
pub use own::reply_on_own;
pub use prompt::{Replied, reply_at_once};
pub use serving::{Readers, Served, bury, name_for, serve};
pub use unpacking::is_unawaited;
pub use waiters::{Withdrawn, callers, withdraw};
pub use who::Who;
