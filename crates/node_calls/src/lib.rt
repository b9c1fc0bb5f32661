//! Where a process is in its block of the script: the call due, the call under way, and its variables.
#![tactic(auto)]

mod caller;
mod laws;
mod lines;
mod replies;
mod variables;
mod waits;

pub use caller::Caller;
pub use laws::{callers_begin_at_their_blocks, replies_move_places};
pub use waits::may_park;
