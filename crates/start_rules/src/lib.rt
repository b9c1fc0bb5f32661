//! A node starts its process's next call, and takes the frames that answer it.
#![tactic(auto)]

mod answers;
mod asking;
mod ending;
mod making;
mod starting;

pub use answers::{take_answer, take_not_owner};
pub use starting::run;
