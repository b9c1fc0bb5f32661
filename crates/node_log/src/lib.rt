//! A node that logs: a picoprocess over streams of bytes, with a seat at the journal that all share. Each turn takes in
//! what came, makes one event of the machine of it, and notes the event under its stamp.
#![tactic(auto)]

mod logged;
mod looks;
mod made;
mod parting;
mod stamps;
mod works;

pub use log_model::{LogFault, TurnAnswer};
pub use logged::Logged;
pub use node_lines::{End, Ends};
pub use parting::{Finished, Log, Parting};
