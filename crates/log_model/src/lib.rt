//! A node that logs, by definitions: what it finds on its streams, the turn that it makes of that, and what its log
//! says of all its turns. The node's code and the laws of the threads cite the same words. No call runs here.
#![tactic(auto)]

mod answer;
mod found;

pub use answer::{LogFault, TurnAnswer};
pub use found::Found;
