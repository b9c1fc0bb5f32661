//! A picoprocess: it starts the calls of its process and takes the frames of other nodes, each in a turn that gives the
//! entries made and the frames to send.
#![tactic(auto)]

mod coming;
mod node;
mod rules;
mod turn;
mod unspent;

pub use node::PicoNode;
pub use node_state::{Sends, TurnFault};
pub use turn::{Input, Turn};
