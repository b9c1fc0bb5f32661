//! What a turn is handed and what it gives.
ghost use Rattle.std.specs.Prelude.{◌≡◌, []};

use node_state::Sends;
use pico_base::{Entries, Node};
use rpc_frame::Frame;
use std::alloc::Global;

/// What a node makes a turn of.
#[derive(Debug, PartialEq, Eq, Drop)]
pub enum Input {
    /// The node's process starts its next call.
    Run,
    /// This frame has come from the node `from`.
    Take { from: Node, frame: Frame },
}

/// What a turn gives, or several in turn: the calls that were carried out, and the frames to send.
#[derive(Debug, PartialEq, Eq, Drop)]
pub struct Turn {
    pub entries: Entries,
    pub sends: Sends,
}

impl Turn {
    /// No calls and no frames. It takes no memory.
    pub fn empty(alloc: Global) -> Turn
        ensures entries { result.entries ≡ [] }
        ensures sends { result.sends ≡ [] }
    {
        Turn {
            entries: Entries::new(alloc),
            sends: Sends::new(alloc),
        }
    }
}
