//! Who makes a call.
use pico_base::{Node, Pid};

/// Who makes a call: the node where its reply is to go, its number there, and its process.
#[derive(Clone, Copy, Debug)]
pub struct Who {
    pub caller: Node,
    pub ticket: u32,
    pub pid: Pid,
}
