//! A call that a node asks for.
use pico_base::{Call, Node, Pid};

/// A call that its caller asked for, on its way to whom it is to be carried out by: the node of the caller, the ticket
/// under which the call is under way there, the caller's process number, and the call.
#[derive(Debug, PartialEq, Eq, Drop)]
pub struct Asked {
    pub caller: Node,
    pub ticket: u32,
    pub pid: Pid,
    pub call: Call,
}
