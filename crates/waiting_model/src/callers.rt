//! Callers that wait at a queue or a set, and callers that are woken.
use pico_base::{Call, Node, Pid, Reply, Sequence};

/// A caller that waits: the call that parked, its process, and where its reply is to go. The kernel itself knows of
/// no nodes and tickets; there both are 0.
#[derive(Debug, Drop)]
pub struct Waiting {
    /// The node of the caller.
    pub caller: Node,
    /// The caller's number for the call, at least 1.
    pub ticket: u32,
    pub pid: Pid,
    pub call: Call,
}

/// A caller that is woken, with the reply to its call and where it is to go.
#[derive(Debug, Drop)]
pub struct Wake {
    pub caller: Node,
    pub ticket: u32,
    pub pid: Pid,
    pub reply: Reply,
}

/// Callers that are woken, in order.
pub type Wakes = Sequence<Wake>;

/// What a call on a queue or a set comes to: the caller's own reply, none where it parks, and whom the call wakes.
#[derive(Debug, Drop)]
pub struct Applied {
    pub own: Option<Reply>,
    pub wakes: Wakes,
}
