//! The kinds of frame.
use crate::{Asked, PackedDeed, Parcel};
use pico_base::{Call, Kind, Name, Node, Pid, Reply, Sequence, Vars};

/// A message from one picoprocess to another. Node 1 is the leader. A ticket numbers the calls that a node has
/// started, from 1.
#[derive(Debug, PartialEq, Eq, Drop)]
pub enum Frame {
    /// To the leader: carry out this call of my process, which is under way here under this ticket.
    Ask {
        ticket: u32,
        pid: Pid,
        call: Call,
    },
    /// To the owner that a cache names: carry out this call of my process, which is under way here under this ticket.
    Request {
        ticket: u32,
        pid: Pid,
        call: Call,
    },
    /// From the leader to the holder of the call's name: carry it out, and answer the caller.
    Forward {
        asked: Asked,
    },
    /// To the leader: the call's name isn't here any more. See to it anew.
    Bounce {
        asked: Asked,
    },
    /// From who carried it out to the caller: the call with this ticket has this reply.
    Answer {
        ticket: u32,
        reply: Reply,
    },
    /// To the sender of a Request: I don't own the name of the call with this ticket.
    NotOwner {
        ticket: u32,
    },
    /// To the leader: I need the next range of new numbers of this kind.
    LeaseAsk {
        kind: Kind,
    },
    /// From the leader: the next numbers of this kind are yours, from `first` on.
    Lease {
        kind: Kind,
        first: u32,
    },
    /// To the leader, from who made it: the new name is at this node.
    Placed {
        name: Name,
        node: Node,
    },
    /// From a parent's node to the node of its new child: its number, its parent's, its deed, and the variables that
    /// it begins with.
    Checkpoint {
        pid: Pid,
        parent: Pid,
        deed: PackedDeed,
        vars: Vars,
    },
    /// From an owner to the leader: the name would be better at this node, which uses it most.
    Suggest {
        name: Name,
        node: Node,
    },
    /// From the leader to an owner: give the name back.
    Recall {
        name: Name,
    },
    /// From an owner to the leader: the deed that it gives back.
    GiveBack {
        deed: PackedDeed,
    },
    /// From the leader to a new owner: its deed.
    Grant {
        deed: PackedDeed,
    },
    /// To the leader: my process has made its last call.
    Leaving {
        pid: Pid,
        parent: Pid,
        parent_node: Node,
    },
    /// From the leader to a node that leaves: hand over all that you hold.
    RecallAll,
    /// To the leader: all that I held. I carry out nothing any more.
    Left {
        parcel: Parcel,
    },
    /// From the leader to the owner of the parent: end this process.
    ExitTo {
        parcel: Parcel,
    },
    /// From a node to the leader, or from the leader to where the call waits: a signal interrupts this call, which is
    /// under way at its caller under this ticket. `asked.call` is a `Withdraw` of the queue or set where it waits.
    Cancel {
        asked: Asked,
    },
}

/// Frames, in order.
pub type Frames = Sequence<Frame>;
