//! Frames as plain data, for tables.
use pico_base::{
    Bytes, Call, Id, Key, Kind, Memory, Name, Node, Pid, Reply, Sig, SigArg, Var, Vars,
};
use rpc_frame::{Asked, Frame, PackedDeed, PackedDeeds, Parcel};
use std::alloc::Global;

/// The three nodes of the script, and a number that is none of theirs.
#[derive(Clone, Copy, Debug, PartialEq, Eq)]
pub(super) enum Who {
    Leader,
    Child,
    Third,
    Nobody,
}

/// A process, a queue or a set.
#[derive(Clone, Copy)]
pub(super) enum Named {
    Proc(u32),
    Msg(u32),
    Sem(u32),
}

/// A call: on its own process, on a process, on a queue, that removes a queue, that may wait at one, that withdraws
/// from a name, by a key, by a key that is none, and the two that end a process.
#[derive(Clone, Copy)]
pub(super) enum Do {
    GetPid,
    Kill(u32),
    Stat(u32),
    Remove(u32),
    Wait(u32),
    Withdraw(Named),
    Get,
    GetByNone,
    Exit,
    Killed(Sig),
}

/// The bytes of a body, each with how often it stands in a row.
pub(super) type Body = &'static [(u8, usize)];

/// A deed: its name and its body.
pub(super) type Deed = (Named, Body);

/// What a process hands over: its number, its parent's, the call that ends it, and deeds.
pub(super) type Load = (u32, u32, Do, &'static [Deed]);

/// A frame. A ticket is counted on from that of the call that the receiver started last. What a rule doesn't look at is
/// left out: who asks has number 9 and ticket 1, a reply is 0, and a parent number 1.
#[derive(Clone, Copy)]
pub(super) enum Wire {
    Ask(Do),
    AskWithoutTicket(Do),
    Request(Do),
    Forward(Who, Do),
    Bounce(Who, Do),
    Answer(u32),
    AnswerEnded(u32),
    NotOwner(u32),
    LeaseAsk(Kind),
    Lease(Kind, u32),
    Placed(Named, Who),
    Checkpoint(u32, Deed),
    Suggest(Named, Who),
    Recall(Named),
    GiveBack(Deed),
    Grant(Deed),
    Leaving(u32, u32, Who),
    RecallAll,
    Left(Load),
    ExitTo(Load),
    Cancel(Who, Do),
}

/// The variables c and q.
pub(super) const C: Var = Var(222);

pub(super) const Q: Var = Var(1776);

pub(super) fn node_of(who: Who) -> Node {
    match who {
        Who::Leader => Node(1),
        Who::Child => Node(2),
        Who::Third => Node(3),
        Who::Nobody => Node(9),
    }
}

fn name_of(named: Named) -> Name {
    match named {
        Named::Proc(pid) => Name::Proc(Pid(pid)),
        Named::Msg(id) => Name::Msg(Id(id)),
        Named::Sem(id) => Name::Sem(Id(id)),
    }
}

pub(super) fn call_of(what: Do) -> Call {
    match what {
        Do::GetPid => Call::GetPid,
        Do::Kill(pid) => Call::Kill {
            pid: Pid(pid),
            sig: SigArg::Zero,
        },
        Do::Stat(id) => Call::MsgStat { id: Id(id) },
        Do::Remove(id) => Call::MsgRmid { id: Id(id) },
        Do::Wait(id) => Call::MsgRcv {
            id: Id(id),
            class: 0,
            size: 8,
            noerror: false,
            nowait: false,
        },
        Do::Withdraw(named) => Call::Withdraw {
            name: name_of(named),
        },
        Do::Get => Call::MsgGet {
            key: Some(Key(7)),
            create: true,
            excl: false,
        },
        Do::GetByNone => Call::MsgGet {
            key: Some(Key(0)),
            create: true,
            excl: false,
        },
        Do::Exit => Call::Exit { status: 0 },
        Do::Killed(sig) => Call::Killed { sig },
    }
}

fn asked_of(caller: Who, what: Do) -> Asked {
    Asked {
        caller: node_of(caller),
        ticket: 1,
        pid: Pid(9),
        call: call_of(what),
    }
}

fn deed_of(alloc: Global, deed: &Deed) -> Result<PackedDeed, Memory> {
    let (named, body) = deed;
    let mut bytes = Bytes::new(alloc);
    for (byte, count) in *body {
        for _ in 0..*count {
            bytes.push(*byte)?;
        }
    }
    Ok(PackedDeed {
        name: name_of(*named),
        body: bytes,
    })
}

fn parcel_of(alloc: Global, load: &Load) -> Result<Parcel, Memory> {
    let (pid, parent, what, parts) = load;
    let mut deeds = PackedDeeds::new(alloc);
    for deed in *parts {
        deeds.push(deed_of(alloc, deed)?)?;
    }
    Ok(Parcel {
        pid: Pid(*pid),
        parent: Pid(*parent),
        call: call_of(*what),
        deeds,
    })
}

/// The frame that a node is born by, with these variables, which are 0.
pub(super) fn checkpoint_of(
    alloc: Global,
    pid: u32,
    deed: &Deed,
    set: &[Var],
) -> Result<Frame, Memory> {
    let mut vars = Vars::new(alloc);
    for var in set {
        vars.push((*var, 0))?;
    }
    Ok(Frame::Checkpoint {
        pid: Pid(pid),
        parent: Pid(1),
        deed: deed_of(alloc, deed)?,
        vars,
    })
}

/// A frame with a call, and no deeds; RecallAll for any other.
fn with_call(wire: Wire) -> Frame {
    match wire {
        Wire::Ask(what) => ask_of(1, what),
        Wire::AskWithoutTicket(what) => ask_of(0, what),
        Wire::Request(what) => Frame::Request {
            ticket: 1,
            pid: Pid(9),
            call: call_of(what),
        },
        Wire::Forward(caller, what) => Frame::Forward {
            asked: asked_of(caller, what),
        },
        Wire::Bounce(caller, what) => Frame::Bounce {
            asked: asked_of(caller, what),
        },
        Wire::Cancel(caller, what) => Frame::Cancel {
            asked: asked_of(caller, what),
        },
        _ => Frame::RecallAll,
    }
}

fn ask_of(ticket: u32, what: Do) -> Frame {
    Frame::Ask {
        ticket,
        pid: Pid(9),
        call: call_of(what),
    }
}

/// A frame about a call under way, to a node that has started so many; RecallAll for any other.
fn with_ticket(wire: Wire, started: u32) -> Frame {
    match wire {
        Wire::Answer(on) => Frame::Answer {
            ticket: started.wrapping_add(on),
            reply: Reply::Num(0),
        },
        Wire::AnswerEnded(on) => Frame::Answer {
            ticket: started.wrapping_add(on),
            reply: Reply::Ended,
        },
        Wire::NotOwner(on) => Frame::NotOwner {
            ticket: started.wrapping_add(on),
        },
        _ => Frame::RecallAll,
    }
}

/// A frame of names and numbers alone; RecallAll for any other.
fn with_names(wire: Wire) -> Frame {
    match wire {
        Wire::LeaseAsk(kind) => Frame::LeaseAsk { kind },
        Wire::Lease(kind, first) => Frame::Lease { kind, first },
        Wire::Placed(named, at) => Frame::Placed {
            name: name_of(named),
            node: node_of(at),
        },
        Wire::Suggest(named, to) => Frame::Suggest {
            name: name_of(named),
            node: node_of(to),
        },
        Wire::Recall(named) => Frame::Recall {
            name: name_of(named),
        },
        Wire::Leaving(pid, parent, at) => Frame::Leaving {
            pid: Pid(pid),
            parent: Pid(parent),
            parent_node: node_of(at),
        },
        _ => Frame::RecallAll,
    }
}

/// The frame, to a node that has started so many calls. Its kinds are made by functions of their own: one with all of
/// them is dearer than these together.
pub(super) fn frame_of(alloc: Global, wire: Wire, started: u32) -> Result<Frame, Memory> {
    match wire {
        Wire::Checkpoint(pid, deed) => checkpoint_of(alloc, pid, &deed, &[C]),
        Wire::GiveBack(deed) => Ok(Frame::GiveBack {
            deed: deed_of(alloc, &deed)?,
        }),
        Wire::Grant(deed) => Ok(Frame::Grant {
            deed: deed_of(alloc, &deed)?,
        }),
        Wire::Left(load) => Ok(Frame::Left {
            parcel: parcel_of(alloc, &load)?,
        }),
        Wire::ExitTo(load) => Ok(Frame::ExitTo {
            parcel: parcel_of(alloc, &load)?,
        }),
        Wire::Answer(_) | Wire::AnswerEnded(_) | Wire::NotOwner(_) => {
            Ok(with_ticket(wire, started))
        }
        Wire::Ask(_)
        | Wire::AskWithoutTicket(_)
        | Wire::Request(_)
        | Wire::Forward(_, _)
        | Wire::Bounce(_, _)
        | Wire::Cancel(_, _) => Ok(with_call(wire)),
        _ => Ok(with_names(wire)),
    }
}
