//! Replies, endings, outcomes and the entries of a journal.
ghost use Rattle.std.specs.Prelude.{◌≡◌, IfOk, Some, []};

use crate::{Bytes, Call, Memory, Node, Pid, Sequence, Sig, SigSet, Values};
use std::alloc::Global;

/// The error of a refused call, by POSIX's name and with this profile's number.
#[derive(Clone, Copy, Debug, PartialEq, Eq)]
pub enum Errno {
    Esrch = 1,
    Einval = 2,
    Echild = 3,
    Enoent = 4,
    Eexist = 5,
    Enomsg = 6,
    Eagain = 7,
    E2big = 8,
    Efbig = 9,
    Erange = 10,
    Eidrm = 11,
    Eintr = 12,
}

/// How a process ended: by `exit`, with the low eight bits of its status, or by a signal.
#[derive(Clone, Copy, Debug, PartialEq, Eq)]
pub enum Ending {
    Exited(u8),
    Killed(Sig),
}

/// A child that has ended and is kept for its parent, and how it ended.
#[derive(Clone, Copy, Debug, PartialEq, Eq)]
pub struct EndedChild {
    pub pid: Pid,
    pub ending: Ending,
}

/// What a call gives its caller.
#[derive(Debug, PartialEq, Eq, Drop)]
pub enum Reply {
    /// A number: a new or a named thing's, a value, a count, or 0 where POSIX has 0.
    Num(u32),
    /// What `waitpid` found.
    Child {
        pid: Pid,
        ending: Ending,
    },
    /// What `msgrcv` took; its type is `class`.
    Message {
        class: i32,
        text: Bytes,
    },
    /// A set of signals.
    Bits(SigSet),
    /// A queue's number of messages, greatest number of bytes, last sender and last receiver, each 0
    /// where there is none yet.
    Stat {
        qnum: u32,
        qbytes: u32,
        lspid: Pid,
        lrpid: Pid,
    },
    /// The values of a semaphore set.
    All(Values),
    /// The caller has ended.
    Ended,
    /// The call was refused.
    Fail(Errno),
}

impl Reply {
    /// An equal reply.
    #[inline(always)]
    pub fn try_copy(&self, alloc: Global) -> Result<Reply, Memory>
        ensures { IfOk result (λ copy. copy ≡ self.now) }
    {
        Ok(match self {
            Reply::Num(number) => Reply::Num(*number),
            Reply::Child { pid, ending } => Reply::Child {
                pid: *pid,
                ending: *ending,
            },
            Reply::Message { class, text } => Reply::Message {
                class: *class,
                text: text.try_copy(alloc)?,
            },
            Reply::Bits(set) => Reply::Bits(*set),
            Reply::Stat {
                qnum,
                qbytes,
                lspid,
                lrpid,
            } => Reply::Stat {
                qnum: *qnum,
                qbytes: *qbytes,
                lspid: *lspid,
                lrpid: *lrpid,
            },
            Reply::All(values) => Reply::All(values.try_copy(alloc)?),
            Reply::Ended => Reply::Ended,
            Reply::Fail(errno) => Reply::Fail(*errno),
        })
    }
}

/// The callers that an entry wakes, in order, each with its reply.
pub type Woken = Sequence<(Pid, Reply)>;

/// What a call comes to: the caller's own reply, none where the call parks, and the callers it wakes.
#[derive(Debug, PartialEq, Eq, Drop)]
pub struct Outcome {
    pub own: Option<Reply>,
    pub woken: Woken,
}

/// One carried-out call of a history: who made it, what it came to, and the node that carried it out.
#[derive(Debug, PartialEq, Eq, Drop)]
pub struct Entry {
    pub pid: Pid,
    pub call: Call,
    pub outcome: Outcome,
    pub by: Node,
}

/// A history, or a part of one.
pub type Entries = Sequence<Entry>;

/// The replies of these woken callers again.
fn copy_woken(alloc: Global, woken: &[(Pid, Reply)]) -> Result<Woken, Memory>
    ensures { IfOk result (λ copy. copy ≡ woken.now) }
{
    let mut copy = Sequence::new(alloc);
    for (pid, reply) in woken {
        copy.push((*pid, reply.try_copy(alloc)?))?;
    }
    Ok(copy)
}

impl Outcome {
    /// The outcome of a call that replies and wakes nobody.
    pub fn reply(alloc: Global, reply: Reply) -> Outcome
        ensures { result ≡ record { own = Some reply; woken = [] } }
    {
        Outcome {
            own: Some(reply),
            woken: Sequence::new(alloc),
        }
    }

    /// An equal outcome.
    pub fn try_copy(&self, alloc: Global) -> Result<Outcome, Memory>
        ensures { IfOk result (λ copy. copy ≡ self.now) }
    {
        let own = match &self.own {
            Some(reply) => Some(reply.try_copy(alloc)?),
            None => None,
        };
        let woken = copy_woken(alloc, self.woken.as_slice())?;
        Ok(Outcome { own, woken })
    }
}

impl Entry {
    /// An equal entry.
    pub fn try_copy(&self, alloc: Global) -> Result<Entry, Memory>
        ensures { IfOk result (λ copy. copy ≡ self.now) }
    {
        Ok(Entry {
            pid: self.pid,
            call: self.call.try_copy(alloc)?,
            outcome: self.outcome.try_copy(alloc)?,
            by: self.by,
        })
    }
}
