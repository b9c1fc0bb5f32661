//! The calls of the profile, with their actual arguments.
ghost use Rattle.std.specs.Prelude.{◌≡◌, IfOk};

use crate::{
    Act, Bytes, How, Id, Key, Memory, Name, Node, Pid, Sequence, Sig, SigArg, SigSet, Values,
};
use std::alloc::Global;

/// One operation of `semop`: semaphore `num` of the set, what is added to it, and whether the call
/// gives up (IPC_NOWAIT) where it would have to wait.
#[derive(Clone, Copy, Debug, PartialEq, Eq)]
pub struct SemStep {
    pub num: u16,
    pub add: i32,
    pub nowait: bool,
}

/// The operations of a `semop`, in order.
pub type Steps = Sequence<SemStep>;

/// Where a call can be carried out, by the names that it looks at.
#[derive(Clone, Copy, Debug, PartialEq, Eq)]
pub enum Home {
    /// At the caller itself.
    Own,
    /// Where the keys are kept.
    Keys,
    /// At the owner of the name together with the keys: the call removes the name.
    Removal(Name),
    /// At the owner of the name.
    At(Name),
    /// At the owner of the caller's parent: the call ends the caller.
    Parent,
}

/// A call with its actual arguments. A `nowait` stands for IPC_NOWAIT, `noerror` for MSG_NOERROR,
/// `create` and `excl` for IPC_CREAT and IPC_EXCL, and a get without a key for IPC_PRIVATE.
#[derive(Debug, PartialEq, Eq, Drop)]
pub enum Call {
    /// `fork`: the child runs the block of this node.
    Fork {
        block: Node,
    },
    /// `exit`: the low eight bits of the status are kept.
    Exit {
        status: u16,
    },
    /// The end of a process by a signal.
    Killed {
        sig: Sig,
    },
    GetPid,
    Kill {
        pid: Pid,
        sig: SigArg,
    },
    SigAction {
        sig: SigArg,
        act: Act,
    },
    SigProcMask {
        how: How,
        set: SigSet,
    },
    SigPending,
    /// How often the signal was caught.
    Handled {
        sig: Sig,
    },
    /// `waitpid` for one child, or for any.
    WaitPid {
        child: Option<Pid>,
        nohang: bool,
    },
    MsgGet {
        key: Option<Key>,
        create: bool,
        excl: bool,
    },
    /// `msgsnd`: the message's type is `class`.
    MsgSnd {
        id: Id,
        class: i32,
        text: Bytes,
        nowait: bool,
    },
    /// `msgrcv` of at most `size` bytes of a message that `class` selects.
    MsgRcv {
        id: Id,
        class: i32,
        size: u32,
        noerror: bool,
        nowait: bool,
    },
    /// `msgctl` with IPC_STAT.
    MsgStat {
        id: Id,
    },
    /// `msgctl` with IPC_SET, which sets `msg_qbytes`.
    MsgSet {
        id: Id,
        qbytes: u32,
    },
    /// `msgctl` with IPC_RMID.
    MsgRmid {
        id: Id,
    },
    SemGet {
        key: Option<Key>,
        count: u32,
        create: bool,
        excl: bool,
    },
    SemOp {
        id: Id,
        steps: Steps,
    },
    SemGetVal {
        id: Id,
        num: u16,
    },
    SemGetPid {
        id: Id,
        num: u16,
    },
    SemGetNcnt {
        id: Id,
        num: u16,
    },
    SemGetZcnt {
        id: Id,
        num: u16,
    },
    SemSetVal {
        id: Id,
        num: u16,
        value: u32,
    },
    SemGetAll {
        id: Id,
    },
    SemSetAll {
        id: Id,
        values: Values,
    },
    /// `semctl` with IPC_RMID.
    SemRmid {
        id: Id,
    },
    /// The end of a wait that a signal broke off: at this queue or set, or, with the caller's own number, in `waitpid`.
    Withdraw {
        name: Name,
    },
}

impl Call {
    /// An equal call.
    #[inline(always)]
    pub fn try_copy(&self, alloc: Global) -> Result<Call, Memory>
        ensures { IfOk result (λ copy. copy ≡ self.now) }
    {
        Ok(match self {
            Call::Fork { block } => Call::Fork { block: *block },
            Call::Exit { status } => Call::Exit { status: *status },
            Call::Killed { sig } => Call::Killed { sig: *sig },
            Call::GetPid => Call::GetPid,
            Call::Kill { pid, sig } => Call::Kill {
                pid: *pid,
                sig: *sig,
            },
            Call::SigAction { sig, act } => Call::SigAction {
                sig: *sig,
                act: *act,
            },
            Call::SigProcMask { how, set } => Call::SigProcMask {
                how: *how,
                set: *set,
            },
            Call::SigPending => Call::SigPending,
            Call::Handled { sig } => Call::Handled { sig: *sig },
            Call::WaitPid { child, nohang } => Call::WaitPid {
                child: *child,
                nohang: *nohang,
            },
            Call::MsgGet { key, create, excl } => Call::MsgGet {
                key: *key,
                create: *create,
                excl: *excl,
            },
            Call::MsgSnd {
                id,
                class,
                text,
                nowait,
            } => Call::MsgSnd {
                id: *id,
                class: *class,
                text: text.try_copy(alloc)?,
                nowait: *nowait,
            },
            Call::MsgRcv {
                id,
                class,
                size,
                noerror,
                nowait,
            } => Call::MsgRcv {
                id: *id,
                class: *class,
                size: *size,
                noerror: *noerror,
                nowait: *nowait,
            },
            Call::MsgStat { id } => Call::MsgStat { id: *id },
            Call::MsgSet { id, qbytes } => Call::MsgSet {
                id: *id,
                qbytes: *qbytes,
            },
            Call::MsgRmid { id } => Call::MsgRmid { id: *id },
            Call::SemGet {
                key,
                count,
                create,
                excl,
            } => Call::SemGet {
                key: *key,
                count: *count,
                create: *create,
                excl: *excl,
            },
            Call::SemOp { id, steps } => Call::SemOp {
                id: *id,
                steps: steps.try_copy(alloc)?,
            },
            Call::SemGetVal { id, num } => Call::SemGetVal { id: *id, num: *num },
            Call::SemGetPid { id, num } => Call::SemGetPid { id: *id, num: *num },
            Call::SemGetNcnt { id, num } => Call::SemGetNcnt { id: *id, num: *num },
            Call::SemGetZcnt { id, num } => Call::SemGetZcnt { id: *id, num: *num },
            Call::SemSetVal { id, num, value } => Call::SemSetVal {
                id: *id,
                num: *num,
                value: *value,
            },
            Call::SemGetAll { id } => Call::SemGetAll { id: *id },
            Call::SemSetAll { id, values } => Call::SemSetAll {
                id: *id,
                values: values.try_copy(alloc)?,
            },
            Call::SemRmid { id } => Call::SemRmid { id: *id },
            Call::Withdraw { name } => Call::Withdraw { name: *name },
        })
    }
}
