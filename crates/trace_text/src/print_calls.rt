//! The text of a call: of each form on processes and signals, and of any call.
ghost use Rattle.std.specs.Prelude.{◌≡◌, ◌∷◌, ◌++◌, codes, OnOk};
ghost use Rattle.std.specs.Fmt.{decimal};
ghost use Rattle.kernel_model.specs.Fitting.{block_at};
ghost use Rattle.kernel_model.specs.Trace as trace;

use crate::fields::{push_labelled, push_pid, push_word};
use crate::names::{push_action_name, push_set, push_signal_argument, push_signal_call};
use crate::print_queues::{push_msgctl, push_msgget, push_msgrcv, push_msgset, push_msgsnd};
use crate::print_semaphores::{
    push_semctl, push_semctl_at, push_semget, push_semop, push_setall, push_setval,
};
use crate::text::{push, push_byte, push_known, push_number, push_number_then};
use pico_base::{Act, Call, How, Memory, Name, Node, Pid, Script, SigArg, SigSet};

#[inline(never)]
fn push_exit(out: &mut Vec<u8>, status: u16) -> Result<(), Memory>
    ensures { OnOk result (out.new.items ≡ out.old.items ++ codes "exit " ++ decimal status) }
{
    push(out, b"exit ")?;
    push_number(out, u64::from(status))
}

// The name of a script's block; nothing where there is no such block.
fn push_block_name(out: &mut Vec<u8>, script: &Script, block: Node) -> Result<(), Memory>
    ensures { OnOk result (out.new.items ≡ out.old.items ++ trace.name_of_block (block_at script.now block)) }
{
    match script.blocks.as_slice().get(usize::from(block.0) - 1) {
        Some(block) => push(out, block.name.as_slice()),
        None => Ok(()),
    }
}

#[inline(never)]
fn push_fork(out: &mut Vec<u8>, script: &Script, block: Node) -> Result<(), Memory>
    ensures { OnOk result
        (out.new.items ≡ out.old.items ++ codes "fork " ++ trace.name_of_block (block_at script.now block)) }
{
    push(out, b"fork ")?;
    push_block_name(out, script, block)
}

#[inline(never)]
fn push_kill(out: &mut Vec<u8>, pid: Pid, sig: SigArg) -> Result<(), Memory>
    ensures { OnOk result
        (out.new.items ≡ out.old.items ++ codes "kill " ++ decimal pid ++ 32 ∷ trace.signal_argument sig) }
{
    push_known(out, b"kill ")?;
    push_number_then(out, u64::from(pid.0), b' ')?;
    push_signal_argument(out, sig)
}

#[inline(never)]
fn push_sigaction(out: &mut Vec<u8>, sig: SigArg, act: Act) -> Result<(), Memory>
    ensures { OnOk result
        (out.new.items ≡ out.old.items ++ codes "sigaction " ++ trace.signal_argument sig ++ 32
        ∷ trace.action_name act) }
{
    push(out, b"sigaction ")?;
    push_signal_argument(out, sig)?;
    push_byte(out, b' ')?;
    push_action_name(out, act)
}

// A wait for any child, at once.
fn push_waitpid_any(out: &mut Vec<u8>, nohang: bool) -> Result<(), Memory>
    ensures { OnOk result
        (out.new.items ≡ out.old.items ++ (codes "waitpid any" ++ trace.word nohang (codes "nohang"))) }
{
    if nohang {
        return push_known(out, b"waitpid any nohang");
    }
    push_known(out, b"waitpid any")
}

#[inline(never)]
fn push_waitpid(out: &mut Vec<u8>, child: Option<Pid>, nohang: bool) -> Result<(), Memory>
    ensures { OnOk result
        (out.new.items ≡ out.old.items ++ codes "waitpid " ++ trace.child_text child
        ++ trace.word nohang (codes "nohang")) }
{
    match child {
        None => push_waitpid_any(out, nohang),
        Some(pid) => push_waitpid_one(out, pid, nohang),
    }
}

// A wait for one child.
#[inline(never)]
fn push_waitpid_one(out: &mut Vec<u8>, pid: Pid, nohang: bool) -> Result<(), Memory>
    ensures { OnOk result
        (out.new.items ≡ out.old.items ++ (codes "waitpid " ++ decimal pid ++ trace.word nohang (codes "nohang"))) }
{
    push(out, b"waitpid ")?;
    push_pid(out, pid)?;
    push_word(out, nohang, b" nohang")
}

fn push_how(out: &mut Vec<u8>, how: How) -> Result<(), Memory>
    ensures { OnOk result (out.new.items ≡ out.old.items ++ trace.how_words how) }
{
    match how {
        How::Block => push_known(out, b"sigprocmask block "),
        How::Unblock => push_known(out, b"sigprocmask unblock "),
        How::SetMask => push_known(out, b"sigprocmask setmask "),
    }
}

#[inline(never)]
fn push_sigprocmask(out: &mut Vec<u8>, how: How, set: SigSet) -> Result<(), Memory>
    ensures { OnOk result (out.new.items ≡ out.old.items ++ trace.sigprocmask_text how set) }
{
    push_how(out, how)?;
    push_set(out, set)
}

#[inline(never)]
fn push_withdrawal(out: &mut Vec<u8>, name: &Name) -> Result<(), Memory>
    ensures { OnOk result (out.new.items ≡ out.old.items ++ trace.withdrawal_text name.now) }
{
    match name {
        Name::Proc(pid) => push_labelled(out, b"withdraw proc ", u64::from(pid.0)),
        Name::Msg(id) => push_labelled(out, b"withdraw msg ", u64::from(id.0)),
        Name::Sem(id) => push_labelled(out, b"withdraw sem ", u64::from(id.0)),
    }
}

#[inline(never)]
fn push_getpid(out: &mut Vec<u8>) -> Result<(), Memory>
    ensures { OnOk result (out.new.items ≡ out.old.items ++ codes "getpid") }
{
    push_known(out, b"getpid")
}

#[inline(never)]
fn push_sigpending(out: &mut Vec<u8>) -> Result<(), Memory>
    ensures { OnOk result (out.new.items ≡ out.old.items ++ codes "sigpending") }
{
    push_known(out, b"sigpending")
}

/// Adds a call as a script would have it, with actual numbers; no script has a withdrawal.
pub fn push_call(out: &mut Vec<u8>, script: &Script, call: &Call) -> Result<(), Memory>
    ensures { OnOk result (out.new.items ≡ out.old.items ++ trace.call_text script.now call.now) }
{
    // The functions of the forms aren't inlined, so that this match saves no registers for them.
    match call {
        Call::Fork { block } => push_fork(out, script, *block),
        Call::Exit { status } => push_exit(out, *status),
        Call::Killed { sig } => push_signal_call(out, b"killed ", *sig),
        Call::GetPid => push_getpid(out),
        Call::Kill { pid, sig } => push_kill(out, *pid, *sig),
        Call::SigAction { sig, act } => push_sigaction(out, *sig, *act),
        Call::SigProcMask { how, set } => push_sigprocmask(out, *how, *set),
        Call::SigPending => push_sigpending(out),
        Call::Handled { sig } => push_signal_call(out, b"handled ", *sig),
        Call::WaitPid { child, nohang } => push_waitpid(out, *child, *nohang),
        Call::MsgGet { key, create, excl } => push_msgget(out, *key, *create, *excl),
        Call::MsgSnd {
            id,
            class,
            text,
            nowait,
        } => push_msgsnd(out, *id, *class, text.as_slice(), *nowait),
        Call::MsgRcv {
            id,
            class,
            size,
            noerror,
            nowait,
        } => push_msgrcv(out, *id, *class, *size, *noerror, *nowait),
        Call::MsgStat { id } => push_msgctl(out, *id, b" stat"),
        Call::MsgSet { id, qbytes } => push_msgset(out, *id, *qbytes),
        Call::MsgRmid { id } => push_msgctl(out, *id, b" rmid"),
        Call::SemGet {
            key,
            count,
            create,
            excl,
        } => push_semget(out, *key, *count, *create, *excl),
        Call::SemOp { id, steps } => push_semop(out, *id, steps.as_slice()),
        Call::SemGetVal { id, num } => push_semctl_at(out, *id, b" getval ", *num),
        Call::SemGetPid { id, num } => push_semctl_at(out, *id, b" getpid ", *num),
        Call::SemGetNcnt { id, num } => push_semctl_at(out, *id, b" getncnt ", *num),
        Call::SemGetZcnt { id, num } => push_semctl_at(out, *id, b" getzcnt ", *num),
        Call::SemSetVal { id, num, value } => push_setval(out, *id, *num, *value),
        Call::SemGetAll { id } => push_semctl(out, *id, b" getall"),
        Call::SemSetAll { id, values } => push_setall(out, *id, values.as_slice()),
        Call::SemRmid { id } => push_semctl(out, *id, b" rmid"),
        Call::Withdraw { name } => push_withdrawal(out, name),
    }
}
