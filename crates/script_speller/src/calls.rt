//! Calls and their words.
ghost use Rattle.std.specs.Prelude.{◌≡◌, [], ◌∷◌, ◌++◌, map, codes, OnOk};
ghost use Rattle.std.specs.Fmt.{decimal, signed_decimal};
ghost use Rattle.kernel_model.specs.Fitting.{block_at};
ghost use Rattle.kernel_model.specs.Trace as trace;
ghost use Rattle.script_speller.specs.Spelling as spec;

use crate::words::{
    push_class, push_decimal, push_flag, push_message, push_object, push_set_word, push_steps,
    push_value_word, push_word,
};
use call_words::{action_name, how_name, signal_argument, signal_name};
use pico_base::{
    Act, Call, How, Id, Key, Memory, Name, Node, Pid, Script, SemStep, Sig, SigArg, SigSet, Var,
};
use trace_text::push;

/// The name of a block behind a blank; nothing behind it where there is no such block.
fn push_block_name(out: &mut Vec<u8>, script: &Script, block: Node) -> Result<(), Memory>
    ensures { OnOk result (out.new.items ≡ out.old.items ++ 32 ∷ trace.name_of_block (block_at script.now block)) }
{
    push(out, b" ")?;
    match script.blocks.as_slice().get(usize::from(block.0) - 1) {
        Some(block) => push(out, block.name.as_slice()),
        None => Ok(()),
    }
}

fn push_fork(out: &mut Vec<u8>, script: &Script, block: Node) -> Result<(), Memory>
    ensures { OnOk result (out.new.items ≡ out.old.items
        ++ (codes "fork" ++ (32 ∷ trace.name_of_block (block_at script.now block) ++ []))) }
{
    push(out, b"fork")?;
    push_block_name(out, script, block)
}

fn push_exit(out: &mut Vec<u8>, status: u16) -> Result<(), Memory>
    ensures { OnOk result (out.new.items ≡ out.old.items
        ++ (codes "exit" ++ spec.behind_blanks (decimal status ∷ []))) }
{
    push(out, b"exit")?;
    push_decimal(out, u32::from(status))
}

fn push_signal(out: &mut Vec<u8>, name: &[u8], sig: Sig) -> Result<(), Memory>
    ensures { OnOk result (out.new.items ≡ out.old.items
        ++ (name.now ++ spec.behind_blanks (trace.signal_name sig ∷ []))) }
{
    push(out, name)?;
    push_word(out, signal_name(sig))
}

fn push_kill(out: &mut Vec<u8>, from: Option<Var>, pid: Pid, sig: SigArg) -> Result<(), Memory>
    ensures { OnOk result (out.new.items ≡ out.old.items
        ++ (codes "kill" ++ spec.behind_blanks (spec.object_text from pid ∷ trace.signal_argument sig ∷ []))) }
{
    push(out, b"kill")?;
    push_object(out, from, pid.0)?;
    push_word(out, signal_argument(sig))
}

fn push_sigaction(out: &mut Vec<u8>, sig: SigArg, act: Act) -> Result<(), Memory>
    ensures { OnOk result (out.new.items ≡ out.old.items
        ++ (codes "sigaction" ++ spec.behind_blanks (trace.signal_argument sig ∷ trace.action_name act ∷ []))) }
{
    push(out, b"sigaction")?;
    push_word(out, signal_argument(sig))?;
    push_word(out, action_name(act))
}

fn push_mask(out: &mut Vec<u8>, how: How, set: SigSet) -> Result<(), Memory>
    ensures { OnOk result (out.new.items ≡ out.old.items
        ++ spec.behind_blanks (trace.how_name how ∷ trace.set_text set ∷ [])) }
{
    push_word(out, how_name(how))?;
    push_set_word(out, set)
}

fn push_sigprocmask(out: &mut Vec<u8>, how: How, set: SigSet) -> Result<(), Memory>
    ensures { OnOk result (out.new.items ≡ out.old.items
        ++ (codes "sigprocmask" ++ spec.behind_blanks (trace.how_name how ∷ trace.set_text set ∷ []))) }
{
    push(out, b"sigprocmask")?;
    push_mask(out, how, set)
}

fn push_child(out: &mut Vec<u8>, from: Option<Var>, child: Option<Pid>) -> Result<(), Memory>
    ensures { OnOk result (out.new.items ≡ out.old.items ++ 32 ∷ spec.child_word from child) }
{
    match child {
        None => push_word(out, b"any"),
        Some(pid) => push_object(out, from, pid.0),
    }
}

fn push_waitpid(
    out: &mut Vec<u8>,
    from: Option<Var>,
    child: Option<Pid>,
    nohang: bool,
) -> Result<(), Memory>
    ensures { OnOk result (out.new.items ≡ out.old.items
        ++ (codes "waitpid" ++ spec.behind_blanks
        (spec.child_word from child ∷ spec.flag_words nohang (codes "nohang")))) }
{
    push(out, b"waitpid")?;
    push_child(out, from, child)?;
    push_flag(out, nohang, b"nohang")
}

fn push_created(out: &mut Vec<u8>, create: bool, excl: bool) -> Result<(), Memory>
    ensures { OnOk result (out.new.items ≡ out.old.items ++ spec.behind_blanks (spec.created create excl)) }
{
    push_flag(out, create, b"create")?;
    push_flag(out, excl, b"excl")
}

fn push_msgget(out: &mut Vec<u8>, key: Option<Key>, create: bool, excl: bool) -> Result<(), Memory>
    ensures { OnOk result (out.new.items ≡ out.old.items
        ++ (codes "msgget" ++ spec.behind_blanks (spec.queue_key key create excl))) }
{
    push(out, b"msgget")?;
    match key {
        None => push_word(out, b"private"),
        Some(key) => {
            push_decimal(out, key.0)?;
            push_created(out, create, excl)
        }
    }
}

fn push_msgsnd(
    out: &mut Vec<u8>,
    from: Option<Var>,
    id: Id,
    class: i32,
    text: &[u8],
    nowait: bool,
) -> Result<(), Memory>
    ensures { OnOk result (out.new.items ≡ out.old.items
        ++ (codes "msgsnd" ++ spec.behind_blanks (spec.object_text from id ∷ signed_decimal class
        ∷ spec.message_word text.now ∷ spec.flag_words nowait (codes "nowait")))) }
{
    push(out, b"msgsnd")?;
    push_object(out, from, id.0)?;
    push_class(out, class)?;
    push_message(out, text)?;
    push_flag(out, nowait, b"nowait")
}

fn push_receive_flags(out: &mut Vec<u8>, noerror: bool, nowait: bool) -> Result<(), Memory>
    ensures { OnOk result (out.new.items ≡ out.old.items ++ spec.behind_blanks
        (spec.flag_words noerror (codes "noerror") ++ spec.flag_words nowait (codes "nowait"))) }
{
    push_flag(out, noerror, b"noerror")?;
    push_flag(out, nowait, b"nowait")
}

fn push_msgrcv(
    out: &mut Vec<u8>,
    from: Option<Var>,
    id: Id,
    class: i32,
    size: u32,
    noerror: bool,
    nowait: bool,
) -> Result<(), Memory>
    ensures { OnOk result (out.new.items ≡ out.old.items
        ++ (codes "msgrcv" ++ spec.behind_blanks (spec.object_text from id ∷ signed_decimal class ∷ decimal size
        ∷ (spec.flag_words noerror (codes "noerror") ++ spec.flag_words nowait (codes "nowait"))))) }
{
    push(out, b"msgrcv")?;
    push_object(out, from, id.0)?;
    push_class(out, class)?;
    push_decimal(out, size)?;
    push_receive_flags(out, noerror, nowait)
}

/// A call's name, the object that it is on, and a command.
fn push_command(
    out: &mut Vec<u8>,
    name: &[u8],
    from: Option<Var>,
    id: Id,
    command: &[u8],
) -> Result<(), Memory>
    ensures { OnOk result (out.new.items ≡ out.old.items
        ++ (name.now ++ spec.behind_blanks (spec.object_text from id ∷ command.now ∷ []))) }
{
    push(out, name)?;
    push_object(out, from, id.0)?;
    push_word(out, command)
}

/// The same, and a number.
fn push_command_with(
    out: &mut Vec<u8>,
    name: &[u8],
    from: Option<Var>,
    id: Id,
    command: &[u8],
    number: u32,
) -> Result<(), Memory>
    ensures { OnOk result (out.new.items ≡ out.old.items
        ++ (name.now ++ spec.behind_blanks (spec.object_text from id ∷ command.now ∷ decimal number ∷ []))) }
{
    push(out, name)?;
    push_object(out, from, id.0)?;
    push_word(out, command)?;
    push_decimal(out, number)
}

fn push_semget(
    out: &mut Vec<u8>,
    key: Option<Key>,
    count: u32,
    create: bool,
    excl: bool,
) -> Result<(), Memory>
    ensures { OnOk result (out.new.items ≡ out.old.items
        ++ (codes "semget" ++ spec.behind_blanks (spec.set_key key count create excl))) }
{
    push(out, b"semget")?;
    match key {
        None => {
            push_word(out, b"private")?;
            push_decimal(out, count)
        }
        Some(key) => {
            push_decimal(out, key.0)?;
            push_decimal(out, count)?;
            push_created(out, create, excl)
        }
    }
}

fn push_semop(out: &mut Vec<u8>, from: Option<Var>, id: Id, steps: &[SemStep]) -> Result<(), Memory>
    ensures { OnOk result (out.new.items ≡ out.old.items
        ++ (codes "semop" ++ (32 ∷ spec.object_text from id ++ spec.behind_blanks (map spec.step_word steps.now)))) }
{
    push(out, b"semop")?;
    push_object(out, from, id.0)?;
    push_steps(out, steps)
}

fn push_setval(
    out: &mut Vec<u8>,
    from: Option<Var>,
    id: Id,
    num: u16,
    value: u32,
) -> Result<(), Memory>
    ensures { OnOk result (out.new.items ≡ out.old.items
        ++ (codes "semctl" ++ spec.behind_blanks (spec.object_text from id ∷ codes "setval" ∷ decimal num
        ∷ decimal value ∷ []))) }
{
    push_command_with(out, b"semctl", from, id, b"setval", u32::from(num))?;
    push_decimal(out, value)
}

fn push_setall(out: &mut Vec<u8>, from: Option<Var>, id: Id, values: &[u32]) -> Result<(), Memory>
    ensures { OnOk result (out.new.items ≡ out.old.items
        ++ (codes "semctl" ++ spec.behind_blanks (spec.object_text from id ∷ codes "setall"
        ∷ trace.values_text values.now ∷ []))) }
{
    push_command(out, b"semctl", from, id, b"setall")?;
    push_value_word(out, values)
}

/// A kind of name and a number.
fn push_kind(out: &mut Vec<u8>, kind: &[u8], number: u32) -> Result<(), Memory>
    ensures { OnOk result (out.new.items ≡ out.old.items
        ++ spec.behind_blanks (kind.now ∷ decimal number ∷ [])) }
{
    push_word(out, kind)?;
    push_decimal(out, number)
}

fn push_withdrawal(out: &mut Vec<u8>, name: &Name) -> Result<(), Memory>
    ensures { OnOk result (out.new.items ≡ out.old.items
        ++ (codes "withdraw" ++ spec.behind_blanks (spec.withdrawal_words name.now))) }
{
    push(out, b"withdraw")?;
    match name {
        Name::Proc(pid) => push_kind(out, b"proc", pid.0),
        Name::Msg(id) => push_kind(out, b"msg", id.0),
        Name::Sem(id) => push_kind(out, b"sem", id.0),
    }
}

/// Adds a call, with the variable in place of the process or the object that it names.
pub(crate) fn push_call(
    out: &mut Vec<u8>,
    script: &Script,
    from: Option<Var>,
    call: &Call,
) -> Result<(), Memory>
    ensures { OnOk result (out.new.items ≡ out.old.items
        ++ (spec.call_name call.now ++ spec.behind_blanks (spec.arguments script.now from call.now))) }
{
    match call {
        Call::Fork { block } => push_fork(out, script, *block),
        Call::Exit { status } => push_exit(out, *status),
        Call::Killed { sig } => push_signal(out, b"killed", *sig),
        Call::GetPid => push(out, b"getpid"),
        Call::Kill { pid, sig } => push_kill(out, from, *pid, *sig),
        Call::SigAction { sig, act } => push_sigaction(out, *sig, *act),
        Call::SigProcMask { how, set } => push_sigprocmask(out, *how, *set),
        Call::SigPending => push(out, b"sigpending"),
        Call::Handled { sig } => push_signal(out, b"handled", *sig),
        Call::WaitPid { child, nohang } => push_waitpid(out, from, *child, *nohang),
        Call::MsgGet { key, create, excl } => push_msgget(out, *key, *create, *excl),
        Call::MsgSnd {
            id,
            class,
            text,
            nowait,
        } => push_msgsnd(out, from, *id, *class, text.as_slice(), *nowait),
        Call::MsgRcv {
            id,
            class,
            size,
            noerror,
            nowait,
        } => push_msgrcv(out, from, *id, *class, *size, *noerror, *nowait),
        Call::MsgStat { id } => push_command(out, b"msgctl", from, *id, b"stat"),
        Call::MsgSet { id, qbytes } => {
            push_command_with(out, b"msgctl", from, *id, b"set", *qbytes)
        }
        Call::MsgRmid { id } => push_command(out, b"msgctl", from, *id, b"rmid"),
        Call::SemGet {
            key,
            count,
            create,
            excl,
        } => push_semget(out, *key, *count, *create, *excl),
        Call::SemOp { id, steps } => push_semop(out, from, *id, steps.as_slice()),
        Call::SemGetVal { id, num } => {
            push_command_with(out, b"semctl", from, *id, b"getval", u32::from(*num))
        }
        Call::SemGetPid { id, num } => {
            push_command_with(out, b"semctl", from, *id, b"getpid", u32::from(*num))
        }
        Call::SemGetNcnt { id, num } => {
            push_command_with(out, b"semctl", from, *id, b"getncnt", u32::from(*num))
        }
        Call::SemGetZcnt { id, num } => {
            push_command_with(out, b"semctl", from, *id, b"getzcnt", u32::from(*num))
        }
        Call::SemSetVal { id, num, value } => push_setval(out, from, *id, *num, *value),
        Call::SemGetAll { id } => push_command(out, b"semctl", from, *id, b"getall"),
        Call::SemSetAll { id, values } => push_setall(out, from, *id, values.as_slice()),
        Call::SemRmid { id } => push_command(out, b"semctl", from, *id, b"rmid"),
        Call::Withdraw { name } => push_withdrawal(out, name),
    }
}
