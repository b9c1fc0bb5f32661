//! A call at the front of a line, as the trace prints it.
ghost use Rattle.std.specs.Prelude.{◌≡◌, ◌≤◌, IfOk, IfSome, IsTrue, option_map, position, length, bytes_eq};
ghost use Rattle.pico_base.specs.declared.call.Call.TheVariants.{SemGetVal, SemGetPid, SemGetNcnt, SemGetZcnt};
ghost use Rattle.pico_base.specs.declared.numbers.Name.TheVariants.{Proc, Msg, Sem};
ghost use Rattle.text_fields.specs.Fields.{number_at};
ghost use Rattle.trace_text.specs.Reading as reading;

use call_words::Verb;
use pico_base::{Block, Call, Id, Key, Memory, Name, Node, Pid, Script};
use quoted_bytes::strip_front;
use std::alloc::Global;
use text_fields::{
    action_front, argument_front, flag_front, how_front, number_front, set_front, signal_front,
    signed_front, steps_front, text_front, values_front, word_front,
};

/// The greatest number of two bytes.
const MAX_SHORT: u32 = 65_535;

/// The greatest type of a message, and the least one below zero.
const MAX_TYPE: u32 = 2_147_483_647;

/// A call, with what follows it.
type Read<'a> = Option<(Call, &'a [u8])>;

/// Whether the block has this name.
fn is_named(block: &Block, name: &[u8]) -> bool
    ensures { result ≡ bytes_eq block.now.name name.now }
{
    block.name.as_slice() == name
}

/// The place of the block with this name.
fn place_of(blocks: &[Block], name: &[u8]) -> Option<usize>
    ensures { result ≡ position (λ block. bytes_eq block.name name.now) blocks.now }
{
    blocks.iter().position(|block| is_named(block, name))
}

/// The number of the block with this name.
fn block_named(script: &Script, name: &[u8]) -> Option<Node>
    requires { length script.now.blocks ≤ 32 }
    ensures { result ≡ reading.block_named script.now name.now }
{
    let place = place_of(script.blocks.as_slice(), name)?;
    Some(Node(place as u8 + 1))
}

#[tactic(auto, unfolding(crate::specs::Reading::fork_at))]
fn fork<'a>(script: &Script, bytes: &'a [u8]) -> Read<'a>
    requires { length script.now.blocks ≤ 32 }
    ensures { option_map (λ x. (x.0, x.1.now)) result ≡ reading.fork_at script.now bytes.now }
{
    let (name, rest) = word_front(bytes);
    let block = block_named(script, name)?;
    Some((Call::Fork { block }, rest))
}

#[tactic(auto, unfolding(crate::specs::Reading::exit_at))]
fn exit(bytes: &[u8]) -> Read<'_>
    ensures { option_map (λ x. (x.0, x.1.now)) result ≡ reading.exit_at bytes.now }
{
    let (status, rest) = number_front(MAX_SHORT, bytes)?;
    let status = status as u16;
    Some((Call::Exit { status }, rest))
}

#[tactic(auto, unfolding(crate::specs::Reading::killed_at))]
fn killed(bytes: &[u8]) -> Read<'_>
    ensures { option_map (λ x. (x.0, x.1.now)) result ≡ reading.killed_at bytes.now }
{
    let (sig, rest) = signal_front(bytes)?;
    Some((Call::Killed { sig }, rest))
}

#[tactic(auto, unfolding(crate::specs::Reading::handled_at))]
fn handled(bytes: &[u8]) -> Read<'_>
    ensures { option_map (λ x. (x.0, x.1.now)) result ≡ reading.handled_at bytes.now }
{
    let (sig, rest) = signal_front(bytes)?;
    Some((Call::Handled { sig }, rest))
}

#[tactic(auto, unfolding(crate::specs::Reading::kill_at))]
fn kill(bytes: &[u8]) -> Read<'_>
    ensures { option_map (λ x. (x.0, x.1.now)) result ≡ reading.kill_at bytes.now }
{
    let (pid, rest) = number_front(u32::MAX, bytes)?;
    let rest = strip_front(rest, b" ")?;
    let (sig, rest) = argument_front(rest)?;
    let pid = Pid(pid);
    Some((Call::Kill { pid, sig }, rest))
}

#[tactic(auto, unfolding(crate::specs::Reading::sigaction_at))]
fn sigaction(bytes: &[u8]) -> Read<'_>
    ensures { option_map (λ x. (x.0, x.1.now)) result ≡ reading.sigaction_at bytes.now }
{
    let (sig, rest) = argument_front(bytes)?;
    let rest = strip_front(rest, b" ")?;
    let (act, rest) = action_front(rest)?;
    Some((Call::SigAction { sig, act }, rest))
}

#[tactic(auto, unfolding(crate::specs::Reading::sigprocmask_at))]
fn sigprocmask(bytes: &[u8]) -> Read<'_>
    ensures { option_map (λ x. (x.0, x.1.now)) result ≡ reading.sigprocmask_at bytes.now }
{
    let (how, rest) = how_front(bytes)?;
    let rest = strip_front(rest, b" ")?;
    let Some((set, rest)) = set_front(rest) else {
        return None;
    };
    Some((Call::SigProcMask { how, set }, rest))
}

/// `any`, or a process.
#[tactic(auto, unfolding(crate::specs::Reading::child_at))]
fn child(bytes: &[u8]) -> Option<(Option<Pid>, &[u8])>
    ensures { option_map (λ x. (x.0, x.1.now)) result ≡ reading.child_at bytes.now }
{
    if let Some(rest) = strip_front(bytes, b"any") {
        return Some((None, rest));
    }
    let (pid, rest) = number_front(u32::MAX, bytes)?;
    Some((Some(Pid(pid)), rest))
}

#[tactic(auto, unfolding(crate::specs::Reading::waitpid_at))]
fn waitpid(bytes: &[u8]) -> Read<'_>
    ensures { option_map (λ x. (x.0, x.1.now)) result ≡ reading.waitpid_at bytes.now }
{
    let Some((child, rest)) = child(bytes) else {
        return None;
    };
    let (nohang, rest) = flag_front(rest, b" nohang");
    Some((Call::WaitPid { child, nohang }, rest))
}

/// `create` and `excl`.
#[tactic(auto, unfolding(crate::specs::Reading::options_at))]
fn options(bytes: &[u8]) -> ((bool, bool), &[u8])
    ensures { (result.0, result.1.now) ≡ reading.options_at bytes.now }
{
    let (create, rest) = flag_front(bytes, b" create");
    let (excl, rest) = flag_front(rest, b" excl");
    ((create, excl), rest)
}

#[tactic(auto, unfolding(crate::specs::Reading::msgget_key_at))]
fn msgget_key(bytes: &[u8]) -> Read<'_>
    ensures { option_map (λ x. (x.0, x.1.now)) result ≡ reading.msgget_key_at bytes.now }
{
    let (key, rest) = number_front(u32::MAX, bytes)?;
    let ((create, excl), rest) = options(rest);
    let key = Some(Key(key));
    Some((Call::MsgGet { key, create, excl }, rest))
}

#[tactic(auto, unfolding(crate::specs::Reading::msgget_at))]
fn msgget(bytes: &[u8]) -> Read<'_>
    ensures { option_map (λ x. (x.0, x.1.now)) result ≡ reading.msgget_at bytes.now }
{
    match strip_front(bytes, b"private") {
        Some(rest) => Some((
            Call::MsgGet {
                key: None,
                create: false,
                excl: false,
            },
            rest,
        )),
        None => msgget_key(bytes),
    }
}

/// A queue and a message's type, and the blank behind them.
#[tactic(auto, unfolding(crate::specs::Reading::object_at))]
fn object(bytes: &[u8]) -> Option<((Id, i32), &[u8])>
    ensures { option_map (λ x. (x.0, x.1.now)) result ≡ reading.object_at bytes.now }
{
    let (id, rest) = number_front(u32::MAX, bytes)?;
    let rest = strip_front(rest, b" ")?;
    let (class, rest) = signed_front(MAX_TYPE, rest)?;
    let rest = strip_front(rest, b" ")?;
    Some(((Id(id), class), rest))
}

#[tactic(auto, unfolding(crate::specs::Reading::msgsnd_at))]
fn msgsnd(alloc: Global, bytes: &[u8]) -> Result<Read<'_>, Memory>
    ensures { IfOk result (λ call. option_map (λ x. (x.0, x.1.now)) call ≡ reading.msgsnd_at bytes.now) }
{
    let Some(((id, class), rest)) = object(bytes) else {
        return Ok(None);
    };
    let Some((text, rest)) = text_front(alloc, rest)? else {
        return Ok(None);
    };
    let (nowait, rest) = flag_front(rest, b" nowait");
    Ok(Some((
        Call::MsgSnd {
            id,
            class,
            text,
            nowait,
        },
        rest,
    )))
}

#[tactic(auto, unfolding(crate::specs::Reading::msgrcv_at))]
fn msgrcv(bytes: &[u8]) -> Read<'_>
    ensures { option_map (λ x. (x.0, x.1.now)) result ≡ reading.msgrcv_at bytes.now }
{
    let Some(((id, class), rest)) = object(bytes) else {
        return None;
    };
    let (size, rest) = number_front(MAX_SHORT, rest)?;
    let (noerror, rest) = flag_front(rest, b" noerror");
    let (nowait, rest) = flag_front(rest, b" nowait");
    Some((
        Call::MsgRcv {
            id,
            class,
            size,
            noerror,
            nowait,
        },
        rest,
    ))
}

#[tactic(auto, unfolding(crate::specs::Reading::msgset_at))]
fn msgset(id: Id, bytes: &[u8]) -> Read<'_>
    ensures { option_map (λ x. (x.0, x.1.now)) result ≡ reading.msgset_at id bytes.now }
{
    let rest = strip_front(bytes, b" set ")?;
    let (qbytes, rest) = number_front(MAX_SHORT, rest)?;
    Some((Call::MsgSet { id, qbytes }, rest))
}

#[tactic(auto, unfolding(crate::specs::Reading::queue_command_at))]
fn queue_command(id: Id, bytes: &[u8]) -> Read<'_>
    ensures { option_map (λ x. (x.0, x.1.now)) result ≡ reading.queue_command_at id bytes.now }
{
    if let Some(rest) = strip_front(bytes, b" stat") {
        return Some((Call::MsgStat { id }, rest));
    }
    if let Some(rest) = strip_front(bytes, b" rmid") {
        return Some((Call::MsgRmid { id }, rest));
    }
    msgset(id, bytes)
}

#[tactic(auto, unfolding(crate::specs::Reading::msgctl_at))]
fn msgctl(bytes: &[u8]) -> Read<'_>
    ensures { option_map (λ x. (x.0, x.1.now)) result ≡ reading.msgctl_at bytes.now }
{
    let (id, rest) = number_front(u32::MAX, bytes)?;
    queue_command(Id(id), rest)
}

#[tactic(auto, unfolding(crate::specs::Reading::semget_key_at))]
fn semget_key(bytes: &[u8]) -> Read<'_>
    ensures { option_map (λ x. (x.0, x.1.now)) result ≡ reading.semget_key_at bytes.now }
{
    let (key, rest) = number_front(u32::MAX, bytes)?;
    let rest = strip_front(rest, b" ")?;
    let (count, rest) = number_front(MAX_SHORT, rest)?;
    let ((create, excl), rest) = options(rest);
    let key = Some(Key(key));
    Some((
        Call::SemGet {
            key,
            count,
            create,
            excl,
        },
        rest,
    ))
}

#[tactic(auto, unfolding(crate::specs::Reading::semget_private_at))]
fn semget_private(bytes: &[u8]) -> Read<'_>
    ensures { option_map (λ x. (x.0, x.1.now)) result ≡ reading.semget_private_at bytes.now }
{
    let (count, rest) = number_front(MAX_SHORT, bytes)?;
    Some((
        Call::SemGet {
            key: None,
            count,
            create: false,
            excl: false,
        },
        rest,
    ))
}

#[tactic(auto, unfolding(crate::specs::Reading::semget_at))]
fn semget(bytes: &[u8]) -> Read<'_>
    ensures { option_map (λ x. (x.0, x.1.now)) result ≡ reading.semget_at bytes.now }
{
    match strip_front(bytes, b"private ") {
        Some(rest) => semget_private(rest),
        None => semget_key(bytes),
    }
}

#[tactic(auto, unfolding(crate::specs::Reading::semop_at))]
fn semop(alloc: Global, bytes: &[u8]) -> Result<Read<'_>, Memory>
    ensures { IfOk result (λ call. option_map (λ x. (x.0, x.1.now)) call ≡ reading.semop_at bytes.now) }
{
    let Some((id, rest)) = number_front(u32::MAX, bytes) else {
        return Ok(None);
    };
    match steps_front(alloc, rest) {
        Ok((steps, rest)) => Ok(Some((Call::SemOp { id: Id(id), steps }, rest))),
        Err(memory) => Err(memory),
    }
}

/// A semaphore's number.
fn semaphore(bytes: &[u8]) -> Option<(u16, &[u8])>
    ensures { option_map (λ x. (x.0, x.1.now)) result ≡ number_at 65535 bytes.now }
{
    let (num, rest) = number_front(MAX_SHORT, bytes)?;
    Some((num as u16, rest))
}

#[tactic(auto, unfolding(crate::specs::Reading::semaphore_at))]
fn getval(id: Id, bytes: &[u8]) -> Read<'_>
    ensures { option_map (λ x. (x.0, x.1.now)) result ≡ reading.semaphore_at (SemGetVal id) bytes.now }
{
    let (num, rest) = semaphore(bytes)?;
    Some((Call::SemGetVal { id, num }, rest))
}

#[tactic(auto, unfolding(crate::specs::Reading::semaphore_at))]
fn getpid_of(id: Id, bytes: &[u8]) -> Read<'_>
    ensures { option_map (λ x. (x.0, x.1.now)) result ≡ reading.semaphore_at (SemGetPid id) bytes.now }
{
    let (num, rest) = semaphore(bytes)?;
    Some((Call::SemGetPid { id, num }, rest))
}

#[tactic(auto, unfolding(crate::specs::Reading::semaphore_at))]
fn getncnt(id: Id, bytes: &[u8]) -> Read<'_>
    ensures { option_map (λ x. (x.0, x.1.now)) result ≡ reading.semaphore_at (SemGetNcnt id) bytes.now }
{
    let (num, rest) = semaphore(bytes)?;
    Some((Call::SemGetNcnt { id, num }, rest))
}

#[tactic(auto, unfolding(crate::specs::Reading::semaphore_at))]
fn getzcnt(id: Id, bytes: &[u8]) -> Read<'_>
    ensures { option_map (λ x. (x.0, x.1.now)) result ≡ reading.semaphore_at (SemGetZcnt id) bytes.now }
{
    let (num, rest) = semaphore(bytes)?;
    Some((Call::SemGetZcnt { id, num }, rest))
}

#[tactic(auto, unfolding(crate::specs::Reading::setval_at))]
fn setval(id: Id, bytes: &[u8]) -> Read<'_>
    ensures { option_map (λ x. (x.0, x.1.now)) result ≡ reading.setval_at id bytes.now }
{
    let (num, rest) = semaphore(bytes)?;
    let rest = strip_front(rest, b" ")?;
    let (value, rest) = number_front(MAX_SHORT, rest)?;
    Some((Call::SemSetVal { id, num, value }, rest))
}

#[tactic(auto, unfolding(crate::specs::Reading::setall_at))]
fn setall(alloc: Global, id: Id, bytes: &[u8]) -> Result<Read<'_>, Memory>
    ensures { IfOk result (λ call. option_map (λ x. (x.0, x.1.now)) call ≡ reading.setall_at id bytes.now) }
{
    let Some((values, rest)) = values_front(alloc, MAX_SHORT, bytes)? else {
        return Ok(None);
    };
    Ok(Some((Call::SemSetAll { id, values }, rest)))
}

#[tactic(auto, unfolding(crate::specs::Reading::set_command_at))]
fn set_command(alloc: Global, id: Id, bytes: &[u8]) -> Result<Read<'_>, Memory>
    ensures { IfOk result (λ call. option_map (λ x. (x.0, x.1.now)) call ≡ reading.set_command_at id bytes.now) }
{
    if let Some(rest) = strip_front(bytes, b" getall") {
        return Ok(Some((Call::SemGetAll { id }, rest)));
    }
    if let Some(rest) = strip_front(bytes, b" rmid") {
        return Ok(Some((Call::SemRmid { id }, rest)));
    }
    if let Some(rest) = strip_front(bytes, b" getval ") {
        return Ok(getval(id, rest));
    }
    if let Some(rest) = strip_front(bytes, b" getpid ") {
        return Ok(getpid_of(id, rest));
    }
    if let Some(rest) = strip_front(bytes, b" getncnt ") {
        return Ok(getncnt(id, rest));
    }
    if let Some(rest) = strip_front(bytes, b" getzcnt ") {
        return Ok(getzcnt(id, rest));
    }
    if let Some(rest) = strip_front(bytes, b" setval ") {
        return Ok(setval(id, rest));
    }
    match strip_front(bytes, b" setall ") {
        Some(rest) => setall(alloc, id, rest),
        None => Ok(None),
    }
}

#[tactic(auto, unfolding(crate::specs::Reading::semctl_at))]
fn semctl(alloc: Global, bytes: &[u8]) -> Result<Read<'_>, Memory>
    ensures { IfOk result (λ call. option_map (λ x. (x.0, x.1.now)) call ≡ reading.semctl_at bytes.now) }
{
    match number_front(u32::MAX, bytes) {
        Some((id, rest)) => set_command(alloc, Id(id), rest),
        None => Ok(None),
    }
}

/// A call behind its name and a blank, where it has arguments.
fn arguments<'a>(
    alloc: Global,
    script: &Script,
    verb: Verb,
    bytes: &'a [u8],
) -> Result<Read<'a>, Memory>
    requires { length script.now.blocks ≤ 32 }
    ensures { IfOk result
        (λ call. option_map (λ x. (x.0, x.1.now)) call ≡ reading.arguments_at script.now verb bytes.now) }
{
    match verb {
        Verb::Fork => Ok(fork(script, bytes)),
        Verb::Exit => Ok(exit(bytes)),
        Verb::Kill => Ok(kill(bytes)),
        Verb::SigAction => Ok(sigaction(bytes)),
        Verb::SigProcMask => Ok(sigprocmask(bytes)),
        Verb::Handled => Ok(handled(bytes)),
        Verb::WaitPid => Ok(waitpid(bytes)),
        Verb::MsgGet => Ok(msgget(bytes)),
        Verb::MsgSnd => msgsnd(alloc, bytes),
        Verb::MsgRcv => Ok(msgrcv(bytes)),
        Verb::MsgCtl => Ok(msgctl(bytes)),
        Verb::SemGet => Ok(semget(bytes)),
        Verb::SemOp => semop(alloc, bytes),
        Verb::SemCtl => semctl(alloc, bytes),
        Verb::GetPid | Verb::SigPending => Ok(None),
    }
}

/// A call behind its name.
fn named<'a>(
    alloc: Global,
    script: &Script,
    verb: Verb,
    bytes: &'a [u8],
) -> Result<Read<'a>, Memory>
    requires { length script.now.blocks ≤ 32 }
    ensures { IfOk result (λ call. option_map (λ x. (x.0, x.1.now)) call ≡ reading.call_by script.now verb bytes.now) }
{
    match verb {
        Verb::GetPid => Ok(Some((Call::GetPid, bytes))),
        Verb::SigPending => Ok(Some((Call::SigPending, bytes))),
        _ => match strip_front(bytes, b" ") {
            Some(rest) => arguments(alloc, script, verb, rest),
            None => Ok(None),
        },
    }
}

/// A withdrawal from the queue of this number.
#[tactic(auto, unfolding(crate::specs::Reading::withdrawal_from_at))]
fn withdrawal_from_queue(bytes: &[u8]) -> Read<'_>
    ensures { option_map (λ x. (x.0, x.1.now)) result ≡ reading.withdrawal_from_at Msg bytes.now }
{
    let (id, rest) = number_front(u32::MAX, bytes)?;
    let name = Name::Msg(Id(id));
    Some((Call::Withdraw { name }, rest))
}

/// A withdrawal from the semaphore set of this number.
#[tactic(auto, unfolding(crate::specs::Reading::withdrawal_from_at))]
fn withdrawal_from_set(bytes: &[u8]) -> Read<'_>
    ensures { option_map (λ x. (x.0, x.1.now)) result ≡ reading.withdrawal_from_at Sem bytes.now }
{
    let (id, rest) = number_front(u32::MAX, bytes)?;
    let name = Name::Sem(Id(id));
    Some((Call::Withdraw { name }, rest))
}

/// A withdrawal from the wait for the child of this number, or for any where it is the caller's own.
#[tactic(auto, unfolding(crate::specs::Reading::withdrawal_from_at))]
fn withdrawal_from_process(bytes: &[u8]) -> Read<'_>
    ensures { option_map (λ x. (x.0, x.1.now)) result ≡ reading.withdrawal_from_at Proc bytes.now }
{
    let (pid, rest) = number_front(u32::MAX, bytes)?;
    let name = Name::Proc(Pid(pid));
    Some((Call::Withdraw { name }, rest))
}

#[tactic(auto, unfolding(crate::specs::Reading::withdrawal_at))]
fn withdrawal(bytes: &[u8]) -> Read<'_>
    ensures { option_map (λ x. (x.0, x.1.now)) result ≡ reading.withdrawal_at bytes.now }
{
    if let Some(rest) = strip_front(bytes, b"msg ") {
        return withdrawal_from_queue(rest);
    }
    if let Some(rest) = strip_front(bytes, b"sem ") {
        return withdrawal_from_set(rest);
    }
    match strip_front(bytes, b"proc ") {
        Some(rest) => withdrawal_from_process(rest),
        None => None,
    }
}

/// What no script calls, where this is its word: the end by a signal, and the end of a wait, as a trace has them in a
/// call's place.
#[tactic(auto, unfolding(crate::specs::Reading::no_call_at))]
fn no_call<'a>(word: &[u8], bytes: &'a [u8]) -> Read<'a>
    ensures { option_map (λ x. (x.0, x.1.now)) result ≡ reading.no_call_at word.now bytes.now }
{
    if word == b"killed".as_slice() {
        return killed(strip_front(bytes, b" ")?);
    }
    if word == b"withdraw".as_slice() {
        withdrawal(strip_front(bytes, b" ")?)
    } else {
        None
    }
}

/// The call that is named at the front, with its arguments.
#[tactic(auto, unfolding(crate::specs::Reading::call_at))]
pub(crate) fn call_front<'a>(
    alloc: Global,
    script: &Script,
    bytes: &'a [u8],
) -> Result<Read<'a>, Memory>
    requires { length script.now.blocks ≤ 32 }
    ensures { IfOk result (λ call. option_map (λ x. (x.0, x.1.now)) call ≡ reading.call_at script.now bytes.now) }
{
    let (word, rest) = word_front(bytes);
    match Verb::named(word) {
        Some(verb) => named(alloc, script, verb, rest),
        None => Ok(no_call(word, rest)),
    }
}
