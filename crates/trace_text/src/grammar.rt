//! Which entries have a line in the grammar of a trace.
ghost use Rattle.std.specs.Prelude.{◌≡◌, ◌&&◌, ◌≤◌, nat_le, length};
ghost use Rattle.std.specs.List.{list_all};
ghost use Rattle.kernel_model.specs.Numbers.{is_u16, is_u32, is_byte, is_between};
ghost use Rattle.kernel_model.specs.Texts.{is_repeated};
ghost use Rattle.kernel_model.specs.Script.{is_type, is_key, is_child, is_place, is_step_in_range};
ghost use Rattle.trace_text.specs.Grammar as grammar;

use crate::text::is_repeat;
use pico_base::{Call, Ending, Entry, Id, Key, Name, Node, Outcome, Pid, Reply, Script, SemStep};

/// The most bytes that `rep:N:C` stands for.
const MAX_REPEATED: usize = 8192;

fn is_long(number: u32) -> bool
    ensures { result ≡ is_u32 number }
{
    number <= u32::MAX
}

fn is_short(number: u32) -> bool
    ensures { result ≡ is_u16 number }
{
    number <= 65_535
}

fn is_process(pid: Pid) -> bool
    ensures { result ≡ is_u32 pid }
{
    is_long(pid.0)
}

fn is_id(id: Id) -> bool
    ensures { result ≡ is_u32 id }
{
    is_long(id.0)
}

fn is_octet(byte: u8) -> bool
    ensures { result ≡ is_byte byte }
{
    u32::from(byte) <= 255
}

fn are_octets(bytes: &[u8]) -> bool
    ensures { result ≡ list_all is_byte bytes.now }
{
    bytes.iter().all(|byte| is_octet(*byte))
}

fn is_text(text: &[u8]) -> bool
    ensures { result ≡ grammar.is_text text.now }
{
    are_octets(text) && (!is_repeat(text) || text.len() <= MAX_REPEATED)
}

fn is_class(class: i32) -> bool
    ensures { result ≡ is_type class }
{
    class >= -2_147_483_647 && class <= 2_147_483_647
}

/// Whether there is a block of this number.
fn is_block(script: &Script, block: Node) -> bool
    ensures { result ≡ grammar.is_block script.now block }
{
    block.0 >= 1 && block.0 <= 32 && usize::from(block.0) - 1 < script.blocks.len()
}

fn is_child_number(child: Option<Pid>) -> bool
    ensures { result ≡ is_child child }
{
    match child {
        None => true,
        Some(child) => is_process(child),
    }
}

fn is_key_with(key: Option<Key>, create: bool, excl: bool) -> bool
    ensures { result ≡ is_key key create excl }
{
    match key {
        None => !create && !excl,
        Some(key) => 0 < key.0 && is_long(key.0),
    }
}

fn is_semaphore(id: Id, num: u16) -> bool
    ensures { result ≡ is_place id num }
{
    is_id(id) && is_short(u32::from(num))
}

fn is_step(step: SemStep) -> bool
    ensures { result ≡ is_step_in_range step }
{
    is_short(u32::from(step.num)) && step.add >= -65_535 && step.add <= 65_535
}

fn has_some(count: usize) -> bool
    ensures { result ≡ nat_le 1 count }
{
    1 <= count
}

fn all_are_steps(steps: &[SemStep]) -> bool
    ensures { result ≡ list_all is_step_in_range steps.now }
{
    steps.iter().all(|step| is_step(*step))
}

fn all_are_short(values: &[u32]) -> bool
    ensures { result ≡ list_all is_u16 values.now }
{
    values.iter().all(|value| is_short(*value))
}

fn all_are_long(values: &[u32]) -> bool
    ensures { result ≡ list_all is_u32 values.now }
{
    values.iter().all(|value| is_long(*value))
}

fn are_steps(steps: &[SemStep]) -> bool
    ensures { result ≡ (nat_le 1 (length steps.now) && list_all is_step_in_range steps.now) }
{
    has_some(steps.len()) && all_are_steps(steps)
}

fn are_short(values: &[u32]) -> bool
    ensures { result ≡ (nat_le 1 (length values.now) && list_all is_u16 values.now) }
{
    has_some(values.len()) && all_are_short(values)
}

fn are_long(values: &[u32]) -> bool
    ensures { result ≡ (nat_le 1 (length values.now) && list_all is_u32 values.now) }
{
    has_some(values.len()) && all_are_long(values)
}

/// Whether the name that a withdrawal has is a number of a trace's line.
fn is_withdrawal(name: &Name) -> bool
    ensures { result ≡ grammar.is_withdrawal name.now }
{
    match name {
        Name::Proc(pid) => is_process(*pid),
        Name::Msg(id) | Name::Sem(id) => is_id(*id),
    }
}

/// Whether the call's arguments are in the ranges of a trace's line.
pub fn is_call(script: &Script, call: &Call) -> bool
    ensures { result ≡ grammar.is_call script.now call.now }
{
    match call {
        Call::Fork { block } => is_block(script, *block),
        Call::Exit { status } => is_short(u32::from(*status)),
        Call::Killed { .. } | Call::GetPid => true,
        Call::Kill { pid, .. } => is_process(*pid),
        Call::SigAction { .. }
        | Call::SigProcMask { .. }
        | Call::SigPending
        | Call::Handled { .. } => true,
        Call::WaitPid { child, .. } => is_child_number(*child),
        Call::MsgGet { key, create, excl } => is_key_with(*key, *create, *excl),
        Call::MsgSnd {
            id,
            class,
            text,
            ..
        } => is_id(*id) && is_class(*class) && is_text(text.as_slice()),
        Call::MsgRcv {
            id,
            class,
            size,
            ..
        } => is_id(*id) && is_class(*class) && is_short(*size),
        Call::MsgStat { id } | Call::MsgRmid { id } => is_id(*id),
        Call::MsgSet { id, qbytes } => is_id(*id) && is_short(*qbytes),
        Call::SemGet {
            key,
            count,
            create,
            excl,
        } => is_key_with(*key, *create, *excl) && is_short(*count),
        Call::SemOp { id, steps } => is_id(*id) && are_steps(steps.as_slice()),
        Call::SemGetVal { id, num }
        | Call::SemGetPid { id, num }
        | Call::SemGetNcnt { id, num }
        | Call::SemGetZcnt { id, num } => is_semaphore(*id, *num),
        Call::SemSetVal { id, num, value } => is_semaphore(*id, *num) && is_short(*value),
        Call::SemGetAll { id } | Call::SemRmid { id } => is_id(*id),
        Call::SemSetAll { id, values } => is_id(*id) && are_short(values.as_slice()),
        Call::Withdraw { name } => is_withdrawal(name),
    }
}

fn is_ending(ending: Ending) -> bool
    ensures { result ≡ grammar.is_ending ending }
{
    match ending {
        Ending::Exited(status) => is_octet(status),
        Ending::Killed(_) => true,
    }
}

/// Whether the reply's numbers are in the ranges of a trace's line.
pub fn is_reply(reply: &Reply) -> bool
    ensures { result ≡ grammar.is_reply reply.now }
{
    match reply {
        Reply::Num(number) => is_long(*number),
        Reply::Child { pid, ending } => is_process(*pid) && is_ending(*ending),
        Reply::Message { class, text } => is_class(*class) && is_text(text.as_slice()),
        Reply::Stat {
            qnum,
            qbytes,
            lspid,
            lrpid,
        } => is_long(*qnum) && is_long(*qbytes) && is_process(*lspid) && is_process(*lrpid),
        Reply::All(values) => are_long(values.as_slice()),
        Reply::Bits(_) | Reply::Ended | Reply::Fail(_) => true,
    }
}

fn is_own(own: &Option<Reply>) -> bool
    ensures { result ≡ grammar.is_own own.now }
{
    match own {
        Some(reply) => is_reply(reply),
        None => true,
    }
}

fn is_wake(pid: Pid, reply: &Reply) -> bool
    ensures { result ≡ grammar.is_wake (pid, reply.now) }
{
    is_process(pid) && is_reply(reply)
}

fn are_wakes(woken: &[(Pid, Reply)]) -> bool
    ensures { result ≡ list_all grammar.is_wake woken.now }
{
    woken.iter().all(|wake| is_wake(wake.0, &wake.1))
}

/// Whether the numbers of what a call came to are in the ranges of a trace's line: the caller's own reply, where it has
/// one, and each caller that is woken with its reply. It says nothing of whether the call comes to that.
pub fn is_outcome(outcome: &Outcome) -> bool
    ensures { result ≡ grammar.is_outcome outcome.now }
{
    is_own(&outcome.own) && are_wakes(outcome.woken.as_slice())
}

fn is_node(node: Node) -> bool
    ensures { result ≡ is_between 1 32 node }
{
    node.0 >= 1 && node.0 <= 32
}

/// Whether the entry has a line.
pub(crate) fn is_entry(script: &Script, entry: &Entry) -> bool
    ensures { result ≡ grammar.is_entry script.now entry.now }
{
    is_process(entry.pid)
        && is_call(script, &entry.call)
        && is_outcome(&entry.outcome)
        && is_node(entry.by)
}
