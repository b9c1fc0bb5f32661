//! Which call of a process is due, and what may stand in its place.
ghost use Rattle.std.specs.Prelude.{◌≡◌, ◌&&◌, option_map, IfOk};
ghost use Rattle.kernel_model.specs.Script.{IsSoundScript};
ghost use Rattle.kernel_model.specs.Fitting.{due, is_killed};
ghost use Rattle.waiting_model.specs.Calls.{is_same_name, waits_at};
ghost use Rattle.waiting_model.specs.Kernel.{living_at};
ghost use Rattle.waiting_model.specs.Marks.{is_parked_at};
ghost use Rattle.trace_check.specs.Cursors.{due_in, first_going_of, may_come_in, place_of, progress_of};
ghost use Rattle.trace_check.specs.FirstFault.{due_by, due_of, goes_on, last_doom, may_follow, may_stand, withdrawal};
ghost use Rattle.trace_check.specs.Standings.{doom_in};

use crate::cursor::Cursor;
use crate::same::{Texts, is_same_call};
use mono_kernel::{Kernel, Standing};
use number_table::Table;
use pico_base::{Call, Memory, Name, Pid, Script, Sig};

/// Process 1 and the forked processes, by number. Each block is forked by one line at most, so there are 32 at most.
pub(crate) type Cursors = Table<Cursor>;

/// The signal that ends a process of this standing which isn't parked and may have no further entry before its end.
fn doom_in(standing: Standing) -> Option<Sig>
    ensures { result ≡ doom_in standing }
{
    match standing {
        Standing::Doomed { sig, more } if more == 0 => Some(sig),
        _ => None,
    }
}

/// The signal that ends a process which isn't parked and may have no further entry before its end.
pub(crate) fn last_doom(kernel: &Kernel, pid: Pid) -> Option<Sig>
    ensures { result ≡ last_doom (living_at kernel.now pid) }
{
    doom_in(kernel.standing(pid))
}

/// Where this call of the process waits.
fn waits_at(pid: Pid, call: &Call) -> Name
    ensures { result ≡ waits_at pid call.now }
{
    match call {
        Call::MsgSnd { id, .. } | Call::MsgRcv { id, .. } => Name::Msg(*id),
        Call::SemOp { id, .. } => Name::Sem(*id),
        _ => Name::Proc(pid),
    }
}

/// The withdrawal from where the call waits, if there is one.
fn withdrawal(pid: Pid, call: &Option<Call>) -> Option<Call>
    ensures { result ≡ option_map (withdrawal pid) call.now }
{
    match call {
        Some(call) => Some(Call::Withdraw {
            name: waits_at(pid, call),
        }),
        None => None,
    }
}

/// What the process must do next, where this signal ends it next.
fn due_of(
    script: &Script,
    pid: Pid,
    doom: Option<Sig>,
    cursor: &Cursor,
) -> Result<Option<Call>, Memory>
    requires { IsSoundScript script.now }
    ensures { IfOk result (λ due. due ≡ due_of pid doom (progress_of script.now cursor.now)) }
{
    if cursor.is_parked() {
        return Ok(withdrawal(pid, &cursor.due(script)?));
    }
    match doom {
        None => cursor.due(script),
        Some(sig) if cursor.has_call(script) => Ok(Some(Call::Killed { sig })),
        Some(_) => Ok(None),
    }
}

/// What a process's next call must be, where this signal ends it next.
pub(crate) fn due_in(
    script: &Script,
    cursors: &Cursors,
    pid: Pid,
    doom: Option<Sig>,
) -> Result<Option<Call>, Memory>
    requires { IsSoundScript script.now }
    ensures { IfOk result (λ due. due ≡ due_in script.now cursors.now.entries pid doom) }
{
    match cursors.get(pid.0) {
        Some(cursor) => due_of(script, pid, doom, cursor),
        None => Ok(None),
    }
}

fn is_killed(call: &Call) -> bool
    ensures { result ≡ is_killed call.now }
{
    matches!(call, Call::Killed { .. })
}

/// Whether the call found is the one that is due, or an end by a signal in place of the script's call.
fn may_stand(
    script: &Script,
    doom: Option<Sig>,
    cursor: &Cursor,
    found: &Call,
    texts: &mut Texts,
) -> Result<bool, Memory>
    requires { IsSoundScript script.now }
    ensures { IfOk result (λ may. may
        ≡ may_stand script.now doom (due_by doom (due (place_of script.now cursor.now))) found.now) }
{
    if !cursor.has_call(script) {
        return Ok(false);
    }
    match doom {
        Some(sig) => is_same_call(script, &Call::Killed { sig }, found, texts),
        None if is_killed(found) => Ok(true),
        None => cursor.is_due(script, found, texts),
    }
}

fn is_same_name(name: &Name, other: &Name) -> bool
    ensures { result ≡ is_same_name name.now other.now }
{
    match (name, other) {
        (Name::Proc(pid), Name::Proc(other)) => *pid == *other,
        (Name::Msg(id), Name::Msg(other)) => *id == *other,
        (Name::Sem(id), Name::Sem(other)) => *id == *other,
        _ => false,
    }
}

/// Whether the call waits at this name.
fn is_parked_at(pid: Pid, name: &Name, call: &Option<Call>) -> bool
    ensures { result ≡ is_parked_at pid name.now call.now }
{
    match call {
        Some(call) => is_same_name(name, &waits_at(pid, call)),
        None => false,
    }
}

/// Whether the process waits at this name.
fn may_withdraw(script: &Script, pid: Pid, cursor: &Cursor, name: &Name) -> Result<bool, Memory>
    requires { IsSoundScript script.now }
    ensures { IfOk result (λ may. may ≡ ((progress_of script.now cursor.now).parked
        && is_parked_at pid name.now (due (place_of script.now cursor.now)))) }
{
    if !cursor.is_parked() {
        return Ok(false);
    }
    Ok(is_parked_at(pid, name, &cursor.due(script)?))
}

/// Whether the call found is one that the process may make next.
fn may_follow(
    script: &Script,
    pid: Pid,
    doom: Option<Sig>,
    cursor: &Cursor,
    found: &Call,
    texts: &mut Texts,
) -> Result<bool, Memory>
    requires { IsSoundScript script.now }
    ensures { IfOk result
        (λ may. may ≡ may_follow script.now pid doom (progress_of script.now cursor.now) found.now) }
{
    if let Call::Withdraw { name } = found {
        return may_withdraw(script, pid, cursor, name);
    }
    if cursor.is_parked() {
        return Ok(false);
    }
    may_stand(script, doom, cursor, found, texts)
}

/// Whether the call found is one that the process of this number may make next, where this signal ends it next.
pub(crate) fn may_come(
    script: &Script,
    cursors: &Cursors,
    pid: Pid,
    doom: Option<Sig>,
    found: &Call,
    texts: &mut Texts,
) -> Result<bool, Memory>
    requires { IsSoundScript script.now }
    ensures { IfOk result (λ may. may ≡ may_come_in script.now cursors.now.entries pid doom found.now) }
{
    match cursors.get(pid.0) {
        Some(cursor) => may_follow(script, pid, doom, cursor, found, texts),
        None => Ok(false),
    }
}

/// The process of the smallest number that has neither ended nor waits.
pub(crate) fn first_going(script: &Script, cursors: &Cursors) -> Option<Pid>
    requires { IsSoundScript script.now }
    ensures { result ≡ first_going_of script.now cursors.now.entries }
{
    let entries = cursors.as_slice();
    for (pid, cursor) in entries {
        if goes_on(script, cursor) {
            return Some(Pid(*pid));
        }
    }
    None
}

/// Whether the process has neither ended nor waits.
fn goes_on(script: &Script, cursor: &Cursor) -> bool
    requires { IsSoundScript script.now }
    ensures { result ≡ goes_on (progress_of script.now cursor.now) }
{
    !cursor.is_parked() && cursor.has_call(script)
}
