//! The text of a history of POSIX message queues, by the journal of the System V run behind it.

ghost use Rattle.std.specs.Prelude.{◌≡◌, ◌++◌, ◌∷◌, [], List, IfOk, OnOk};
ghost use Rattle.std.specs.List.{flat_map};
ghost use Rattle.pico_base.specs.declared.reply.Entry.{Entry as EntryValue};
ghost use Rattle.number_maps.specs.Maps.{get};
ghost use Rattle.trace_text.specs.Totals.{tally_of};
ghost use Rattle.mq_model.specs.Fitting.{written_error};
ghost use Rattle.mq_model.specs.Lines.{script_given};
ghost use Rattle.mq_model.specs.Shown.{history_of};
ghost use Rattle.mq_model.specs.Text.{mq_line, mq_trace_text};
ghost use Rattle.posix_mq.specs.Told as told;

use crate::follow::{Places, due_in, opening, pass};
use crate::script::MqScript;
use crate::show::{push_refused, push_shown};
use crate::system_v::unfit;
use mq_model::MqErrno;
use pico_base::{Bytes, Call, Entry, Errno, Memory, Outcome, Reply, Script};
use std::alloc::Global;
use std::slice;
use trace_text::{Tally, push_tally};

/// A given call that its arguments refuse, and why.
#[derive(Drop)]
pub(crate) struct Refusal {
    pub(crate) call: Call,
    pub(crate) why: MqErrno,
}

fn refused_as(call: Option<Call>) -> Option<Refusal>
    ensures { result ≡ told.refused_as call }
{
    let call = call?;
    let why = unfit(&call)?;
    Some(Refusal { call, why })
}

/// The given call that an entry stands for, where its arguments refuse it.
fn refusal_at(alloc: Global, places: &Places, entry: &Entry) -> Result<Option<Refusal>, Memory>
    ensures { IfOk result
        (λ refusal. refusal ≡ told.refusal_at entry.now (get places.now.entries entry.now.pid)) }
{
    match &entry.call {
        Call::SigPending => Ok(refused_as(due_in(alloc, places, entry.pid)?)),
        _ => Ok(None),
    }
}

/// The error that counts as much.
fn counted_error(why: MqErrno) -> Errno
    ensures { result ≡ written_error why }
{
    match why {
        MqErrno::Base(errno) => errno,
        MqErrno::Ebadf | MqErrno::Emsgsize => Errno::Einval,
    }
}

/// Counts an entry of a call that its arguments refuse.
fn count_refused(
    alloc: Global,
    tally: &mut Tally,
    entry: &Entry,
    refusal: &Refusal,
) -> Result<(), Memory>
    ensures { (before : List EntryValue) → tally.old ≡ tally_of before
        → OnOk result (tally.new ≡ tally_of (before ++ told.counted_of entry.now (Some refusal.now) ∷ [])) }
{
    let counted = Entry {
        pid: entry.pid,
        call: Call::SigPending,
        outcome: Outcome::reply(alloc, Reply::Fail(counted_error(refusal.why))),
        by: entry.by,
    };
    tally.add(slice::from_ref(&counted))
}

/// Counts an entry.
fn count(
    alloc: Global,
    tally: &mut Tally,
    entry: &Entry,
    refusal: &Option<Refusal>,
) -> Result<(), Memory>
    ensures { (before : List EntryValue) → tally.old ≡ tally_of before
        → OnOk result (tally.new ≡ tally_of (before ++ told.counted_of entry.now refusal.now ∷ [])) }
{
    match refusal {
        Some(refusal) => count_refused(alloc, tally, entry, refusal),
        None => tally.add(slice::from_ref(entry)),
    }
}

/// Adds the line of an entry.
fn push_line(
    alloc: Global,
    out: &mut Vec<u8>,
    script: &Script,
    entry: &Entry,
    refusal: &Option<Refusal>,
) -> Result<(), Memory>
    ensures { OnOk result
        (out.new.items ≡ out.old.items ++ mq_line script.now (told.told_of entry.now refusal.now)) }
{
    match refusal {
        Some(refusal) => push_refused(alloc, out, script, entry, &refusal.call, refusal.why),
        None => push_shown(alloc, out, script, entry),
    }
}

/// Adds a line for each entry, and gives what the totals count.
fn push_lines(
    alloc: Global,
    out: &mut Vec<u8>,
    script: &Script,
    given: &Script,
    journal: &[Entry],
) -> Result<Tally, Memory>
    ensures text { OnOk result (out.new.items
        ≡ out.old.items ++ flat_map (mq_line script.now) (history_of given.now journal.now)) }
    ensures tally { IfOk result (λ tally. tally ≡ tally_of (told.counted given.now journal.now)) }
{
    let mut tally = Tally::new();
    let mut places = opening(alloc, given)?;
    for entry in journal {
        let refusal = refusal_at(alloc, &places, entry)?;
        push_line(alloc, out, script, entry, &refusal)?;
        count(alloc, &mut tally, entry, &refusal)?;
        pass(alloc, given, &mut places, entry)?;
    }
    Ok(tally)
}

/// The text of the history of POSIX message queues that a journal of the System V script's run stands for: a line for
/// each entry, by the same nodes, and the totals line.
pub fn mq_trace(alloc: Global, script: &MqScript, journal: &[Entry]) -> Result<Bytes, Memory>
    ensures { IfOk result (λ text. text ≡ mq_trace_text script.now.script
        (history_of (script_given script.now.script script.now.lines) journal.now)) }
{
    let given = script.given(alloc)?;
    let mut out = Vec::new(alloc);
    let tally = push_lines(alloc, &mut out, &script.script, &given, journal)?;
    push_tally(&mut out, &tally)?;
    Ok(Bytes::from_vec(out))
}
