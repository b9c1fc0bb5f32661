//! The totals line of a history: what it counts, and its text.
ghost use Rattle.std.specs.Prelude.{◌≡◌, false, List, [], ◌∷◌, ◌++◌, Some, if◌then◌else◌, IfOk, OnOk, IsTrue};
ghost use Rattle.kernel_model.specs.Trace as trace;
ghost use Rattle.pico_base.specs.declared.reply.Entry.{Entry};
ghost use Rattle.trace_text.specs.Totals.{tally_of, with_made};

use crate::fields::push_labelled;
use crate::text::push_byte;
use pico_base::{Bytes, Call, Entries, Entry, Errno, Memory, Outcome, Reply};
use std::alloc::Global;
use std::marker::Model;

fn is_fork(call: &Call) -> bool
    ensures { result ≡ trace.is_fork call.now }
{
    matches!(call, Call::Fork { .. })
}

fn is_failure(own: &Option<Reply>) -> bool
    ensures not_ready { result ≡ false → trace.is_not_ready_reply own.now ≡ false }
    ensures refused { result ≡ false → trace.is_refused_reply own.now ≡ false }
{
    matches!(own, Some(Reply::Fail(_)))
}

// Whether a call with this outcome counts only as an entry: it doesn't fork, isn't refused, and wakes nobody.
fn is_plain(call: &Call, outcome: &Outcome) -> bool
    ensures fork { IsTrue result → trace.is_fork call.now ≡ false }
    ensures not_ready { IsTrue result → trace.replies_where trace.is_not_ready_reply outcome.now ≡ 0 }
    ensures refused { IsTrue result → trace.replies_where trace.is_refused_reply outcome.now ≡ 0 }
{
    !is_fork(call) && !is_failure(&outcome.own) && outcome.woken.as_slice().is_empty()
}

// ENOMSG or EAGAIN: nothing was ready.
fn is_not_ready(errno: Errno) -> bool
    ensures { result ≡ trace.is_not_ready errno }
{
    matches!(errno, Errno::Enomsg | Errno::Eagain)
}

// What the totals line counts of a reply.
#[derive(Clone, Copy)]
struct Refusals {
    not_ready: usize,
    refused: usize,
}

fn refusals_in(reply: &Reply) -> Refusals
    ensures not_ready { result.not_ready ≡ (if trace.is_not_ready_reply (Some reply.now) then 1 else 0) }
    ensures refused { result.refused ≡ (if trace.is_refused_reply (Some reply.now) then 1 else 0) }
{
    match reply {
        Reply::Fail(errno) => {
            let not_ready = is_not_ready(*errno);
            Refusals {
                not_ready: usize::from(not_ready),
                refused: usize::from(!not_ready),
            }
        }
        _ => Refusals {
            not_ready: 0,
            refused: 0,
        },
    }
}

fn refusals_in_own(own: &Option<Reply>) -> Refusals
    ensures not_ready { result.not_ready ≡ (if trace.is_not_ready_reply own.now then 1 else 0) }
    ensures refused { result.refused ≡ (if trace.is_refused_reply own.now then 1 else 0) }
{
    match own {
        Some(reply) => refusals_in(reply),
        None => Refusals {
            not_ready: 0,
            refused: 0,
        },
    }
}

// Of an outcome's replies: the caller's own, and those of the callers that it wakes.
fn refusals_of(outcome: &Outcome) -> Refusals
    ensures not_ready { result.not_ready ≡ trace.replies_where trace.is_not_ready_reply outcome.now }
    ensures refused { result.refused ≡ trace.replies_where trace.is_refused_reply outcome.now }
{
    let own = refusals_in_own(&outcome.own);
    let mut not_ready = 0;
    let mut refused = 0;
    for (_, reply) in outcome.woken.as_slice() {
        let one = refusals_in(reply);
        not_ready += one.not_ready;
        refused += one.refused;
    }
    Refusals {
        not_ready: not_ready + own.not_ready,
        refused: refused + own.refused,
    }
}

/// What the totals line counts of a history so far: its entries, those that fork, the replies that nothing was ready
/// (ENOMSG and EAGAIN), and the other refusals. The entries themselves needn't be kept.
#[derive(Clone, Copy)]
pub struct Tally {
    pub(crate) entries: u64,
    pub(crate) forks: u64,
    pub(crate) not_ready: u64,
    pub(crate) refused: u64,
}

impl Model for Tally {
    ghost use Rattle.trace_text.specs.Totals.{Counts};

    ghost Value = { Counts };

    ghost view = { λ t. record {
      entries = t.entries;
      forks = t.forks;
      not_ready = t.not_ready;
      refused = t.refused;
    } };

    ghost inverse = { λ c. record {
      entries = c.entries;
      forks = c.forks;
      not_ready = c.not_ready;
      refused = c.refused;
    } };
}

impl Tally {
    /// The tally of a history that has no entries yet.
    #[tactic(auto, unfolding(crate::specs::Totals::tally_of))]
    pub fn new() -> Tally
        ensures { result ≡ tally_of [] }
    {
        Tally {
            entries: 0,
            forks: 0,
            not_ready: 0,
            refused: 0,
        }
    }

    // Counts one more entry, by its call and its outcome. Most count only as an entry.
    fn add_made(&mut self, call: &Call, outcome: &Outcome) -> Result<(), Memory>
        ensures { OnOk result (self.new ≡ with_made self.old call.now outcome.now) }
    {
        if !is_plain(call, outcome) {
            return self.add_counted(call, outcome);
        }
        self.entries = self.entries.checked_add(1).ok_or(Memory)?;
        Ok(())
    }

    // Counts one more entry, and what else it counts as.
    #[inline(never)]
    fn add_counted(&mut self, call: &Call, outcome: &Outcome) -> Result<(), Memory>
        ensures { OnOk result (self.new ≡ with_made self.old call.now outcome.now) }
    {
        let more = refusals_of(outcome);
        self.entries = self.entries.checked_add(1).ok_or(Memory)?;
        self.forks = self
            .forks
            .checked_add(u64::from(is_fork(call)))
            .ok_or(Memory)?;
        self.not_ready = self
            .not_ready
            .checked_add(more.not_ready as u64)
            .ok_or(Memory)?;
        self.refused = self.refused.checked_add(more.refused as u64).ok_or(Memory)?;
        Ok(())
    }

    /// Counts the history's next entry, of which the call and its outcome are enough. Memory: a count is past 64 bits,
    /// and nothing is said of the tally then.
    pub fn add_call(&mut self, call: &Call, outcome: &Outcome) -> Result<(), Memory>
        ensures { (before : List Entry) (e : Entry) → e.call ≡ call.now → e.outcome ≡ outcome.now
            → self.old ≡ tally_of before → OnOk result (self.new ≡ tally_of (before ++ e ∷ [])) }
    {
        self.add_made(call, outcome)
    }

    /// Counts the history's next entries. Memory: a count is past 64 bits, and nothing is said of the tally then.
    pub fn add(&mut self, entries: &[Entry]) -> Result<(), Memory>
        ensures { (before : List Entry) → self.old ≡ tally_of before
            → OnOk result (self.new ≡ tally_of (before ++ entries.now)) }
    {
        for entry in entries {
            self.add_made(&entry.call, &entry.outcome)?;
        }
        Ok(())
    }
}

/// Adds the first part of the totals: the entries.
#[tactic(auto, unfolding(kernel_model::specs::Trace::entries_total))]
pub fn push_entries_total(out: &mut Vec<u8>, count: u64) -> Result<(), Memory>
    ensures { OnOk result (out.new.items ≡ out.old.items ++ trace.entries_total count) }
{
    push_labelled(out, b"totals entries ", count)
}

/// Adds the second part of the totals: the processes.
#[tactic(auto, unfolding(kernel_model::specs::Trace::processes_total))]
pub fn push_processes_total(out: &mut Vec<u8>, count: u64) -> Result<(), Memory>
    ensures { OnOk result (out.new.items ≡ out.old.items ++ trace.processes_total count) }
{
    push_labelled(out, b" processes ", count)
}

/// Adds the third part of the totals: the replies that nothing was ready.
#[tactic(auto, unfolding(kernel_model::specs::Trace::not_ready_total))]
pub fn push_not_ready_total(out: &mut Vec<u8>, count: u64) -> Result<(), Memory>
    ensures { OnOk result (out.new.items ≡ out.old.items ++ trace.not_ready_total count) }
{
    push_labelled(out, b" notready ", count)
}

/// Adds the last part of the totals: the other refusals.
#[tactic(auto, unfolding(kernel_model::specs::Trace::refused_total))]
pub fn push_refused_total(out: &mut Vec<u8>, count: u64) -> Result<(), Memory>
    ensures { OnOk result (out.new.items ≡ out.old.items ++ trace.refused_total count) }
{
    push_labelled(out, b" refused ", count)
}

/// Adds the totals line of the history that was counted: its entries, its processes (one more than its forks), the
/// replies that nothing was ready, and the other refusals. Memory: more was needed, and an allocation was refused, or
/// the processes are past 64 bits.
#[tactic(auto, unfolding(crate::specs::Totals::tally_of))]
pub fn push_tally(out: &mut Vec<u8>, tally: &Tally) -> Result<(), Memory>
    ensures { (history : List Entry) → tally.now ≡ tally_of history
        → OnOk result (out.new.items ≡ out.old.items ++ trace.totals_line history) }
{
    let processes = tally.forks.checked_add(1).ok_or(Memory)?;
    push_entries_total(out, tally.entries)?;
    push_processes_total(out, processes)?;
    push_not_ready_total(out, tally.not_ready)?;
    push_refused_total(out, tally.refused)?;
    push_byte(out, b'\n')
}

pub(crate) fn push_totals(out: &mut Vec<u8>, journal: &[Entry]) -> Result<(), Memory>
    ensures { OnOk result (out.new.items ≡ out.old.items ++ trace.totals_line journal.now) }
{
    let mut tally = Tally::new();
    tally.add(journal)?;
    push_tally(out, &tally)
}

/// The last line of a history's text: its entries, its processes (one more than its forks), the entries where nothing
/// was ready (ENOMSG and EAGAIN), and the other refusals.
pub fn write_totals(alloc: Global, journal: &Entries) -> Result<Bytes, Memory>
    ensures { IfOk result (λ text. text ≡ trace.totals_line journal.now) }
{
    let mut out = Vec::new(alloc);
    push_totals(&mut out, journal.as_slice())?;
    Ok(Bytes::from_vec(out))
}
