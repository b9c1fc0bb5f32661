//! What the entries so far have led to, and the judging of the next one.
ghost use Rattle.std.specs.Prelude.{◌≡◌, ◌^◌, ◌<◌, ◌-◌, ◌∷◌, ◌++◌, [], List, fold, IsTrue, IfOk, IfSome, OnOk, is_some, Some};
ghost use Rattle.pico_base.specs.declared.reply.Entry.{Entry as EntryValue};
ghost use Rattle.kernel_model.specs.Fitting.{due};
ghost use Rattle.kernel_model.specs.History.{number_in};
ghost use Rattle.kernel_model.specs.Script.{IsSoundScript};
ghost use Rattle.kernel_model.specs.Trace.{totals_line};
ghost use Rattle.number_maps.specs.Maps.{get};
ghost use Rattle.waiting_model.specs.Kernel.{opening};
ghost use Rattle.waiting_model.specs.Transition.{transition};
ghost use Rattle.trace_text.specs.Reading.{is_line as is_line_of};
ghost use Rattle.trace_text.specs.Totals.{tally_of};
ghost use Rattle.trace_check.specs.Cursors.{AreSteady, IsSteady, MayMake, MayMakeAt, after_made, after_woken, beginning, forked_at, forked_by, may_fork, moved_at, moved_on, place_of, places_of};
ghost use Rattle.trace_check.specs.FirstFault.{Gives, first_going, judge_entry, judge_made, judge_outcome, judge_totals};
ghost use Rattle.trace_check.specs.Judging.{Carried, Yields, so_far_of};

mod lines;

use crate::check::Legal;
use crate::cursor::Cursor;
use crate::due::{Cursors, due_in, first_going, last_doom, may_come};
use crate::same::{Texts, is_same_outcome};
use mono_kernel::{CallFault, Kernel};
use number_table::Table;
use pico_base::{Call, Entry, Memory, Node, Outcome, Pid, Reply, Script, Vars};
use std::alloc::Global;
use std::slice;
use trace_text::{CheckFault, Tally, begins_like_totals, is_line, push_tally};

/// The kernel, the processes in their blocks, and what the totals count.
#[derive(Drop)]
pub(crate) struct Judge {
    alloc: Global,
    kernel: Kernel,
    cursors: Cursors,
    tally: Tally,
    texts: Texts,
    /// What the kernel did, where the line says otherwise.
    other: Option<Outcome>,
    /// The first fault.
    fault: Option<CheckFault>,
}

/// The number that a call with this reply may have created: the one in it, and else 0.
fn number_in(own: &Option<Reply>) -> u32
    ensures { result ≡ number_in own.now }
{
    match own {
        Some(Reply::Num(number)) => *number,
        _ => 0,
    }
}

/// The kernel's outcome; none where it has no transition.
fn outcome_of(
    kernel: &mut Kernel,
    pid: Pid,
    call: &Call,
    chosen: u32,
) -> Result<Option<Outcome>, Memory>
    ensures { IfOk result (λ o. Carried o (transition kernel.old pid call.now chosen) kernel.new) }
{
    match kernel.call(pid, call, chosen) {
        Ok(outcome) => Ok(Some(outcome)),
        Err(CallFault::NotAllowed) => Ok(None),
        Err(CallFault::Memory) => Err(Memory),
    }
}

/// The kernel carries the call out, and comes to the same as the line.
fn carry_out(
    alloc: Global,
    kernel: &mut Kernel,
    line: u32,
    pid: Pid,
    call: &Call,
    outcome: &Outcome,
    texts: &mut Texts,
) -> Result<(), CheckFault>
    ensures { Yields result kernel.new
        (judge_outcome line outcome.now (transition kernel.old pid call.now (number_in outcome.now.own))) }
{
    let Some(its) = outcome_of(kernel, pid, call, number_in(&outcome.own))? else {
        return Err(CheckFault::Illegal {
            line,
            kernel: None,
            trace: outcome.try_copy(alloc)?,
        });
    };
    if is_same_outcome(&its, outcome, texts)? {
        Ok(())
    } else {
        Err(CheckFault::Illegal {
            line,
            kernel: Some(its),
            trace: outcome.try_copy(alloc)?,
        })
    }
}

/// The process that the call forks, where this is its reply.
fn forked_child(
    alloc: Global,
    script: &Script,
    parent: &Cursor,
    call: &Call,
    own: &Option<Reply>,
) -> Result<Option<(Pid, Cursor)>, Memory>
    requires sound { IsSoundScript script.now }
    requires steady { IsSteady script.now parent.now }
    requires may { MayMake script.now parent.now call.now }
    ensures { IfOk result (λ child. child ≡ forked_by script.now parent.now call.now own.now) }
{
    let Call::Fork { block } = call else {
        return Ok(None);
    };
    let Some(Reply::Num(child)) = own else {
        return Ok(None);
    };
    let vars = parent.child_vars(script)?;
    Ok(Some((Pid(*child), Cursor::new(alloc, *block, vars))))
}

/// The process that a call of this process forks.
fn forked_at(
    alloc: Global,
    script: &Script,
    cursors: &Cursors,
    pid: Pid,
    call: &Call,
    own: &Option<Reply>,
) -> Result<Option<(Pid, Cursor)>, Memory>
    requires sound { IsSoundScript script.now }
    requires steady { AreSteady script.now cursors.now.entries }
    requires may { MayMakeAt script.now cursors.now.entries pid call.now }
    ensures { IfOk result
        (λ child. child ≡ forked_at script.now (get cursors.now.entries pid) call.now own.now) }
{
    match cursors.get(pid.0) {
        Some(parent) => forked_child(alloc, script, parent, call, own),
        None => Ok(None),
    }
}

/// The process has made this call, which has this reply, or parks.
fn move_at(
    script: &Script,
    cursors: &mut Cursors,
    pid: Pid,
    call: &Call,
    own: &Option<Reply>,
) -> Result<(), Memory>
    requires sound { IsSoundScript script.now }
    requires steady { AreSteady script.now cursors.old.entries }
    requires may { MayMakeAt script.now cursors.old.entries pid call.now }
    ensures { OnOk result (cursors.new.entries
        ≡ moved_at script.now cursors.old.entries pid call.now own.now (get cursors.old.entries pid)) }
{
    match cursors.find(pid.0) {
        Some(place) => cursors.value_mut(pid.0, place).goes_on(script, call, own),
        None => Ok(()),
    }
}

/// The processes after an entry that may fork one, but for those that it wakes. It stands apart, since a new process is
/// long and few calls make one.
#[inline(never)]
fn make_with_child(
    alloc: Global,
    script: &Script,
    cursors: &mut Cursors,
    pid: Pid,
    call: &Call,
    own: &Option<Reply>,
) -> Result<(), Memory>
    requires sound { IsSoundScript script.now }
    requires steady { AreSteady script.now cursors.old.entries }
    requires may { MayMakeAt script.now cursors.old.entries pid call.now }
    ensures { OnOk result (cursors.new.entries
        ≡ after_made script.now cursors.old.entries pid call.now own.now (get cursors.old.entries pid)) }
{
    let forked = forked_at(alloc, script, cursors, pid, call, own)?;
    move_at(script, cursors, pid, call, own)?;
    if let Some((child, cursor)) = forked {
        cursors.insert(child.0, cursor)?;
    }
    Ok(())
}

/// Whether the call may make a process.
fn may_fork(call: &Call) -> bool
    ensures { result ≡ may_fork call.now }
{
    matches!(call, Call::Fork { .. })
}

/// The processes after an entry, but for those that it wakes.
fn make(
    alloc: Global,
    script: &Script,
    cursors: &mut Cursors,
    pid: Pid,
    call: &Call,
    own: &Option<Reply>,
) -> Result<(), Memory>
    requires sound { IsSoundScript script.now }
    requires steady { AreSteady script.now cursors.old.entries }
    requires may { MayMakeAt script.now cursors.old.entries pid call.now }
    ensures { OnOk result (cursors.new.entries
        ≡ after_made script.now cursors.old.entries pid call.now own.now (get cursors.old.entries pid)) }
{
    if may_fork(call) {
        make_with_child(alloc, script, cursors, pid, call, own)
    } else {
        move_at(script, cursors, pid, call, own)
    }
}

/// One who is woken goes on with its reply.
fn wake(script: &Script, cursors: &mut Cursors, pid: Pid, reply: &Reply) -> Result<(), Memory>
    requires { AreSteady script.now cursors.old.entries }
    ensures woken { OnOk result (cursors.new.entries
        ≡ after_woken script.now cursors.old.entries (pid, reply.now)) }
    ensures steady { OnOk result (AreSteady script.now cursors.new.entries) }
{
    match cursors.find(pid.0) {
        Some(place) => cursors.value_mut(pid.0, place).answers(script, reply),
        None => Ok(()),
    }
}

/// All who are woken go on.
fn wake_all(script: &Script, cursors: &mut Cursors, woken: &[(Pid, Reply)]) -> Result<(), Memory>
    requires { AreSteady script.now cursors.old.entries }
    ensures woken { OnOk result (cursors.new.entries
        ≡ fold (after_woken script.now) cursors.old.entries woken.now) }
    ensures steady { OnOk result (AreSteady script.now cursors.new.entries) }
{
    for (pid, reply) in woken {
        wake(script, cursors, *pid, reply)?;
    }
    Ok(())
}

/// The processes after an entry.
fn move_on(
    alloc: Global,
    script: &Script,
    cursors: &mut Cursors,
    pid: Pid,
    call: &Call,
    outcome: &Outcome,
) -> Result<(), Memory>
    requires sound { IsSoundScript script.now }
    requires steady { AreSteady script.now cursors.old.entries }
    requires may { MayMakeAt script.now cursors.old.entries pid call.now }
    ensures moved { OnOk result (cursors.new.entries
        ≡ moved_on script.now cursors.old.entries pid call.now outcome.now) }
    ensures steady { OnOk result (AreSteady script.now cursors.new.entries) }
{
    make(alloc, script, cursors, pid, call, &outcome.own)?;
    wake_all(script, cursors, outcome.woken.as_slice())
}

impl Judge {
    /// Before the first entry.
    pub(crate) fn new(alloc: Global) -> Result<Judge, Memory>
        ensures kernel { IfOk result (λ j. j.kernel ≡ opening) }
        ensures cursors { IfOk result (λ j. j.cursors.entries ≡ (1, beginning 1 []) ∷ []) }
        ensures tally { IfOk result (λ j. j.tally ≡ tally_of []) }
    {
        let mut cursors = Table::new(alloc);
        cursors.insert(1, Cursor::new(alloc, Node(1), Vars::new(alloc)))?;
        Ok(Judge {
            alloc,
            kernel: Kernel::new(alloc)?,
            cursors,
            tally: Tally::new(),
            texts: Texts::new(alloc),
            other: None,
            fault: None,
        })
    }

    /// Whether the line is the totals of the entries so far. They are printed only where the line begins like that.
    pub(crate) fn is_totals(&self, line: &[u8], scratch: &mut Vec<u8>) -> Result<bool, Memory>
        ensures { (done : List EntryValue) → self.now.tally ≡ tally_of done
            → IfOk result (λ is. is ≡ is_line_of (totals_line done) line.now) }
    {
        if !begins_like_totals(line) {
            return Ok(false);
        }
        scratch.clear();
        push_tally(scratch, &self.tally)?;
        Ok(is_line(scratch, line))
    }

    /// Judges a call with its outcome.
    fn call(
        &mut self,
        script: &Script,
        line: u32,
        pid: Pid,
        call: &Call,
        outcome: &Outcome,
    ) -> Result<(), CheckFault>
        requires sound { IsSoundScript script.now }
        requires steady { AreSteady script.now self.old.cursors.entries }
        ensures judged { Yields result (so_far_of script.now self.new.kernel self.new.cursors.entries)
            (judge_made script.now line (so_far_of script.now self.old.kernel self.old.cursors.entries) pid call.now
            outcome.now) }
        ensures steady { OnOk result (AreSteady script.now self.new.cursors.entries) }
        ensures tally { self.new.tally ≡ self.old.tally }
    {
        let doom = last_doom(&self.kernel, pid);
        if !may_come(script, &self.cursors, pid, doom, call, &mut self.texts)? {
            let due = due_in(script, &self.cursors, pid, doom)?;
            let found = call.try_copy(self.alloc)?;
            return Err(CheckFault::NotTheScript {
                line,
                due,
                found: Some(found),
            });
        }
        match carry_out(
            self.alloc,
            &mut self.kernel,
            line,
            pid,
            call,
            outcome,
            &mut self.texts,
        ) {
            Ok(()) => (),
            Err(fault) => return Err(fault),
        }
        move_on(self.alloc, script, &mut self.cursors, pid, call, outcome)?;
        Ok(())
    }

    /// Judges the next entry, and counts it.
    pub(crate) fn entry(
        &mut self,
        script: &Script,
        line: u32,
        entry: &Entry,
    ) -> Result<(), CheckFault>
        requires sound { IsSoundScript script.now }
        requires steady { AreSteady script.now self.old.cursors.entries }
        ensures judged { Yields result (so_far_of script.now self.new.kernel self.new.cursors.entries)
            (judge_entry script.now line (so_far_of script.now self.old.kernel self.old.cursors.entries) entry.now) }
        ensures steady { OnOk result (AreSteady script.now self.new.cursors.entries) }
        ensures tally { (done : List EntryValue) → self.old.tally ≡ tally_of done
            → OnOk result (self.new.tally ≡ tally_of (done ++ entry.now ∷ [])) }
    {
        self.tally.add(slice::from_ref(entry))?;
        self.call(script, line, entry.pid, &entry.call, &entry.outcome)
    }

    /// Judges the totals of so many entries, behind which there is something more or not.
    pub(crate) fn totals(
        &self,
        script: &Script,
        line: u32,
        entries: u32,
        after: &[u8],
    ) -> Result<Legal, CheckFault>
        requires sound { IsSoundScript script.now }
        requires line { line < 2 ^ 32 - 1 }
        ensures { Gives result (judge_totals line entries
            (so_far_of script.now self.now.kernel self.now.cursors.entries) after.now
            (first_going (places_of script.now self.now.cursors.entries))) }
    {
        if let Some(pid) = first_going(script, &self.cursors) {
            let due = due_in(script, &self.cursors, pid, last_doom(&self.kernel, pid))?;
            return Err(CheckFault::NotTheScript {
                line,
                due,
                found: None,
            });
        }
        if !after.is_empty() {
            return Err(CheckFault::NotATrace { line: line + 1 });
        }
        Ok(Legal { entries })
    }
}
