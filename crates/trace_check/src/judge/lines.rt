//! A line judged: beside the one that is expected where a call of the script is due, and else by what is read of it.
ghost use Rattle.std.specs.Prelude.{◌≡◌, ◌≤◌, ◌++◌, decimal, IfOk, OnOk, IsTrue};
ghost use Rattle.kernel_model.specs.Script.{IsSoundScript};
ghost use Rattle.trace_check.specs.Cursors.{AreSteady};
ghost use Rattle.trace_check.specs.Told.{Begun, HasCarried, IsBegun, IsDueAt, Judges, Keeps, Tells, call_front, is_numberless, kept_fault, line_with};
ghost use Rattle.trace_check.specs.declared.judge.Judge.{Judge as JudgeValue};
ghost use Rattle.trace_text.specs.Grammar.{is_call};

use crate::judge::{Judge, move_on};
use crate::same::is_same_outcome;
use mono_kernel::CallFault;
use pico_base::{Call, Memory, Pid, Script};
use text_fields::number_front;
use trace_text::{CheckFault, behind_call, entry_in, is_call, is_end};

/// What a line is beside the one that is expected.
#[derive(Clone, Copy)]
pub(crate) enum Told {
    /// It is that one, and has been judged.
    Judged,
    /// It has to be read, and nothing has been done.
    Unread,
    /// It begins with the call that is due, which the kernel has carried out with another outcome.
    Differs,
}

/// Whether the call makes nothing that takes a number. A withdrawal and the end by a signal are no calls of a script.
fn is_numberless(call: &Call) -> bool
    ensures { result ≡ is_numberless call.now }
{
    !matches!(
        call,
        Call::Fork { .. }
            | Call::MsgGet { .. }
            | Call::SemGet { .. }
            | Call::Withdraw { .. }
            | Call::Killed { .. }
    )
}

impl Judge {
    /// Judges the next line, and counts its entry, where it is the one that is expected.
    fn told(&mut self, script: &Script, text: &[u8], scratch: &mut Vec<u8>) -> Result<Told, Memory>
        requires sound { IsSoundScript script.now }
        requires steady { AreSteady script.now self.old.cursors.entries }
        ensures told { IfOk result (λ told. Tells told script.now text.now self.old self.new) }
        ensures steady { OnOk result (AreSteady script.now self.new.cursors.entries) }
    {
        let Some((pid, behind)) = number_front(u32::MAX, text) else {
            return Ok(Told::Unread);
        };
        let Some(cursor) = self.cursors.get(pid) else {
            return Ok(Told::Unread);
        };
        if cursor.is_parked() || !cursor.has_call(script) {
            return Ok(Told::Unread);
        }
        match cursor.written_call(script) {
            Some(call) => self.expected(script, Pid(pid), call, behind, scratch),
            None => self.computed(script, Pid(pid), behind, scratch),
        }
    }

    /// The same where the call that is due is made of variables.
    #[inline(never)]
    fn computed(
        &mut self,
        script: &Script,
        pid: Pid,
        behind: &[u8],
        scratch: &mut Vec<u8>,
    ) -> Result<Told, Memory>
        requires sound { IsSoundScript script.now }
        requires small { pid ≤ 4294967295 }
        requires steady { AreSteady script.now self.old.cursors.entries }
        ensures told { IfOk result (λ told. Tells told script.now (decimal pid ++ behind.now) self.old self.new) }
        ensures steady { OnOk result (AreSteady script.now self.new.cursors.entries) }
    {
        let Some(cursor) = self.cursors.get(pid.0) else {
            return Ok(Told::Unread);
        };
        if cursor.is_parked() {
            return Ok(Told::Unread);
        }
        let Some(call) = cursor.due(script)? else {
            return Ok(Told::Unread);
        };
        self.expected(script, pid, &call, behind, scratch)
    }

    /// The same where this call of this process is due.
    fn expected(
        &mut self,
        script: &Script,
        pid: Pid,
        call: &Call,
        behind: &[u8],
        scratch: &mut Vec<u8>,
    ) -> Result<Told, Memory>
        requires sound { IsSoundScript script.now }
        requires small { pid ≤ 4294967295 }
        requires steady { AreSteady script.now self.old.cursors.entries }
        requires due { IsDueAt script.now self.old.cursors.entries pid call.now }
        ensures told { IfOk result (λ told. Tells told script.now (decimal pid ++ behind.now) self.old self.new) }
        ensures steady { OnOk result (AreSteady script.now self.new.cursors.entries) }
    {
        if !is_numberless(call) {
            return Ok(Told::Unread);
        }
        if !is_call(script, call) {
            return Ok(Told::Unread);
        }
        match behind_call(script, call, behind, scratch)? {
            Some(rest) => self.begun(script, pid, call, rest, scratch),
            None => Ok(Told::Unread),
        }
    }

    /// The same where the line begins with that call, and has this behind it.
    fn begun(
        &mut self,
        script: &Script,
        pid: Pid,
        call: &Call,
        rest: &[u8],
        scratch: &mut Vec<u8>,
    ) -> Result<Told, Memory>
        requires sound { IsSoundScript script.now }
        requires small { pid ≤ 4294967295 }
        requires steady { AreSteady script.now self.old.cursors.entries }
        requires due { IsDueAt script.now self.old.cursors.entries pid call.now }
        requires numberless { IsTrue (is_numberless call.now) }
        requires grammar { IsTrue (is_call script.now call.now) }
        ensures told { IfOk result
            (λ told. Tells told script.now (line_with script.now pid call.now rest.now) self.old self.new) }
        ensures steady { OnOk result (AreSteady script.now self.new.cursors.entries) }
    {
        match self.kernel.call(pid, call, 0) {
            Ok(outcome) => {
                if !is_end(&outcome, rest, scratch)? {
                    self.other = Some(outcome);
                    return Ok(Told::Differs);
                }
                self.tally.add_call(call, &outcome)?;
                move_on(self.alloc, script, &mut self.cursors, pid, call, &outcome)?;
                Ok(Told::Judged)
            }
            Err(CallFault::NotAllowed) => Ok(Told::Unread),
            Err(CallFault::Memory) => Err(Memory),
        }
    }

    /// The kernel has carried the call out with another outcome than the line's, unless that is no line.
    fn differs(
        &mut self,
        script: &Script,
        line: u32,
        text: &[u8],
        scratch: &mut Vec<u8>,
    ) -> Result<(), CheckFault>
        requires sound { IsSoundScript script.now }
        requires steady { AreSteady script.now self.old.cursors.entries }
        requires begun { IsBegun script.now self.old.cursors.entries text.now }
        ensures judged { (before : JudgeValue) → HasCarried script.now text.now before self.old
            → Judges result script.now line text.now before self.new }
        ensures steady { OnOk result (AreSteady script.now self.new.cursors.entries) }
    {
        let Some(entry) = entry_in(self.alloc, script, text, scratch)? else {
            return Err(CheckFault::NotATrace { line });
        };
        let Some(outcome) = self.other.take() else {
            return Err(CheckFault::Memory);
        };
        if !is_same_outcome(&outcome, &entry.outcome, &mut self.texts)? {
            let trace = entry.outcome.try_copy(self.alloc)?;
            return Err(CheckFault::Illegal {
                line,
                kernel: Some(outcome),
                trace,
            });
        }
        self.tally.add_call(&entry.call, &entry.outcome)?;
        move_on(
            self.alloc,
            script,
            &mut self.cursors,
            entry.pid,
            &entry.call,
            &entry.outcome,
        )?;
        Ok(())
    }

    /// Judges the line by what is read of it.
    fn read(
        &mut self,
        script: &Script,
        line: u32,
        text: &[u8],
        scratch: &mut Vec<u8>,
    ) -> Result<(), CheckFault>
        requires sound { IsSoundScript script.now }
        requires steady { AreSteady script.now self.old.cursors.entries }
        ensures judged { Judges result script.now line text.now self.old self.new }
        ensures steady { OnOk result (AreSteady script.now self.new.cursors.entries) }
    {
        match entry_in(self.alloc, script, text, scratch)? {
            Some(entry) => self.entry(script, line, &entry),
            None => Err(CheckFault::NotATrace { line }),
        }
    }

    /// Judges a line that isn't the one that is expected.
    fn rest(
        &mut self,
        script: &Script,
        line: u32,
        text: &[u8],
        told: Told,
        scratch: &mut Vec<u8>,
    ) -> Result<(), CheckFault>
        requires sound { IsSoundScript script.now }
        requires steady { AreSteady script.now self.old.cursors.entries }
        requires begun { Begun told script.now text.now self.old }
        ensures judged { (before : JudgeValue) → Tells told script.now text.now before self.old
            → Judges result script.now line text.now before self.new }
        ensures steady { OnOk result (AreSteady script.now self.new.cursors.entries) }
    {
        match told {
            Told::Judged => Ok(()),
            Told::Unread => self.read(script, line, text, scratch),
            Told::Differs => self.differs(script, line, text, scratch),
        }
    }

    /// Judges a line that isn't the one that is expected, and keeps its fault. It stands apart, since a fault is long.
    #[inline(never)]
    fn untold(
        &mut self,
        script: &Script,
        line: u32,
        text: &[u8],
        told: Told,
        scratch: &mut Vec<u8>,
    ) -> bool
        requires sound { IsSoundScript script.now }
        requires steady { AreSteady script.now self.old.cursors.entries }
        requires begun { Begun told script.now text.now self.old }
        ensures judged { (before : JudgeValue) → Tells told script.now text.now before self.old
            → Keeps result script.now line text.now before self.new }
        ensures steady { IsTrue result → AreSteady script.now self.new.cursors.entries }
    {
        match self.rest(script, line, text, told, scratch) {
            Ok(()) => true,
            Err(fault) => {
                self.fault = Some(fault);
                false
            }
        }
    }

    /// Judges the next line, and counts its entry. Where that has a fault it is kept, and the answer is no.
    pub(crate) fn line(
        &mut self,
        script: &Script,
        line: u32,
        text: &[u8],
        scratch: &mut Vec<u8>,
    ) -> Result<bool, Memory>
        requires sound { IsSoundScript script.now }
        requires steady { AreSteady script.now self.old.cursors.entries }
        ensures judged { IfOk result (λ goes. Keeps goes script.now line text.now self.old self.new) }
        ensures steady { IfOk result (λ goes. IsTrue goes → AreSteady script.now self.new.cursors.entries) }
    {
        match self.told(script, text, scratch)? {
            Told::Judged => Ok(true),
            told => Ok(self.untold(script, line, text, told, scratch)),
        }
    }

    /// The fault that was kept.
    pub(crate) fn fault(&mut self) -> CheckFault
        ensures { result ≡ kept_fault self.old.fault }
    {
        match self.fault.take() {
            Some(fault) => fault,
            None => CheckFault::Memory,
        }
    }
}
