//! The answer to a script and a trace.
ghost use Rattle.std.specs.Prelude.{◌≡◌, ◌≤◌, ◌<◌, ◌^◌, [], ℕ, List, length, IfOk, OnOk, Ok, Err};
ghost use Rattle.pico_base.specs.declared.reply.Entry.{Entry as EntryValue};
ghost use Rattle.kernel_model.specs.Script.{IsSoundScript};
ghost use Rattle.trace_check.specs.FirstFault.{CountsLegal, IsLegalTrace, verdict_of};
ghost use Rattle.trace_check.specs.Refusal.{IsRefusal, refusal_text};
ghost use Rattle.trace_text.specs.declared.fault.CheckFault.{CheckFault as FaultValue};
ghost use Rattle.pico_cmd.specs.Promise.{Judges, JudgesTrace, CauseOfCheck, legal_text};
ghost use Rattle.pico_cmd.specs.declared.status.Status.{Status as StatusValue};

use crate::answer::{Answer, text_of_fault};
use crate::status::Status;
use boxes_run::RestedList;
use check_input::{Parts, read_checked};
use pico_base::{Bytes, Memory, Script};
use script_reader::ScriptStop;
use std::alloc::Global;
use trace_check::{Legal, check_trace, write_refusal};
use trace_text::{CheckFault, push, push_byte, push_number};

// The line for a legal trace.
#[tactic(auto, unfolding(crate::specs::Promise::legal_text))]
fn text_of_legal(alloc: Global, legal: Legal) -> Result<Bytes, Memory>
    ensures { IfOk result (λ text. text ≡ legal_text legal.entries) }
{
    let mut out = Vec::new(alloc);
    push(&mut out, b"legal entries ")?;
    push_number(&mut out, u64::from(legal.entries))?;
    push_byte(&mut out, b'\n')?;
    Ok(Bytes::from_vec(out))
}

// The line for a trace's first fault. Want of memory is none.
fn text_of_refusal(alloc: Global, script: &Script, fault: CheckFault) -> Result<Bytes, Memory>
    ensures refusal { OnOk result (IsRefusal fault) }
    ensures text { IfOk result (λ text. text ≡ refusal_text script.now fault) }
{
    match fault {
        CheckFault::Memory => Err(Memory),
        other => write_refusal(alloc, script, &other),
    }
}

// The answer to a trace of a script.
fn answer_to_trace(
    alloc: Global,
    script: &Script,
    trace: &[u8],
    first_line: u32,
) -> Result<Answer, Memory>
    requires sound { IsSoundScript script.now }
    requires some { 1 ≤ first_line }
    requires first { first_line < 2 ^ 31 }
    ensures answer { IfOk result
        (λ answer. JudgesTrace script.now trace.now first_line answer.status answer.text) }
    ensures alone { IfOk result (λ answer. answer.rested ≡ []) }
    ensures legal { (history : List EntryValue) → IsLegalTrace script.now trace.now history
        → IfOk result (λ answer. answer.status ≡ Status.Done) }
    ensures refused { (fault : FaultValue) → verdict_of script.now trace.now first_line ≡ Err fault → IsRefusal fault
        → IfOk result (λ answer. answer.status ≡ Status.NotLegal) }
{
    match check_trace(alloc, script, trace, first_line) {
        Ok(legal) => Ok(Answer {
            status: Status::Done,
            text: text_of_legal(alloc, legal)?,
            rested: RestedList::new(alloc),
        }),
        Err(fault) => Ok(Answer {
            status: Status::NotLegal,
            text: text_of_refusal(alloc, script, fault)?,
            rested: RestedList::new(alloc),
        }),
    }
}

/// The answer to bytes that are a script, a line `trace` and a trace: that the trace is legal, with the number of its
/// entries, or its first fault; or the script's first fault.
pub fn answer_to_check(alloc: Global, bytes: &[u8]) -> Result<Answer, Memory>
    requires { length bytes.now ≤ 68161538 }
    ensures answer { IfOk result (λ answer. Judges bytes.now answer.status answer.text) }
    ensures alone { IfOk result (λ answer. answer.rested ≡ []) }
    ensures causes { (status : StatusValue) → CauseOfCheck bytes.now status
        → IfOk result (λ answer. answer.status ≡ status) }
{
    let parts = Parts::of(bytes);
    match read_checked(alloc, &parts) {
        Ok(script) => answer_to_trace(alloc, &script, parts.trace, parts.first_line),
        Err(ScriptStop::At { line, fault }) => Ok(Answer {
            status: Status::BadScript,
            text: text_of_fault(alloc, line, fault)?,
            rested: RestedList::new(alloc),
        }),
        Err(ScriptStop::Memory) => Err(Memory),
    }
}
