//! The line that says why a trace isn't legal.
ghost use Rattle.std.specs.Prelude.{◌≡◌, ◌++◌, ◌∷◌, [], codes, IfOk, OnOk};
ghost use Rattle.trace_check.specs.Refusal as spec;
ghost use Rattle.trace_check.specs.Refusal.{IsRefusal, refusal_text};

use pico_base::{Bytes, Call, Memory, Outcome, Script};
use std::alloc::Global;
use trace_text::{CheckFault, push, push_byte, push_call, push_number, push_outcome};

/// What each of these lines begins with.
#[tactic(auto, unfolding(crate::specs::Refusal::not_legal))]
fn push_not_legal(out: &mut Vec<u8>, line: u32) -> Result<(), Memory>
    ensures { OnOk result (out.new.items ≡ out.old.items ++ spec.not_legal line) }
{
    push(out, b"not legal: line ")?;
    push_number(out, u64::from(line))?;
    push(out, b": ")
}

/// A call, or a word where there is none.
fn push_call_or(
    out: &mut Vec<u8>,
    script: &Script,
    word: &[u8],
    call: &Option<Call>,
) -> Result<(), Memory>
    ensures { OnOk result (out.new.items ≡ out.old.items ++ spec.call_or script.now word.now call.now) }
{
    match call {
        Some(call) => push_call(out, script, call),
        None => push(out, word),
    }
}

/// The kernel's outcome, or `none`.
fn push_outcome_or_none(out: &mut Vec<u8>, outcome: &Option<Outcome>) -> Result<(), Memory>
    ensures { OnOk result (out.new.items ≡ out.old.items ++ spec.outcome_or_none outcome.now) }
{
    match outcome {
        Some(outcome) => push_outcome(out, outcome),
        None => push(out, b"none"),
    }
}

/// Which call was due, and which was found.
fn push_calls(
    out: &mut Vec<u8>,
    script: &Script,
    due: &Option<Call>,
    found: &Option<Call>,
) -> Result<(), Memory>
    ensures { OnOk result (out.new.items ≡ out.old.items ++ spec.calls_text script.now due.now found.now) }
{
    push(out, b"due ")?;
    push_call_or(out, script, b"nothing", due)?;
    push(out, b" found ")?;
    push_call_or(out, script, b"totals", found)?;
    push_byte(out, b'\n')
}

/// What the call comes to in the kernel, and by the trace.
fn push_outcomes(out: &mut Vec<u8>, kernel: &Option<Outcome>, trace: &Outcome) -> Result<(), Memory>
    ensures { OnOk result (out.new.items ≡ out.old.items ++ spec.outcomes_text kernel.now trace.now) }
{
    push(out, b"kernel ")?;
    push_outcome_or_none(out, kernel)?;
    push(out, b" trace ")?;
    push_outcome(out, trace)?;
    push_byte(out, b'\n')
}

fn push_refusal(out: &mut Vec<u8>, script: &Script, fault: &CheckFault) -> Result<(), Memory>
    ensures { OnOk result (out.new.items ≡ out.old.items ++ refusal_text script.now fault.now) }
{
    match fault {
        CheckFault::Memory => Ok(()),
        CheckFault::NotATrace { line } => {
            push_not_legal(out, *line)?;
            push(out, b"not a trace\n")
        }
        CheckFault::NotTheScript { line, due, found } => {
            push_not_legal(out, *line)?;
            push_calls(out, script, due, found)
        }
        CheckFault::Illegal {
            line,
            kernel,
            trace,
        } => {
            push_not_legal(out, *line)?;
            push_outcomes(out, kernel, trace)
        }
    }
}

/// The line that says why a trace of this script isn't legal: its line, and which call was due and which was found
/// (`nothing` where none is due, `totals` for the totals line), or what the call comes to in the kernel (`none` where
/// that has no transition) and by the trace: the caller's reply or `parked`, and whom it wakes. Want of memory is no
/// refusal.
pub fn write_refusal(alloc: Global, script: &Script, fault: &CheckFault) -> Result<Bytes, Memory>
    requires { IsRefusal fault.now }
    ensures { IfOk result (λ text. text ≡ refusal_text script.now fault.now) }
{
    let mut out = Vec::new(alloc);
    push_refusal(&mut out, script, fault)?;
    Ok(Bytes::from_vec(out))
}
