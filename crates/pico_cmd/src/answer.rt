//! The answer to a script's bytes: a status, and the text that goes with it.
ghost use Rattle.std.specs.Prelude.{◌≡◌, ◌⊎◌, ◌++◌, [], ℕ, List, IfOk};
ghost use Rattle.pico_base.specs.declared.script.Script.{Script as ScriptValue};
ghost use Rattle.kernel_model.specs.Script.{IsSoundScript};
ghost use Rattle.kernel_model.specs.Trace.{totals_line};
ghost use Rattle.pico_base.specs.declared.reply.Entry.{Entry as EntryValue};
ghost use Rattle.script_reader.specs.declared.fault.ScriptFault.{ScriptFault as FaultValue};
ghost use Rattle.script_reader.specs.Fault.{Reads, IsFirstFault};
ghost use Rattle.pico_cmd.specs.Run.{steps_if};
ghost use Rattle.pico_cmd.specs.Telling.{Tells, lines_if};
ghost use Rattle.pico_cmd.specs.Promise.{Simulates, fault_text, named_fault_text};
ghost use Rattle.pico_cmd.specs.Simulated.{AnswersRun};

use crate::run::{Run, run_script};
use crate::stalled::status_left;
use crate::status::Status;
use crate::telling::Telling;
use boxes_run::RestedList;
use pico_base::{Bytes, Event, Memory, Script};
use pico_words::Options;
use script_reader::{ScriptFault, ScriptStop, read_script};
use std::alloc::Global;
use trace_text::{push, push_byte, push_number, write_steps};

/// A status, the text that is written with it, and the outcomes of runs with threads that are handed back with it.
#[derive(Drop)]
pub struct Answer {
    pub status: Status,
    pub text: Bytes,
    pub rested: RestedList,
}

// The line that names a fault.
pub fn text_of_named_fault(alloc: Global, line: u32, name: &str) -> Result<Bytes, Memory>
    ensures { IfOk result (λ text. text ≡ named_fault_text line name.now) }
{
    let mut out = Vec::new(alloc);
    push(&mut out, b"fault: line ")?;
    push_number(&mut out, u64::from(line))?;
    push(&mut out, b": ")?;
    push(&mut out, name.as_bytes())?;
    push_byte(&mut out, b'\n')?;
    Ok(Bytes::from_vec(out))
}

// The line that names a script's fault.
pub fn text_of_fault(alloc: Global, line: u32, fault: ScriptFault) -> Result<Bytes, Memory>
    ensures { IfOk result (λ text. text ≡ fault_text line fault) }
{
    text_of_named_fault(alloc, line, fault.name())
}

// A text, and the events behind it where they are wanted.
pub fn with_steps(
    alloc: Global,
    text: Bytes,
    steps: bool,
    events: &[Event],
) -> Result<Bytes, Memory>
    ensures { IfOk result (λ whole. whole ≡ text ++ steps_if steps events.now) }
{
    if !steps {
        return Ok(text);
    }
    let mut whole = text.into_vec();
    push(&mut whole, write_steps(alloc, events)?.as_slice())?;
    Ok(Bytes::from_vec(whole))
}

/// The text of a run: what was told of its journal, and its events, which were kept where they are wanted.
pub fn text_of(alloc: Global, run: Run, steps: bool) -> Result<Bytes, Memory>
    ensures { (script : ScriptValue) (history : List EntryValue) → Tells script history run.telling
        → IfOk result (λ text. text
        ≡ (lines_if run.telling.lines script history ++ totals_line history) ++ steps_if steps run.events.items) }
{
    let Run {
        events,
        telling,
        ..
    } = run;
    with_steps(alloc, telling.finish()?, steps, &events)
}

// The answer of a script's run by the schedule that is asked for, its text in the memory of what was read.
fn simulated(alloc: Global, script: Script, options: Options, read: Bytes) -> Result<Answer, Memory>
    requires { IsSoundScript script }
    ensures { IfOk result (AnswersRun script options) }
{
    let run = run_script(
        alloc,
        script,
        options.seed,
        options.steps,
        Telling::of_lines(read),
    )?;
    let status = status_left(run.stalled);
    let text = text_of(alloc, run, options.steps)?;
    Ok(Answer {
        status,
        text,
        rested: RestedList::new(alloc),
    })
}

/// The answer to these bytes: the trace of the script that they are, and its events where they are wanted, or their
/// first fault.
pub fn answer_to(alloc: Global, bytes: Bytes, options: Options) -> Result<Answer, Memory>
    ensures answer { IfOk result (λ answer. Simulates options bytes answer.status answer.text) }
    ensures alone { IfOk result (λ answer. answer.rested ≡ []) }
    ensures status { IfOk result (λ answer.
        ((answer.status ≡ Status.Done) ⊎ (answer.status ≡ Status.Stalled)) ⊎ (answer.status ≡ Status.BadScript)) }
    ensures done { (script : ScriptValue) → Reads bytes script
        → IfOk result (λ answer. (answer.status ≡ Status.Done) ⊎ (answer.status ≡ Status.Stalled)) }
    ensures fault { (line : ℕ) (fault : FaultValue) → IsFirstFault bytes line fault
        → IfOk result (λ answer. answer.status ≡ Status.BadScript) }
{
    match read_script(alloc, bytes.as_slice()) {
        Ok(script) => simulated(alloc, script, options, bytes),
        Err(ScriptStop::At { line, fault }) => Ok(Answer {
            status: Status::BadScript,
            text: text_of_fault(alloc, line, fault)?,
            rested: RestedList::new(alloc),
        }),
        Err(ScriptStop::Memory) => Err(Memory),
    }
}
