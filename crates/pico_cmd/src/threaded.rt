//! The answers of runs with a thread for each picoprocess.
ghost use Rattle.std.specs.Prelude.{◌≡◌, ◌⊎◌, ◌++◌, ℕ, true, false, [], map, IfOk, IfSome, IsSome};
ghost use Rattle.pico_base.specs.declared.script.Script.{Script as ScriptValue};
ghost use Rattle.kernel_model.specs.Script.{IsSoundScript};
ghost use Rattle.kernel_model.specs.Trace.{totals_line};
ghost use Rattle.script_reader.specs.declared.fault.ScriptFault.{ScriptFault as FaultValue};
ghost use Rattle.script_reader.specs.Fault.{Reads, IsFirstFault};
ghost use Rattle.script_writer.specs.Generated.{generated};
ghost use Rattle.rest_laws.specs.Laws.{never_waits};
ghost use Rattle.pico_cmd.specs.Run.{steps_if};
ghost use Rattle.pico_cmd.specs.Telling.{Tells, lines_if};
ghost use Rattle.pico_cmd.specs.Threads.{IsTotalsOfThreads, events_in};
ghost use Rattle.pico_cmd.specs.Rested.{AnswersWith};
ghost use Rattle.pico_cmd.specs.Promise.{RunsThreads};
ghost use Rattle.pico_cmd.specs.Stalled.{are_left_stalled};

use crate::answer::{Answer, text_of_fault, with_steps};
use crate::laws::laws;
use crate::stalled::{is_left_stalled, status_left};
use crate::status::Status;
use crate::telling::Telling;
use boxes_run::RestedList;
use host_iface::Gate;
use pico_base::{Bytes, Event, Memory, Script};
use pico_run::{Rested, run};
use script_reader::{ScriptStop, read_script};
use script_writer::generate;
use stamp_merge::Stamped;
use std::alloc::Global;
use std::sync::Wait;
use std::thread::Threads;

// Events without their stamps.
fn plain_events(alloc: Global, events: &[Stamped<Event>]) -> Result<Vec<Event>, Memory>
    ensures { IfOk result (λ plain. plain.items ≡ map (λ e. e.item) events.now) }
{
    let plain: Vec<Event> = events.iter().map(|e| e.item).collect(alloc)?;
    Ok(plain)
}

// What is told of a run that has come to rest: the lines of its journal, where they are wanted, and its totals.
fn tell_rested(rested: &Rested, telling: Telling) -> Result<Bytes, Memory>
    requires whole { IsSome rested.now.world }
    requires fresh { (script : ScriptValue) → Tells script [] telling }
    ensures { IfSome rested.now.world (λ w. IfOk result (λ text.
        text ≡ lines_if telling.lines w.script w.journal ++ totals_line w.journal)) }
{
    let mut telling = telling;
    telling.tell(rested.world.script(), rested.world.journal().as_slice())?;
    telling.finish()
}

// A text, and the events of a run behind it where they are wanted.
pub(crate) fn with_events(
    alloc: Global,
    text: Bytes,
    steps: bool,
    rested: &Rested,
) -> Result<Bytes, Memory>
    ensures { IfOk result (λ whole. whole ≡ text ++ steps_if steps (events_in rested.now)) }
{
    if !steps {
        return Ok(text);
    }
    let events = plain_events(alloc, rested.events.as_slice())?;
    with_steps(alloc, text, steps, &events)
}

// The answer of a script's run with threads.
fn run_told<R: Threads + Wait + Sync, G: Gate>(
    rt: &R,
    alloc: Global,
    script: Script,
    steps: bool,
    telling: Telling,
    gate: &G,
) -> Result<Answer, Memory>
    requires sound { IsSoundScript script }
    requires fresh { (script : ScriptValue) → Tells script [] telling }
    ensures answer { IfOk result (AnswersWith script telling.lines steps) }
    ensures never_waits { never_waits script ≡ true → IfOk result (λ answer. are_left_stalled answer.rested ≡ false) }
{
    laws();
    let rested = run(rt, alloc, script, gate)?;
    let told = tell_rested(&rested, telling)?;
    let text = with_events(alloc, told, steps, &rested)?;
    let status = status_left(is_left_stalled(&rested));
    let mut handed = RestedList::new(alloc);
    handed.push(rested)?;
    Ok(Answer {
        status,
        text,
        rested: handed,
    })
}

/// The answer to these bytes: the trace of the run with threads of the script that they are, and its events where they
/// are wanted, or their first fault.
pub fn answer_to_run<R: Threads + Wait + Sync, G: Gate>(
    rt: &R,
    alloc: Global,
    bytes: Bytes,
    steps: bool,
    gate: &G,
) -> Result<Answer, Memory>
    ensures answer { IfOk result (λ answer. RunsThreads steps bytes answer.status answer.text answer.rested) }
    ensures done { (script : ScriptValue) → Reads bytes script
        → IfOk result (λ answer. (answer.status ≡ Status.Done) ⊎ (answer.status ≡ Status.Stalled)) }
    ensures fault { (line : ℕ) (fault : FaultValue) → IsFirstFault bytes line fault
        → IfOk result (λ answer. answer.status ≡ Status.BadScript) }
{
    match read_script(alloc, bytes.as_slice()) {
        Ok(script) => run_told(rt, alloc, script, steps, Telling::of_lines(bytes), gate),
        Err(ScriptStop::At { line, fault }) => Ok(Answer {
            status: Status::BadScript,
            text: text_of_fault(alloc, line, fault)?,
            rested: RestedList::new(alloc),
        }),
        Err(ScriptStop::Memory) => Err(Memory),
    }
}

/// The answer to a number: the totals of the generated script's run with threads, and its events where they are wanted.
/// No call of a generated script waits.
pub fn answer_to_number<R: Threads + Wait + Sync, G: Gate>(
    rt: &R,
    alloc: Global,
    number: u32,
    steps: bool,
    gate: &G,
) -> Result<Answer, Memory>
    ensures text { IfOk result (λ answer.
        IsTotalsOfThreads (generated number) steps answer.text answer.rested) }
    ensures left { IfOk result (λ answer. are_left_stalled answer.rested ≡ false) }
    ensures status { IfOk result (λ answer. answer.status ≡ Status.Done) }
{
    let script = generate(alloc, number)?;
    run_told(rt, alloc, script, steps, Telling::of_totals(alloc), gate)
}
