//! The answer to a script of POSIX message queues.
ghost use Rattle.std.specs.Prelude.{◌≡◌, ◌⊎◌, ℕ, IfOk, IfSome, IsSome};
ghost use Rattle.pico_base.specs.declared.script.Script.{Script as ScriptValue};
ghost use Rattle.kernel_model.specs.Script.{IsSoundScript};
ghost use Rattle.script_reader.specs.declared.fault.ScriptFault.{ScriptFault as FaultValue};
ghost use Rattle.mq_model.specs.Given.{IsGiven};
ghost use Rattle.mq_model.specs.Reading.{IsFirstFault, Reads};
ghost use Rattle.mq_model.specs.Shown.{history_of};
ghost use Rattle.mq_model.specs.SystemV.{system_v};
ghost use Rattle.mq_model.specs.Text.{mq_trace_text};
ghost use Rattle.pico_cmd.specs.Queued.{AnswersQueues, given_in};
ghost use Rattle.pico_cmd.specs.Promise.{RunsQueues};

use crate::answer::{Answer, text_of_fault};
use crate::copied::copy_of;
use crate::laws::{laws, queue_laws};
use crate::stalled::{is_left_stalled, status_left};
use crate::status::Status;
use crate::threaded::with_events;
use boxes_run::RestedList;
use host_iface::Gate;
use pico_base::{Bytes, Memory, Script};
use pico_run::{Rested, run};
use posix_mq::{MqScript, mq_trace, read_mq};
use script_reader::ScriptStop;
use std::alloc::Global;
use std::sync::Wait;
use std::thread::Threads;

// The trace of the history that the journal of a run that has come to rest stands for.
fn trace_of(alloc: Global, read: &MqScript, rested: &Rested) -> Result<Bytes, Memory>
    requires { IsSome rested.now.world }
    ensures { IfSome rested.now.world (λ w. IfOk result (λ text.
        text ≡ mq_trace_text read.now.script (history_of (given_in read.now) w.journal))) }
{
    mq_trace(alloc, read, rested.world.journal().as_slice())
}

// A sound script that is the same, which a run takes.
fn sound_copy(alloc: Global, script: &Script) -> Result<Script, Memory>
    requires { IsSoundScript script.now }
    ensures same { IfOk result (λ copy. copy ≡ script.now) }
    ensures sound { IfOk result IsSoundScript }
{
    let copy = copy_of(alloc, script)?;
    Ok(copy)
}

// The answer of the run with threads of the script of System V that runs a given one.
fn run_given<R: Threads + Wait + Sync, G: Gate>(
    rt: &R,
    alloc: Global,
    read: &MqScript,
    steps: bool,
    gate: &G,
) -> Result<Answer, Memory>
    requires sound { IsSoundScript read.now.script }
    requires runs { read.now.script ≡ system_v (given_in read.now) }
    requires is_given { IsGiven (given_in read.now) }
    ensures { IfOk result (AnswersQueues (given_in read.now) steps) }
{
    laws();
    queue_laws();
    let script = sound_copy(alloc, &read.script)?;
    let rested = run(rt, alloc, script, gate)?;
    let told = trace_of(alloc, read, &rested)?;
    let text = with_events(alloc, told, steps, &rested)?;
    let status = status_left(is_left_stalled(&rested));
    let mut handed = RestedList::new(alloc);
    handed.push(rested)?;
    Ok(Answer {
        status,
        text,
        rested: handed,
    })
}

/// The answer to these bytes: the trace of the run with threads of the script of POSIX message queues that they are,
/// and its events where they are wanted, or their first fault.
pub fn answer_to_queues<R: Threads + Wait + Sync, G: Gate>(
    rt: &R,
    alloc: Global,
    bytes: &[u8],
    steps: bool,
    gate: &G,
) -> Result<Answer, Memory>
    ensures answer { IfOk result (λ answer. RunsQueues steps bytes.now answer.status answer.text answer.rested) }
    ensures done { (given : ScriptValue) → Reads bytes.now given
        → IfOk result (λ answer. (answer.status ≡ Status.Done) ⊎ (answer.status ≡ Status.Stalled)) }
    ensures fault { (line : ℕ) (fault : FaultValue) → IsFirstFault bytes.now line fault
        → IfOk result (λ answer. answer.status ≡ Status.BadScript) }
{
    match read_mq(alloc, bytes) {
        Ok(read) => run_given(rt, alloc, &read, steps, gate),
        Err(ScriptStop::At { line, fault }) => Ok(Answer {
            status: Status::BadScript,
            text: text_of_fault(alloc, line, fault)?,
            rested: RestedList::new(alloc),
        }),
        Err(ScriptStop::Memory) => Err(Memory),
    }
}
