//! Runs the script on standard input with threads under a gate that its words name, and writes its trace with its
//! events, as `pico run --steps` does. `bench/gates.py` makes many such runs, and `.ci/hostile` some.
//!
//! The words are one of `open`, `hold NODE until OTHER TURN`, `each NODES PASSES` and `random SEED`. Its exit status is
//! 0, or 6 where processes wait for good; 1 and 2 where the script or the words aren't in order, and nothing is
//! written; 3, 4 and 5 where memory, reading or writing fails; and 9 where a gate waited for what didn't come.
#![tactic(auto)]

mod holding;
mod plan;

ghost use Rattle.std.specs.Prelude.{IfOk, IsSome};
ghost use Rattle.kernel_model.specs.Script.{IsSoundScript};

use holding::Holding;
use host_iface::{ReadStop, Source, StdSink, StdSource, read_all, write_all};
use pico_base::{Bytes, Event, Memory, Script};
use pico_run::{Rested, run};
use plan::{Plan, plan_of};
use script_reader::{MAX_BYTES, ScriptStop, read_script};
use std::alloc::Global;
use std::process::ExitCode;
use std::rt::Env;
use std::sync::Wait;
use std::thread::Threads;
use std::{env, io};
use trace_text::{write_steps, write_trace};

const STALLED: u8 = 6;

const BAD_SCRIPT: u8 = 1;

const USAGE: u8 = 2;

const MEMORY: u8 = 3;

const READ_FAULT: u8 = 4;

const WRITE_FAULT: u8 = 5;

const GAVE_UP: u8 = 9;

/// The words behind the program's name.
fn words_of<R: Env + AllocGlobal>(rt: &R) -> Option<Vec<String>> {
    let mut words = Vec::new(rt.alloc());
    for word in env::args(rt).ok()?.skip(1) {
        words.push(word).ok()?;
    }
    Some(words)
}

/// The script that the source has.
fn script_in<S: Source>(alloc: Global, source: &mut S) -> Result<Script, u8>
    ensures { IfOk result IsSoundScript }
{
    let bytes = match read_all(alloc, source, MAX_BYTES) {
        Ok(bytes) => bytes,
        Err(ReadStop::TooLong { .. }) => return Err(BAD_SCRIPT),
        Err(ReadStop::Memory) => return Err(MEMORY),
        Err(ReadStop::Fault) => return Err(READ_FAULT),
    };
    match read_script(alloc, bytes.as_slice()) {
        Ok(script) => Ok(script),
        Err(ScriptStop::At { .. }) => Err(BAD_SCRIPT),
        Err(ScriptStop::Memory) => Err(MEMORY),
    }
}

/// The trace of a run, and its events behind it.
fn text_of(alloc: Global, rested: &Rested) -> Result<Bytes, Memory>
    requires whole { IsSome rested.now.world }
{
    let world = &rested.world;
    let trace = write_trace(alloc, world.script(), world.journal())?;
    let events: Vec<Event> = rested
        .events
        .as_slice()
        .iter()
        .map(|e| e.item)
        .collect(alloc)?;
    let steps = write_steps(alloc, &events)?;
    let mut text = trace.into_vec();
    text.extend_from_slice(steps.as_slice())?;
    Ok(Bytes::from_vec(text))
}

/// The text of a run under a gate, and whether processes wait for good then.
fn run_under<R: Threads + Wait + Sync>(
    rt: &R,
    alloc: Global,
    script: Script,
    gate: &Holding,
) -> Result<(Bytes, bool), Memory>
    requires { IsSoundScript script }
{
    let rested = run(rt, alloc, script, gate)?;
    let text = text_of(alloc, &rested)?;
    Ok((text, rested.world.is_stalled()))
}

/// Runs the script under a gate of this plan, and writes what it came to.
fn start<R: Input + Print + AllocGlobal + Threads + Wait + Sync>(
    rt: &R,
    plan: Plan,
) -> Result<u8, u8> {
    let script = script_in(rt.alloc(), &mut StdSource::new(rt.reader()))?;
    let gate = Holding::new(plan);
    let Ok((text, is_stalled)) = run_under(rt, rt.alloc(), script, &gate) else {
        return Err(MEMORY);
    };
    if write_all(&mut StdSink::new(io::writer(rt)), text.as_slice()).is_err() {
        return Err(WRITE_FAULT);
    }
    if gate.has_given_up() {
        return Err(GAVE_UP);
    }
    Ok(if is_stalled { STALLED } else { 0 })
}

/// The plan that the words name.
fn plan_in<R: Env + AllocGlobal>(rt: &R) -> Option<Plan> {
    plan_of(rt.alloc(), &words_of(rt)?)
}

fn main(rt: HostRuntime) -> ExitCode {
    let Some(plan) = plan_in(&rt) else {
        return ExitCode::from(USAGE);
    };
    ExitCode::from(match start(&rt, plan) {
        Ok(status) | Err(status) => status,
    })
}
