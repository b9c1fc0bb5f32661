//! The answer to several sandboxes.
ghost use Rattle.std.specs.Prelude.{◌≡◌, ◌⊎◌, ◌++◌, ℕ, List, map, IfOk, OnOk, IsSome};
ghost use Rattle.std.specs.List.{AllByRecursion};
ghost use Rattle.sandbox_set.specs.Boxes.{IsFirstFault, Reads};
ghost use Rattle.sandbox_set.specs.Sound.{AreSound};
ghost use Rattle.sandbox_set.specs.declared.fault.BoxFault.{BoxFault as FaultValue};
ghost use Rattle.sandbox_set.specs.declared.read.Sandbox.{Sandbox as BoxValue};
ghost use Rattle.pico_cmd.specs.Boxed.{AnswersBoxes, world_text, worlds_text};
ghost use Rattle.pico_cmd.specs.Promise.{RunsBoxes, box_fault_text};

use crate::answer::{Answer, text_of_named_fault};
use crate::laws::laws;
use crate::stalled::{are_left_stalled, status_left};
use crate::status::Status;
use boxes_run::{RestedList, run_all};
use host_iface::Gate;
use pico_base::{Bytes, Memory};
use pico_run::Rested;
use sandbox_set::{BoxFault, BoxStop, Boxes, Sandbox, push_named_trace, read_boxes};
use std::alloc::Global;
use std::sync::Wait;
use std::thread::Threads;

// The line that names the first fault of an input of sandboxes.
fn text_of_box_fault(alloc: Global, line: u32, fault: BoxFault) -> Result<Bytes, Memory>
    ensures { IfOk result (λ text. text ≡ box_fault_text line fault) }
{
    text_of_named_fault(alloc, line, fault.name())
}

// The names of sandboxes, in order.
fn names_of(alloc: Global, boxes: &[Sandbox]) -> Result<Vec<Bytes>, Memory>
    ensures { IfOk result (λ names. names.items ≡ map (λ b. b.name) boxes.now) }
{
    let mut names = Vec::new(alloc);
    for sandbox in boxes {
        names.push(sandbox.name.try_copy(alloc)?)?;
    }
    Ok(names)
}

// Adds a sandbox's line, and the trace of its run.
fn push_rested(out: &mut Vec<u8>, name: &Bytes, rested: &Rested) -> Result<(), Memory>
    requires { IsSome rested.now.world }
    ensures { OnOk result (out.new.items ≡ out.old.items ++ world_text name.now rested.now.world) }
{
    let world = &rested.world;
    push_named_trace(
        out,
        name.as_slice(),
        world.script(),
        world.journal().as_slice(),
    )?;
    Ok(())
}

// For each sandbox its line and its trace, in order.
fn text_of_all(alloc: Global, names: &[Bytes], rested: &[Rested]) -> Result<Bytes, Memory>
    requires whole { AllByRecursion (λ r. IsSome r.world) rested.now }
    ensures { IfOk result (λ text. text ≡ worlds_text names.now rested.now) }
{
    let mut out = Vec::new(alloc);
    for (name, one) in names.iter().zip(rested.iter()) {
        push_rested(&mut out, name, one)?;
    }
    Ok(Bytes::from_vec(out))
}

// The answer of a run of sandboxes.
fn run_boxes<R: Threads + Wait + Sync, G: Gate>(
    rt: &R,
    alloc: Global,
    boxes: Boxes,
    gate: &G,
) -> Result<Answer, Memory>
    requires sound { AreSound 32 boxes }
    ensures { IfOk result (AnswersBoxes boxes) }
{
    laws();
    let names = names_of(alloc, boxes.as_slice())?;
    let rested = run_all(rt, alloc, boxes, gate)?;
    let text = text_of_all(alloc, &names, rested.as_slice())?;
    Ok(Answer {
        status: status_left(are_left_stalled(rested.as_slice())),
        text,
        rested,
    })
}

/// The answer to these bytes: for each of the sandboxes that they are its name and the trace of its run with threads,
/// all at once, or their first fault.
pub fn answer_to_boxes<R: Threads + Wait + Sync, G: Gate>(
    rt: &R,
    alloc: Global,
    bytes: &[u8],
    gate: &G,
) -> Result<Answer, Memory>
    ensures answer { IfOk result (λ answer. RunsBoxes bytes.now answer.status answer.text answer.rested) }
    ensures done { (boxes : List BoxValue) → Reads bytes.now boxes
        → IfOk result (λ answer. (answer.status ≡ Status.Done) ⊎ (answer.status ≡ Status.Stalled)) }
    ensures fault { (line : ℕ) (fault : FaultValue) → IsFirstFault bytes.now line fault
        → IfOk result (λ answer. answer.status ≡ Status.BadScript) }
{
    match read_boxes(alloc, bytes) {
        Ok(boxes) => run_boxes(rt, alloc, boxes, gate),
        Err(BoxStop::At { line, fault }) => Ok(Answer {
            status: Status::BadScript,
            text: text_of_box_fault(alloc, line, fault)?,
            rested: RestedList::new(alloc),
        }),
        Err(BoxStop::Memory) => Err(Memory),
    }
}
