//! The answer to an image: the trace of the run that begins as the image says.
ghost use Rattle.std.specs.Prelude.{◌≡◌, ◌⊎◌, ◌≤◌, [], ℕ, Option, IfOk, OnOk, IfSome, IsSome};
ghost use Rattle.kernel_model.specs.Script.{IsSoundScript};
ghost use Rattle.kernel_model.specs.Trace.{trace_text};
ghost use Rattle.script_reader.specs.declared.fault.ScriptFault.{ScriptFault as FaultValue};
ghost use Rattle.script_reader.specs.Fault.{IsFirstFault};
ghost use Rattle.image_text.specs.Parts.{script_of, seen};
ghost use Rattle.image_text.specs.declared.fault.ImageFault.{ImageFault as ImageFaultValue};
ghost use Rattle.world_model.specs.World.{World as MachineWorld, size};
ghost use Rattle.world_image.specs.Thaws.{IsThawOf};
ghost use Rattle.pico_cmd.specs.Thawed.{GoesOn, AnswersThaw, IsImageFault, node_behind};
ghost use Rattle.pico_cmd.specs.Promise.{Thaws, image_fault_text};

use crate::answer::{Answer, text_of_fault, text_of_named_fault};
use crate::laws::laws;
use crate::run::{nodes_of, one_more};
use crate::schedule::node_of;
use crate::stalled::status_left;
use crate::status::Status;
use boxes_run::RestedList;
use image_text::{ImageFault, ImageStop};
use pico_base::{Bytes, Memory, Node};
use std::alloc::Global;
use trace_text::write_trace;
use world_core::World;
use world_image::{Thawed, thaw};

// The line that names an image's fault.
fn text_of_image_fault(alloc: Global, line: u32, fault: ImageFault) -> Result<Bytes, Memory>
    ensures { IfOk result (λ text. text ≡ image_fault_text line fault) }
{
    text_of_named_fault(alloc, line, fault.name())
}

// The node that events go on behind: that of the last one, or else the last node, so that node 1 comes first.
fn node_behind(world: &World, last: Option<Node>) -> Node
    requires whole { IsSome world.now }
    requires sound { IfSome world.now (λ w. IsSoundScript w.script) }
    ensures { IfSome world.now (λ w. result ≡ node_behind w last) }
{
    match last {
        Some(node) => node,
        None => nodes_of(world.script()),
    }
}

// Goes on by schedule 0, to rest.
fn go_on(world: &mut World, behind: Node) -> Result<(), Memory>
    requires whole { IsSome world.old }
    requires there { IfSome world.old (λ w. behind ≤ size w) }
    ensures { OnOk result (GoesOn world.old behind world.new) }
{
    let mut last = behind;
    // that the loop ends is seen by this count
    let mut count: u64 = 0;
    while let Some(event) = world.in_turn(last) {
        count = one_more(count)?;
        last = node_of(&event);
        world.step(event)?;
    }
    Ok(())
}

// The trace of a world's journal.
fn trace_of(alloc: Global, world: &World) -> Result<Bytes, Memory>
    requires { IsSome world.now }
    ensures { IfOk result (λ text. IfSome world.now (λ w. text ≡ trace_text w.script w.journal)) }
{
    write_trace(alloc, world.script(), world.journal())
}

// The answer of a world that was thawed.
fn answer_of(alloc: Global, thawed: Thawed) -> Result<Answer, Memory>
    requires whole { IsSome thawed.world }
    requires sound { IfSome thawed.world (λ w. IsSoundScript w.script) }
    requires there { IfSome thawed.world (λ w. node_behind w thawed.last ≤ size w) }
    ensures { IfOk result (AnswersThaw thawed) }
{
    let Thawed { mut world, last } = thawed;
    let behind = node_behind(&world, last);
    go_on(&mut world, behind)?;
    let status = status_left(world.is_stalled());
    Ok(Answer {
        status,
        text: trace_of(alloc, &world)?,
        rested: RestedList::new(alloc),
    })
}

/// The answer to these bytes: the trace of the run that begins with the events of the image that they are and goes on
/// by schedule 0, to rest; or the first fault of the image's script, or of the image.
pub fn answer_to_thaw(alloc: Global, bytes: &[u8]) -> Result<Answer, Memory>
    ensures answer { IfOk result (λ answer. Thaws bytes.now answer.status answer.text) }
    ensures alone { IfOk result (λ answer. answer.rested ≡ []) }
    ensures done { (w : MachineWorld) (last : Option ℕ) → IsThawOf bytes.now w last
        → IfOk result (λ answer. (answer.status ≡ Status.Done) ⊎ (answer.status ≡ Status.Stalled)) }
    ensures fault { (line : ℕ) (fault : FaultValue) → IsFirstFault (script_of (seen bytes.now)) line fault
        → IfOk result (λ answer. answer.status ≡ Status.BadScript) }
    ensures image_fault { (line : ℕ) (fault : ImageFaultValue) → IsImageFault bytes.now line fault
        → IfOk result (λ answer. answer.status ≡ Status.BadImage) }
{
    laws();
    match thaw(alloc, bytes) {
        Ok(thawed) => answer_of(alloc, thawed),
        Err(ImageStop::Script { line, fault }) => Ok(Answer {
            status: Status::BadScript,
            text: text_of_fault(alloc, line, fault)?,
            rested: RestedList::new(alloc),
        }),
        Err(ImageStop::At { line, fault }) => Ok(Answer {
            status: Status::BadImage,
            text: text_of_image_fault(alloc, line, fault)?,
            rested: RestedList::new(alloc),
        }),
        Err(ImageStop::Memory) => Err(Memory),
    }
}
