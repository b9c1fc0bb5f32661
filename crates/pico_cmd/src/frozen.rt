//! The answer to a script that is frozen: its image after the first events of its run in turn.
ghost use Rattle.std.specs.Prelude.{◌≡◌, ◌⊎◌, ◌∷◌, ◌++◌, ◌+◌, [], ℕ, length, IfOk, OnOk};
ghost use Rattle.pico_base.specs.declared.script.Script.{Script as ScriptValue};
ghost use Rattle.kernel_model.specs.Script.{IsSoundScript};
ghost use Rattle.script_reader.specs.declared.fault.ScriptFault.{ScriptFault as FaultValue};
ghost use Rattle.script_reader.specs.Fault.{Reads, IsFirstFault};
ghost use Rattle.pico_cmd.specs.Frozen.{AreFirstStamped, IsFrozen, stamped_event};
ghost use Rattle.pico_cmd.specs.Promise.{Freezes};

use crate::answer::{Answer, text_of_fault};
use crate::laws::laws;
use crate::run::nodes_of;
use crate::schedule::{Schedule, node_of};
use crate::status::Status;
use crate::telling::{Telling, tell_if_much};
use boxes_run::RestedList;
use image_text::freeze;
use pico_base::{Event, Memory, Script};
use script_reader::{ScriptStop, read_script};
use stamp_merge::Stamped;
use std::alloc::Global;
use world_core::StreamingWorld;

// Adds an event, whose stamp is its place, from 1.
fn keep(events: &mut Vec<Stamped<Event>>, before: u32, event: &Event) -> Result<(), Memory>
    ensures { OnOk result (events.new.items ≡ events.old.items ++ stamped_event (before + 1) event.now ∷ []) }
{
    events.push(Stamped {
        stamp: u64::from(before) + 1,
        node: node_of(event),
        item: *event,
    })?;
    Ok(())
}

// So many first events of schedule 0, or all where the run comes to rest earlier. What they carry out isn't kept.
fn first_events(alloc: Global, script: Script, count: u32) -> Result<Vec<Stamped<Event>>, Memory>
    requires { IsSoundScript script }
    ensures { IfOk result (λ events. AreFirstStamped script count events.items) }
{
    laws();
    let mut telling = Telling::of_totals(alloc);
    let mut schedule = Schedule::numbered(0, nodes_of(&script));
    let mut world = StreamingWorld::start(alloc, script)?;
    let mut events = Vec::new(alloc);
    for before in 0..count {
        let Some((event, after)) = schedule.choice(&world) else {
            return Ok(events);
        };
        schedule = after;
        keep(&mut events, before, &event)?;
        world.step(event)?;
        tell_if_much(&mut telling, &mut world)?;
    }
    Ok(events)
}

// The answer of a script that is frozen.
fn frozen(alloc: Global, bytes: &[u8], script: Script, count: u32) -> Result<Answer, Memory>
    requires sound { IsSoundScript script }
    requires reads { Reads bytes.now script }
    ensures status { IfOk result (λ answer. answer.status ≡ Status.Done) }
    ensures text { IfOk result (λ answer. IsFrozen count bytes.now answer.text) }
    ensures alone { IfOk result (λ answer. answer.rested ≡ []) }
{
    let events = first_events(alloc, script, count)?;
    Ok(Answer {
        status: Status::Done,
        text: freeze(alloc, bytes, &events)?,
        rested: RestedList::new(alloc),
    })
}

/// The answer to these bytes: the image of the script that they are and of so many first events of schedule 0, or of
/// all where its run comes to rest earlier; or the script's first fault.
pub fn answer_to_freeze(alloc: Global, bytes: &[u8], count: u32) -> Result<Answer, Memory>
    ensures answer { IfOk result (λ answer. Freezes count bytes.now answer.status answer.text) }
    ensures alone { IfOk result (λ answer. answer.rested ≡ []) }
    ensures done { (script : ScriptValue) → Reads bytes.now script
        → IfOk result (λ answer. answer.status ≡ Status.Done) }
    ensures fault { (line : ℕ) (fault : FaultValue) → IsFirstFault bytes.now line fault
        → IfOk result (λ answer. answer.status ≡ Status.BadScript) }
{
    match read_script(alloc, bytes) {
        Ok(script) => frozen(alloc, bytes, script, count),
        Err(ScriptStop::At { line, fault }) => Ok(Answer {
            status: Status::BadScript,
            text: text_of_fault(alloc, line, fault)?,
            rested: RestedList::new(alloc),
        }),
        Err(ScriptStop::Memory) => Err(Memory),
    }
}
