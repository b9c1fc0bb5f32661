//! The run of a script's picoprocesses by a schedule.
ghost use Rattle.std.specs.Prelude.{◌≡◌, ◌+◌, ◌∷◌, ◌++◌, [], if◌then◌else◌, IfOk, OnOk};
ghost use Rattle.kernel_model.specs.Script.{IsSoundScript};
ghost use Rattle.world_model.specs.World.{node_count};
ghost use Rattle.pico_cmd.specs.Telling.{IsToldRun, Tells};

use crate::laws::laws;
use crate::schedule::Schedule;
use crate::telling::{Telling, tell_all, tell_if_much};
use pico_base::{Event, Memory, Node, Script};
use std::alloc::Global;
use std::mem::ManuallyDrop;
use world_core::StreamingWorld;

/// A run: its events, where they are wanted, what was told of its journal, and whether processes wait for good.
#[derive(Drop)]
pub struct Run {
    pub events: Vec<Event>,
    pub telling: Telling,
    pub stalled: bool,
}

// How many nodes a script has.
pub fn nodes_of(script: &Script) -> Node
    requires { IsSoundScript script.now }
    ensures { result ≡ node_count script.now }
{
    Node(script.blocks.len() as u8)
}

// A world whose run is told is left as it is: the program ends soon, and the system takes back its memory at once, not
// piece by piece.
fn leave(world: StreamingWorld) {
    let _left = ManuallyDrop::new(world);
}

// Keeps an event, where events are wanted.
#[inline(always)]
fn keep(events: &mut Vec<Event>, steps: bool, event: &Event) -> Result<(), Memory>
    ensures { OnOk result
        (events.new.items ≡ (if steps then events.old.items ++ event.now ∷ [] else events.old.items)) }
{
    if steps {
        events.push(*event)?;
    }
    Ok(())
}

// One event more. A run of more events than a number of eight bytes counts isn't carried out.
pub fn one_more(count: u64) -> Result<u64, Memory>
    ensures { IfOk result (λ more. more ≡ count + 1) }
{
    count.checked_add(1).ok_or(Memory)
}

/// Runs a script by the schedule of this number, to rest, and tells its journal as it goes on. Its events are kept
/// where they are wanted.
pub fn run_script(
    alloc: Global,
    script: Script,
    seed: u32,
    steps: bool,
    telling: Telling,
) -> Result<Run, Memory>
    requires sound { IsSoundScript script }
    requires fresh { Tells script [] telling }
    ensures told { IfOk result (λ run. IsToldRun script seed steps run.events.items run.stalled run.telling) }
    ensures lines { IfOk result (λ run. run.telling.lines ≡ telling.lines) }
{
    laws();
    let mut telling = telling;
    let mut schedule = Schedule::numbered(seed, nodes_of(&script));
    let mut world = StreamingWorld::start(alloc, script)?;
    let mut events = Vec::new(alloc);
    // that the loop ends is seen by this count
    let mut count: u64 = 0;
    while let Some((event, after)) = schedule.choice(&world) {
        schedule = after;
        count = one_more(count)?;
        keep(&mut events, steps, &event)?;
        world.step(event)?;
        tell_if_much(&mut telling, &mut world)?;
    }
    let stalled = world.is_stalled();
    tell_all(&mut telling, &mut world)?;
    leave(world);
    Ok(Run {
        events,
        telling,
        stalled,
    })
}
