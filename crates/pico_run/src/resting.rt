//! The events that are left when the threads have ended.
ghost use Rattle.std.specs.Prelude.{◌≡◌, ℕ, ◌≤◌, ◌++◌, true, IfOk, OnOk, IfSome, IsSome};
ghost use Rattle.std.specs.List.{AllByRecursion};
ghost use Rattle.pico_base.specs.declared.script.Script.{Script};
ghost use Rattle.kernel_model.specs.Script.{IsSoundScript};
ghost use Rattle.stamp_merge.specs.Merge.{AreInOrder};
ghost use Rattle.journal_core.specs.Journal.{under};
ghost use Rattle.world_model.specs.World.{is_enabled};
ghost use Rattle.world_model.specs.Schedule.{node_of};
ghost use Rattle.pico_run.specs.Rested.{IsRested};
ghost use Rattle.pico_run.specs.Resting.{IsGoing, IsMade, CanGoOn};

use crate::rested::Rested;
use journal_core::{Journal, Stamped as JournalEntry};
use pico_base::{Entry, Event, Memory, Node};
use stamp_merge::{Merged, Stamped};
use std::alloc::Global;
use thread_laws::steps_follow;
use turn_laws::runs_are_few;
use world_core::{World, rest_is_where_nothing_is_chosen};

/// The node whose event it is.
fn node_of(event: &Event) -> Node
    ensures { result ≡ node_of event.now }
{
    match event {
        Event::Run(node) => *node,
        Event::Take { node, .. } => *node,
    }
}

/// The greatest stamp of these events, 0 where there is none.
fn last_stamp(events: &[Stamped<Event>]) -> u64
    requires { AreInOrder events.now }
    ensures above { AllByRecursion (λ e. e.stamp ≤ result) events.now }
    ensures least { (bound : ℕ) → AllByRecursion (λ e. e.stamp ≤ bound) events.now → result ≤ bound }
{
    match events.last() {
        Some(event) => event.stamp,
        None => 0,
    }
}

/// Copies entries into the journal, under this stamp.
fn copy_entries(
    alloc: Global,
    entries: &[Entry],
    stamp: u64,
    node: Node,
    journal: &mut Journal,
) -> Result<(), Memory>
    ensures { OnOk result (journal.new ≡ journal.old ++ under stamp node entries.now) }
{
    for entry in entries {
        journal.push(JournalEntry {
            stamp,
            seat: u32::from(node.0),
            entry: entry.try_copy(alloc)?,
        })?;
    }
    Ok(())
}

/// Carries out an event of the world that is enabled. It and its entries have this stamp.
fn make(
    alloc: Global,
    event: &Event,
    stamp: u64,
    world: &mut World,
    events: &mut Merged<Event>,
    journal: &mut Journal,
) -> Result<(), Memory>
    requires whole { IsSome world.old }
    requires enabled { IfSome world.old (λ w. is_enabled w event.now ≡ true) }
    ensures { OnOk result (IsMade event.now stamp world.old world.new events.old events.new journal.old journal.new) }
{
    let before = world.journal().as_slice().len();
    world.step(*event)?;
    let node = node_of(event);
    copy_entries(
        alloc,
        &world.journal().as_slice()[before..],
        stamp,
        node,
        journal,
    )?;
    events.push(Stamped {
        stamp,
        node,
        item: *event,
    })?;
    Ok(())
}

/// Steps the world to rest. Each event and its entries have a stamp one more than the greatest so far.
pub(crate) fn rest(alloc: Global, so_far: Rested, last: Node) -> Result<Rested, Memory>
    requires { CanGoOn so_far last }
    ensures { (script : Script) → IsSoundScript script → IsGoing script so_far → IfOk result (IsRested script) }
{
    rest_is_where_nothing_is_chosen();
    steps_follow();
    runs_are_few();
    let Rested {
        mut journal,
        mut events,
        mut world,
        partings,
    } = so_far;
    let mut after = last;
    let mut stamp = last_stamp(events.as_slice());
    while let Some(event) = world.in_turn(after) {
        stamp += 1;
        after = node_of(&event);
        make(alloc, &event, stamp, &mut world, &mut events, &mut journal)?;
    }
    Ok(Rested {
        journal,
        events,
        world,
        partings,
    })
}
