//! The order in which the events of an image happened.
ghost use Rattle.std.specs.Prelude.{◌≡◌, ◌≤◌, None, IfOk};
ghost use Rattle.stamp_merge.specs.Merge.{items_of};
ghost use Rattle.image_text.specs.Order as spec;

use crate::placed::{Placed, PlacedEvents};
use pico_base::Memory;
use stamp_merge::{Logs, Stamped, merge};
use std::alloc::Global;

/// The most nodes of a script.
const MAX_NODE: u8 = 32;

/// Whether an event is of the same node as the one before it, and its stamp isn't above that one's.
fn falls(before: &Stamped<Placed>, event: &Stamped<Placed>) -> bool
    ensures { result ≡ spec.falls before.now event.now }
{
    event.node.0 == before.node.0 && event.stamp <= before.stamp
}

/// The line of the first event that falls behind this one.
fn fall_behind(first: &Stamped<Placed>, events: &[Stamped<Placed>]) -> Option<u32>
    ensures { result ≡ spec.fall_behind first.now events.now }
{
    let mut before = first;
    for event in events {
        if falls(before, event) {
            return Some(event.item.line);
        }
        before = event;
    }
    None
}

/// The line of the first event whose stamp isn't above that of the one before it of the same node.
#[tactic(auto, unfolding(crate::specs::Order::first_fall))]
pub(crate) fn first_fall(events: &[Stamped<Placed>]) -> Option<u32>
    ensures { result ≡ spec.first_fall events.now }
{
    match events {
        [] => None,
        [first, rest @ ..] => fall_behind(first, rest),
    }
}

/// The events of a node, as they stand.
fn log_of(alloc: Global, node: u8, events: &[Stamped<Placed>]) -> Result<PlacedEvents, Memory>
    ensures { IfOk result (λ log. log ≡ items_of node events.now) }
{
    let mut log = PlacedEvents::new(alloc);
    for event in events {
        if event.node.0 == node {
            log.push(Stamped {
                stamp: event.stamp,
                node: event.node,
                item: event.item,
            })?;
        }
    }
    Ok(log)
}

/// The events of each node.
#[tactic(auto, unfolding(crate::specs::Order::logs_of))]
fn logs_of(alloc: Global, events: &[Stamped<Placed>]) -> Result<Logs<Placed>, Memory>
    ensures { IfOk result (λ logs. logs ≡ spec.logs_of events.now) }
{
    let mut logs = Logs::new(alloc);
    for before in 0..MAX_NODE {
        logs.push(log_of(alloc, before + 1, events)?)?;
    }
    Ok(logs)
}

/// The events in order, where none falls.
pub(crate) fn order(alloc: Global, events: &[Stamped<Placed>]) -> Result<PlacedEvents, Memory>
    requires nodes { spec.NodesRise 1 events.now }
    requires stamps { spec.first_fall events.now ≡ None }
    ensures { IfOk result (λ sorted. sorted ≡ spec.ordered events.now) }
{
    merge(alloc, logs_of(alloc, events)?)
}
