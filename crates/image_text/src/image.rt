//! An image is read.
ghost use Rattle.std.specs.Prelude.{◌≡◌, ◌≤◌, ◌+◌, List, length, IfOk};
ghost use Rattle.pico_base.specs.declared.script.Script.{Script as ScriptValue};
ghost use Rattle.pico_base.specs.declared.script.Event.{Event as EventValue};
ghost use Rattle.stamp_merge.specs.declared.Stamped.{Stamped as StampedValue};
ghost use Rattle.kernel_model.specs.Script.{IsSoundScript};
ghost use Rattle.script_reader.specs.Words.{lines_of};
ghost use Rattle.image_text.specs.Parts.{lines_behind, number_behind};
ghost use Rattle.image_text.specs.Gives.{Gives};
ghost use Rattle.image_text.specs.Grammar.{IsImage, StampsRiseByNode, IsOrderOf, IsSaidBy, IsReadAs};
ghost use Rattle.image_text.specs.Order.{NodesRise};
ghost use Rattle.image_text.specs.Reading as spec;

use crate::fault::{ImageFault, ImageStop};
use crate::order::{first_fall, order};
use crate::parts::{Parts, is_large, line_of_excess, seen};
use crate::placed::PlacedEvents;
use crate::reading::read_listed;
use pico_base::Script;
use script_reader::{ScriptStop, read_script};
use std::alloc::Global;

/// What an image says.
#[derive(Debug, Drop)]
pub struct Said {
    pub script: Script,
    /// Its events in order: by stamp, and by node where stamps are the same.
    pub events: PlacedEvents,
}

/// The events in order, where none falls.
fn in_order(alloc: Global, events: PlacedEvents) -> Result<PlacedEvents, ImageStop>
    requires { NodesRise 1 events }
    ensures { Gives result (spec.ordered_or_fall events) }
{
    if let Some(line) = first_fall(events.as_slice()) {
        return Err(ImageStop::At {
            line,
            fault: ImageFault::NotRising,
        });
    }
    Ok(order(alloc, events.as_slice())?)
}

/// Why there is no script.
fn stop_of(stop: ScriptStop) -> ImageStop
    ensures { result ≡ spec.stop_of stop }
{
    match stop {
        ScriptStop::Memory => ImageStop::Memory,
        ScriptStop::At { line, fault } => ImageStop::Script { line, fault },
    }
}

/// The events of an image whose script has so many nodes.
fn read_events(
    alloc: Global,
    nodes: u8,
    bytes: &[u8],
    parts: &Parts,
) -> Result<PlacedEvents, ImageStop>
    requires lines { lines_of parts.now.behind.now ≡ lines_behind bytes.now }
    requires number { parts.now.number ≡ number_behind bytes.now }
    requires small { parts.now.number + length parts.now.behind.now ≤ 16777218 }
    ensures { Gives result (spec.events_of nodes bytes.now) }
{
    if is_large(bytes) {
        return Err(ImageStop::At {
            line: line_of_excess(bytes),
            fault: ImageFault::NotAnImage,
        });
    }
    let events = read_listed(alloc, nodes, parts.number, parts.behind)?;
    in_order(alloc, events)
}

/// The script beside what was read behind it.
fn with_script(script: Script, read: Result<PlacedEvents, ImageStop>) -> Result<Said, ImageStop>
    ensures { result ≡ spec.with_script script read }
{
    match read {
        Ok(events) => Ok(Said { script, events }),
        Err(stop) => Err(stop),
    }
}

/// What an image says: the script before its first line whose first word is `image`, without the line feed just before
/// that line, and the events behind it, in order.
///
/// A fault of the script comes first, with its line. Else `NotAnImage` comes at the line of the first byte past
/// 16,777,216, or else at the first line behind the script outside the grammar of an image, which is the number of
/// lines plus 1 where lines are missing; and else `NotRising` at the first line whose stamp isn't above that of the
/// one before it of the same node. `Memory` comes from want of memory alone.
pub fn read_image(alloc: Global, image: &[u8]) -> Result<Said, ImageStop>
    ensures gives { Gives result (spec.said_by image.now) }
    ensures sound { IfOk result (λ said. IsSoundScript said.script) }
    // What is read is what the image says.
    ensures ok { IfOk result (IsSaidBy image.now) }
    // Each image is read, unless memory runs out.
    ensures only { (script : ScriptValue) (events order : List (StampedValue EventValue))
        → IsImage image.now script events → StampsRiseByNode events → IsOrderOf events order
        → IsReadAs script order result }
{
    let bytes = seen(image);
    let parts = Parts::of(bytes);
    match read_script(alloc, parts.script) {
        Ok(script) => {
            let nodes = script.blocks.len() as u8;
            with_script(script, read_events(alloc, nodes, bytes, &parts))
        }
        Err(stop) => Err(stop_of(stop)),
    }
}
