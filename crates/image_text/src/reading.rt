//! The events of an image, line by line.
ghost use Rattle.std.specs.Prelude.{◌≡◌, ◌≤◌, ◌+◌, length, IfOk, [], Err};
ghost use Rattle.script_reader.specs.Words.{lines_of};
ghost use Rattle.image_text.specs.Gives.{Gives};
ghost use Rattle.image_text.specs.Order.{NodesRise};
ghost use Rattle.image_text.specs.Reading as spec;

use crate::fault::{ImageFault, ImageStop};
use crate::lines::{count_in, push_event};
use crate::placed::PlacedEvents;
use script_reader::next_line;
use std::alloc::Global;

/// A line outside the grammar.
fn outside(line: u32) -> ImageStop
    ensures { Err result ≡ spec.outside line }
{
    ImageStop::At {
        line,
        fault: ImageFault::NotAnImage,
    }
}

/// So many events, and no further line. The first line has this number, and the script so many nodes.
fn read_events(
    alloc: Global,
    nodes: u8,
    count: u32,
    first: u32,
    bytes: &[u8],
) -> Result<PlacedEvents, ImageStop>
    requires { first + length bytes.now ≤ 16777219 }
    ensures { Gives result (spec.events_from nodes count 1 first [] (lines_of bytes.now)) }
{
    let mut events = PlacedEvents::new(alloc);
    let mut low: u8 = 1;
    let mut left = count;
    let mut number = first;
    let mut rest = bytes;
    while let Some((line, after)) = next_line(rest) {
        if left == 0 {
            return Err(outside(number));
        }
        let Some(node) = push_event(&mut events, nodes, low, number, line)? else {
            return Err(outside(number));
        };
        low = node;
        left -= 1;
        number += 1;
        rest = after;
    }
    if left == 0 {
        Ok(events)
    } else {
        Err(outside(number))
    }
}

/// The events that the line `image E`, of this number, and those behind it list.
#[tactic(auto, unfolding(crate::specs::Reading::listed))]
pub(crate) fn read_listed(
    alloc: Global,
    nodes: u8,
    number: u32,
    bytes: &[u8],
) -> Result<PlacedEvents, ImageStop>
    requires { number + length bytes.now ≤ 16777218 }
    ensures gives { Gives result (spec.listed nodes number (lines_of bytes.now)) }
    ensures rise { IfOk result (NodesRise 1) }
{
    let Some((line, after)) = next_line(bytes) else {
        return Err(outside(number));
    };
    let Some(count) = count_in(line) else {
        return Err(outside(number));
    };
    read_events(alloc, nodes, count, number + 1, after)
}
