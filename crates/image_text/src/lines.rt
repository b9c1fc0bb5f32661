//! The lines of an image behind its script.
ghost use Rattle.std.specs.Prelude.{◌≡◌, ◌≤◌, option_map, IfOk, OnOk};
ghost use Rattle.image_text.specs.Lines as spec;
ghost use Rattle.image_text.specs.Reading.{with_event};

use crate::numbers::{MAX_STAMP, count_of, node_front, stamp_front, whole_node};
use crate::placed::{Placed, PlacedEvents};
use pico_base::{Event, Memory, Node};
use quoted_bytes::strip_front;
use stamp_merge::Stamped;

/// The number of events in a line `image E`, where one above 4,294,967,295 counts as that.
#[tactic(auto, unfolding(crate::specs::Lines::count_in))]
pub(crate) fn count_in(line: &[u8]) -> Option<u32>
    ensures { result ≡ spec.count_in line.now }
{
    count_of(strip_front(line, b"image ")?)
}

#[tactic(auto, unfolding(crate::specs::Lines::take_in))]
fn take_in(nodes: u8, node: u8, bytes: &[u8]) -> Option<Event>
    requires { (1 ≤ node) × (node ≤ 32) }
    ensures { result ≡ spec.take_in nodes node bytes.now }
{
    let from = whole_node(nodes, strip_front(bytes, b"take ")?)?;
    Some(Event::Take {
        node: Node(node),
        from: Node(from),
    })
}

/// What the node did.
#[tactic(auto, unfolding(crate::specs::Lines::act_in))]
fn act_in(nodes: u8, node: u8, bytes: &[u8]) -> Option<Event>
    requires { (1 ≤ node) × (node ≤ 32) }
    ensures { result ≡ spec.act_in nodes node bytes.now }
{
    if bytes == b"run".as_slice() {
        Some(Event::Run(Node(node)))
    } else {
        take_in(nodes, node, bytes)
    }
}

fn may_stand(low: u8, stamp: u64, node: u8) -> bool
    ensures { result ≡ spec.may_stand low stamp node }
{
    0 < stamp && stamp <= MAX_STAMP && low <= node
}

fn standing(low: u8, number: u32, stamp: u64, node: u8, event: Event) -> Option<Stamped<Placed>>
    requires { (1 ≤ node) × (node ≤ 32) }
    ensures { result ≡ spec.standing low number stamp node event }
{
    if !may_stand(low, stamp, node) {
        return None;
    }
    Some(Stamped {
        stamp,
        node: Node(node),
        item: Placed {
            line: number,
            event,
        },
    })
}

/// The event of the line of this number, where a script has so many nodes and the lines before it are of nodes up to
/// `low`.
#[tactic(auto, unfolding(crate::specs::Lines::event_in))]
fn event_in(nodes: u8, low: u8, number: u32, line: &[u8]) -> Option<Stamped<Placed>>
    ensures { result ≡ spec.event_in nodes low number line.now }
{
    let (stamp, rest) = stamp_front(line)?;
    let rest = strip_front(rest, b" ")?;
    let (node, rest) = node_front(nodes, rest)?;
    let event = act_in(nodes, node, strip_front(rest, b" ")?)?;
    standing(low, number, stamp, node, event)
}

/// Adds the event of a line, and gives its node; none where the line has none.
pub(crate) fn push_event(
    events: &mut PlacedEvents,
    nodes: u8,
    low: u8,
    number: u32,
    line: &[u8],
) -> Result<Option<u8>, Memory>
    ensures events { OnOk result (events.new ≡ with_event events.old (spec.event_in nodes low number line.now)) }
    ensures node { IfOk result (λ node. node ≡ option_map (λ e. e.node) (spec.event_in nodes low number line.now)) }
{
    match event_in(nodes, low, number, line) {
        None => Ok(None),
        Some(found) => {
            // The whole isn't carried on: the kit knows no place for an event in it.
            let place = found.item.line;
            let event: Event = found.item.event;
            let node = found.node.0;
            events.push(Stamped {
                stamp: found.stamp,
                node: found.node,
                item: Placed { line: place, event },
            })?;
            Ok(Some(node))
        }
    }
}
