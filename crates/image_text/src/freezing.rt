//! An image is written.
ghost use Rattle.std.specs.Prelude.{◌≡◌, ◌∷◌, [], ◌++◌, codes, length, map, IfOk, OnOk};
ghost use Rattle.std.specs.Fmt.{decimal};
ghost use Rattle.stamp_merge.specs.Merge.{items_of};
ghost use Rattle.image_text.specs.Image.{act_text, event_line, count_line, ended, lacks_feed, closed, by_node, event_lines, image_text};

use pico_base::{Bytes, Event, Memory, Node};
use stamp_merge::Stamped;
use std::alloc::Global;
use trace_text::{push, push_byte, push_number};

/// The most nodes of a script.
const MAX_NODE: u8 = 32;

fn push_take(out: &mut Vec<u8>, from: Node) -> Result<(), Memory>
    ensures { OnOk result (out.new.items ≡ out.old.items ++ codes "take " ++ decimal from) }
{
    push(out, b"take ")?;
    push_number(out, u64::from(from.0))
}

fn push_act(out: &mut Vec<u8>, event: Event) -> Result<(), Memory>
    ensures { OnOk result (out.new.items ≡ out.old.items ++ act_text event) }
{
    match event {
        Event::Run(_) => push(out, b"run"),
        Event::Take { node: _, from } => push_take(out, from),
    }
}

/// Adds the line of an event.
#[tactic(auto, unfolding(crate::specs::Image::event_line))]
fn push_event(out: &mut Vec<u8>, event: &Stamped<Event>) -> Result<(), Memory>
    ensures { OnOk result (out.new.items ≡ out.old.items ++ ended (event_line event.now)) }
{
    push_number(out, event.stamp)?;
    push_byte(out, b' ')?;
    push_number(out, u64::from(event.node.0))?;
    push_byte(out, b' ')?;
    push_act(out, event.item)?;
    push_byte(out, b'\n')
}

/// Adds the line that ends the script.
#[tactic(auto, unfolding(crate::specs::Image::count_line))]
fn push_count(out: &mut Vec<u8>, count: u64) -> Result<(), Memory>
    ensures { OnOk result (out.new.items ≡ out.old.items ++ ended (count_line count)) }
{
    push(out, b"image ")?;
    push_number(out, count)?;
    push_byte(out, b'\n')
}

/// Whether the last line lacks its line feed.
fn is_open(script: &[u8]) -> bool
    ensures { result ≡ lacks_feed script.now }
{
    match script {
        [.., last] => *last != b'\n',
        [] => false,
    }
}

fn push_script(out: &mut Vec<u8>, script: &[u8]) -> Result<(), Memory>
    ensures { OnOk result (out.new.items ≡ out.old.items ++ closed script.now) }
{
    push(out, script)?;
    if is_open(script) {
        push_byte(out, b'\n')?;
    }
    Ok(())
}

/// Adds the lines of a node's events.
fn push_events_of(out: &mut Vec<u8>, node: u8, events: &[Stamped<Event>]) -> Result<(), Memory>
    ensures { OnOk result (out.new.items ≡ out.old.items ++ event_lines (items_of node events.now)) }
{
    for event in events {
        if event.node.0 == node {
            push_event(out, event)?;
        }
    }
    Ok(())
}

/// Adds the lines of all events, by rising node.
#[tactic(auto, unfolding(crate::specs::Image::by_node))]
fn push_events(out: &mut Vec<u8>, events: &[Stamped<Event>]) -> Result<(), Memory>
    ensures { OnOk result (out.new.items ≡ out.old.items ++ event_lines (by_node events.now)) }
{
    for before in 0..MAX_NODE {
        push_events_of(out, before + 1, events)?;
    }
    Ok(())
}

/// The image of these bytes of a script and of these events: the script, with a line feed added where its last line
/// lacks it, a line `image E` with the number of events, and a line for each, `S P run` or `S P take Q`, with its
/// stamp, its node, and the node that it took a frame from. They stand by rising node, from 1 to 32, and those of one
/// node in the order in which they are given. `Memory` comes from want of memory alone.
#[tactic(auto, unfolding(crate::specs::Image::image_text))]
pub fn freeze(alloc: Global, script: &[u8], events: &[Stamped<Event>]) -> Result<Bytes, Memory>
    ensures { IfOk result (λ image. image ≡ image_text script.now events.now) }
{
    let mut out = Vec::new(alloc);
    push_script(&mut out, script)?;
    push_count(&mut out, events.len() as u64)?;
    push_events(&mut out, events)?;
    Ok(Bytes::from_vec(out))
}
