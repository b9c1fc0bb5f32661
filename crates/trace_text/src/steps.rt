//! The text of a list of events: a line with their number, and a line for each.
ghost use Rattle.std.specs.Prelude.{◌≡◌, ◌∷◌, [], ◌++◌, codes, length, IfOk, OnOk};
ghost use Rattle.std.specs.Fmt.{decimal};
ghost use Rattle.trace_text.specs.Steps.{event_line, steps_line, steps_text};

use crate::text::{push, push_byte, push_number};
use pico_base::{Bytes, Event, Memory, Node};
use std::alloc::Global;

fn push_run(out: &mut Vec<u8>, node: Node) -> Result<(), Memory>
    ensures { OnOk result (out.new.items ≡ out.old.items ++ codes "run " ++ decimal node) }
{
    push(out, b"run ")?;
    push_number(out, u64::from(node.0))
}

fn push_take(out: &mut Vec<u8>, node: Node, from: Node) -> Result<(), Memory>
    ensures { OnOk result
        (out.new.items ≡ out.old.items ++ codes "take " ++ decimal node ++ codes " from " ++ decimal from) }
{
    push(out, b"take ")?;
    push_number(out, u64::from(node.0))?;
    push(out, b" from ")?;
    push_number(out, u64::from(from.0))
}

fn push_event(out: &mut Vec<u8>, event: Event) -> Result<(), Memory>
    ensures { OnOk result (out.new.items ≡ out.old.items ++ event_line event) }
{
    match event {
        Event::Run(node) => push_run(out, node)?,
        Event::Take { node, from } => push_take(out, node, from)?,
    }
    push_byte(out, b'\n')
}

fn push_count(out: &mut Vec<u8>, count: u64) -> Result<(), Memory>
    ensures { OnOk result (out.new.items ≡ out.old.items ++ steps_line count) }
{
    push(out, b"steps ")?;
    push_number(out, count)?;
    push_byte(out, b'\n')
}

/// The text of these events: `steps K` with their number, and then for each, in order, `run P` where node P starts
/// its next call, or `take P from Q` where it takes a frame from node Q. Each line has one line feed.
pub fn write_steps(alloc: Global, events: &[Event]) -> Result<Bytes, Memory>
    ensures { IfOk result (λ text. text ≡ steps_text events.now) }
{
    let mut out = Vec::new(alloc);
    push_count(&mut out, events.len() as u64)?;
    for event in events {
        push_event(&mut out, *event)?;
    }
    Ok(Bytes::from_vec(out))
}
