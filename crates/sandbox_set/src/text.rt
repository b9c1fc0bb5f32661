//! The text of the sandboxes' histories.

ghost use Rattle.std.specs.Prelude.{◌≡◌, ◌++◌, length, IfOk, OnOk};
ghost use Rattle.kernel_model.specs.Trace.{trace_text};
ghost use Rattle.sandbox_set.specs.Text as spec;

use crate::read::{Boxes, Sandbox};
use pico_base::{Bytes, Entries, Entry, Memory, Script, Sequence};
use std::alloc::Global;
use trace_text::{Tally, push, push_byte, push_entries, push_tally};

/// A history of each sandbox's processes, in the order of the sandboxes.
pub type Journals = Sequence<Entries>;

fn push_heading(out: &mut Vec<u8>, name: &[u8]) -> Result<(), Memory>
    ensures { OnOk result (out.new.items ≡ out.old.items ++ spec.heading_line name.now) }
{
    push(out, b"sandbox ")?;
    push(out, name)?;
    push_byte(out, b'\n')
}

fn push_trace(out: &mut Vec<u8>, script: &Script, journal: &[Entry]) -> Result<(), Memory>
    ensures { OnOk result (out.new.items ≡ out.old.items ++ trace_text script.now journal.now) }
{
    push_entries(out, script, journal)?;
    let mut tally = Tally::new();
    tally.add(journal)?;
    push_tally(out, &tally)
}

/// Adds the text of one sandbox: the line `sandbox NAME`, and the trace of a history of its script's processes. Memory:
/// more was needed, and an allocation was refused.
pub fn push_named_trace(
    out: &mut Vec<u8>,
    name: &[u8],
    script: &Script,
    journal: &[Entry],
) -> Result<(), Memory>
    ensures { OnOk result (out.new.items ≡ out.old.items ++ spec.named_trace name.now script.now journal.now) }
{
    push_heading(out, name)?;
    push_trace(out, script, journal)
}

fn push_sandbox(out: &mut Vec<u8>, sandbox: &Sandbox, journal: &Entries) -> Result<(), Memory>
    ensures { OnOk result (out.new.items ≡ out.old.items ++ spec.sandbox_text sandbox.now journal.now) }
{
    push_named_trace(
        out,
        sandbox.name.as_slice(),
        &sandbox.script,
        journal.as_slice(),
    )
}

/// The text of a history of each sandbox's processes: for each sandbox, in order, the line `sandbox NAME` and the trace
/// of its history. There is one journal for each sandbox. Memory: more was needed, and an allocation was refused.
pub fn boxes_text(alloc: Global, boxes: &Boxes, journals: &Journals) -> Result<Bytes, Memory>
    requires { length journals.now ≡ length boxes.now }
    ensures { IfOk result (λ text. text ≡ spec.boxes_text boxes.now journals.now) }
{
    let mut out = Vec::new(alloc);
    for (sandbox, journal) in boxes.as_slice().iter().zip(journals.as_slice().iter()) {
        push_sandbox(&mut out, sandbox, journal)?;
    }
    Ok(Bytes::from_vec(out))
}
