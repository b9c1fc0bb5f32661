//! The text of a history: a line for each entry, and the totals.
ghost use Rattle.std.specs.Prelude.{◌≡◌, ◌++◌, IfOk, OnOk};
ghost use Rattle.std.specs.List.{flat_map};
ghost use Rattle.kernel_model.specs.Trace as trace;

use crate::print_entries::push_entry;
use crate::totals::push_totals;
use pico_base::{Bytes, Entries, Entry, Memory, Script};
use std::alloc::Global;

/// Adds a line for each of these entries of a history of a script's processes. Each line has one line feed. Memory:
/// more was needed, and an allocation was refused.
pub fn push_entries(out: &mut Vec<u8>, script: &Script, entries: &[Entry]) -> Result<(), Memory>
    ensures { OnOk result (out.new.items ≡ out.old.items ++ flat_map (trace.entry_line script.now) entries.now) }
{
    for entry in entries {
        push_entry(out, script, entry)?;
    }
    Ok(())
}

/// The text of a history of a script's processes: a line for each entry, and the totals line, each with one line feed.
pub fn write_trace(alloc: Global, script: &Script, journal: &Entries) -> Result<Bytes, Memory>
    ensures { IfOk result (λ text. text ≡ trace.trace_text script.now journal.now) }
{
    let mut out = Vec::new(alloc);
    push_entries(&mut out, script, journal.as_slice())?;
    push_totals(&mut out, journal.as_slice())?;
    Ok(Bytes::from_vec(out))
}
