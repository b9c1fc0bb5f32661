//! A trace read back as the entries of its history.
ghost use Rattle.std.specs.Prelude.{◌≡◌, ◌⊎◌, ◌≤◌, ◌<◌, ◌^◌, ◌==◌, List, length, position, option_map, IfOk, Ok, Err};
ghost use Rattle.pico_base.specs.declared.reply.Entry.{Entry as EntryValue};
ghost use Rattle.kernel_model.specs.Script.{IsSoundScript};
ghost use Rattle.kernel_model.specs.Trace.{totals_line};
ghost use Rattle.trace_text.specs.Reading.{is_line as is_line_of};
ghost use Rattle.trace_text.specs.Read as spec;

use crate::entries::{entry_in, is_line};
use crate::fault::CheckFault;
use crate::totals::push_totals;
use memchr::memchr;
use pico_base::{Entries, Entry, Memory, Script};
use std::alloc::Global;

/// The most bytes of a trace.
pub const MAX_TRACE: usize = 67_108_864;

/// The most bytes of a line, without its line feed.
const MAX_LINE: usize = 1_048_576;

/// Where the first line feed is.
fn line_end(bytes: &[u8]) -> Option<usize>
    ensures { result ≡ position (λ b. b == 10) bytes.now }
{
    memchr(b'\n', bytes)
}

/// The first line without its line feed, and what follows that; none where no line feed comes any more.
pub fn next_line(bytes: &[u8]) -> Option<(&[u8], &[u8])>
    ensures { option_map (λ x. (x.0.now, x.1.now)) result ≡ spec.next_line bytes.now }
{
    let at = line_end(bytes)?;
    Some((&bytes[..at], &bytes[at + 1..]))
}

/// Whether a line with its line feed is within its limit, and within what is left of the trace's.
pub fn fits(left: usize, line: &[u8]) -> bool
    ensures { result ≡ spec.fits left line.now }
{
    line.len() <= MAX_LINE && line.len() < left
}

/// Whether the line begins as the totals do.
pub fn begins_like_totals(line: &[u8]) -> bool
    ensures { result ≡ spec.begins_like_totals line.now }
{
    match line {
        [first, ..] => *first == b't',
        [] => false,
    }
}

/// Whether the line is the totals of these entries. It is printed only where the line begins like that.
fn is_totals(done: &[Entry], line: &[u8], scratch: &mut Vec<u8>) -> Result<bool, Memory>
    ensures { IfOk result (λ is. is ≡ is_line_of (totals_line done.now) line.now) }
{
    if !begins_like_totals(line) {
        return Ok(false);
    }
    scratch.clear();
    push_totals(scratch, done)?;
    Ok(is_line(scratch, line))
}

/// The entries of a trace, from its first line on.
pub(crate) fn read(
    alloc: Global,
    script: &Script,
    bytes: &[u8],
    first_line: u32,
) -> Result<Entries, CheckFault>
    requires blocks { length script.now.blocks ≤ 32 }
    requires first { first_line < 2 ^ 31 }
    ensures { spec.Gives result (spec.read_of script.now bytes.now first_line) }
{
    let mut done = Entries::new(alloc);
    let mut scratch = Vec::new(alloc);
    let mut rest = bytes;
    let mut left = MAX_TRACE;
    let mut line = first_line;
    for _ in 0..bytes.len() {
        let Some((text, after)) = next_line(rest) else {
            return Err(CheckFault::NotATrace { line });
        };
        if !fits(left, text) {
            return Err(CheckFault::NotATrace { line });
        }
        if is_totals(done.as_slice(), text, &mut scratch)? {
            return if after.is_empty() {
                Ok(done)
            } else {
                Err(CheckFault::NotATrace { line: line + 1 })
            };
        }
        let Some(entry) = entry_in(alloc, script, text, &mut scratch)? else {
            return Err(CheckFault::NotATrace { line });
        };
        done.push(entry)?;
        left -= text.len() + 1;
        line += 1;
        rest = after;
    }
    Err(CheckFault::NotATrace { line })
}

/// The entries of the history whose text these bytes are: lines in the grammar of a trace, each of at most 1,048,576
/// bytes without its line feed, and the totals, in at most 67,108,864 bytes. `NotATrace` comes exactly where they are
/// none, with the line at which the first fault stands, counted from `first_line`.
pub fn read_trace(
    alloc: Global,
    script: &Script,
    bytes: &[u8],
    first_line: u32,
) -> Result<Entries, CheckFault>
    requires sound { IsSoundScript script.now }
    requires some { 1 ≤ first_line }
    requires first { first_line < 2 ^ 31 }
    ensures gives { spec.Gives result (spec.read_of script.now bytes.now first_line) }
    // What is read is the history whose text the bytes are, and each such history is read.
    ensures ok { IfOk result (spec.IsTraceOf script.now bytes.now) }
    ensures only { (history : List EntryValue) → spec.IsTraceOf script.now bytes.now history → (result ≡ Ok history)
        ⊎ (result ≡ Err CheckFault.Memory) }
{
    read(alloc, script, bytes, first_line)
}
