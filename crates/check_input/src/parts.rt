//! The parts of what `check` reads.
ghost use Rattle.std.specs.Prelude.{◌≡◌, ◌≤◌, ◌+◌, length, IfOk};
ghost use Rattle.kernel_model.specs.Script.{IsSoundScript};
ghost use Rattle.script_reader.specs.Fault.{Gives};
ghost use Rattle.check_input.specs.Parts as spec;

use pico_base::Script;
use script_reader::{MAX_LINE, ScriptFault, ScriptStop, next_line, next_word, read_script};
use std::alloc::Global;

/// A text cut at its first line whose only word is `trace`.
#[derive(Clone, Copy)]
pub struct Parts<'a> {
    /// The lines before it; all lines where there is none.
    pub script: &'a [u8],
    /// Its length in bytes, without its line feed.
    pub marker: Option<usize>,
    /// The bytes behind it.
    pub trace: &'a [u8],
    /// The number of the line behind it, at least 1; the number of lines plus 1 where there is none.
    pub first_line: u32,
}

/// Whether the line's only word is `trace`.
#[tactic(auto, unfolding(crate::specs::Parts::is_marker))]
fn is_marker(line: &[u8]) -> bool
    ensures { result ≡ spec.is_marker line.now }
{
    match next_word(line) {
        Some((word, rest)) => word == b"trace".as_slice() && next_word(rest).is_none(),
        None => false,
    }
}

/// What was read of a script whose line `trace`, of this number, is too long.
fn with_long_marker(line: u32, read: Result<Script, ScriptStop>) -> Result<Script, ScriptStop>
    ensures { result ≡ spec.with_long_marker line read }
{
    match read {
        Err(ScriptStop::Memory) => Err(ScriptStop::Memory),
        Err(ScriptStop::At { line: at, fault }) if at < line => {
            Err(ScriptStop::At { line: at, fault })
        }
        _ => Err(ScriptStop::At {
            line,
            fault: ScriptFault::LineTooLong,
        }),
    }
}

impl<'a> Parts<'a> {
    /// The parts of a text.
    pub fn of(bytes: &'a [u8]) -> Parts<'a>
        requires { length bytes.now ≤ 2147483646 }
        ensures script { result.script.now ≡ spec.script_of bytes.now }
        ensures marker { result.marker ≡ spec.marker_length bytes.now }
        ensures trace { result.trace.now ≡ spec.trace_of bytes.now }
        ensures first_line { result.first_line ≡ spec.first_line_of bytes.now }
        ensures some { 1 ≤ result.first_line }
        ensures small { result.first_line ≤ length bytes.now + 2 }
    {
        let mut rest = bytes;
        let mut size: usize = 0;
        let mut before: u32 = 0;
        while let Some((line, after)) = next_line(rest) {
            if is_marker(line) {
                return Parts {
                    script: &bytes[..size],
                    marker: Some(line.len()),
                    trace: after,
                    first_line: before + 2,
                };
            }
            size += line.len() + 1;
            before += 1;
            rest = after;
        }
        Parts {
            script: bytes,
            marker: None,
            trace: &bytes[bytes.len()..],
            first_line: before + 1,
        }
    }
}

/// The script that a text begins with, or its first fault with its line. The line `trace` may have at most 4,096 bytes,
/// as a line of the script: else it has the fault `LineTooLong`, which comes after those of earlier lines and before
/// another one of its own.
pub fn read_checked(alloc: Global, parts: &Parts) -> Result<Script, ScriptStop>
    requires { 1 ≤ parts.now.first_line }
    ensures gives { Gives result (spec.script_with parts.now.marker parts.now.first_line parts.now.script.now) }
    ensures sound { IfOk result IsSoundScript }
{
    let read = read_script(alloc, parts.script);
    match parts.marker {
        Some(size) if size > MAX_LINE => with_long_marker(parts.first_line - 1, read),
        _ => read,
    }
}
