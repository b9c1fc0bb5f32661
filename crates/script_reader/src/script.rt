//! The script, line after line.

ghost use Rattle.std.specs.Prelude.{◌≡◌, ◌⊎◌, ◌+◌, ◌<◌, ◌≤◌, ◌==◌, ℕ, IfOk, IfErr, Ok, Err, true, false, length, count_by};
ghost use Rattle.std.specs.Str.Lossy.{utf8_valid_len};
ghost use Rattle.pico_base.specs.declared.script.Script.{Script as ScriptValue};
ghost use Rattle.script_reader.specs.declared.fault.ScriptFault.{ScriptFault as FaultValue};
ghost use Rattle.kernel_model.specs.Script.{IsSoundScript};
ghost use Rattle.script_reader.specs.Words.{lines_of};
ghost use Rattle.script_reader.specs.Says.{names_of};
ghost use Rattle.script_reader.specs.Fault as spec;

use crate::checks::fault_of;
use crate::fault::{ScriptFault, ScriptStop};
use crate::place::Place;
use crate::says::{Said, opening, read_line};
use crate::tables::Names;
use crate::words::marked_line;
use pico_base::{Blocks, Memory, Script};
use std::alloc::Global;

/// The longest script, in bytes.
pub const MAX_BYTES: usize = 1_048_576;

/// The names in the lines `proc NAME`, each once, in the order of their first lines.
pub fn block_names(alloc: Global, text: &[u8]) -> Result<Names, Memory>
    ensures { IfOk result (λ names. names ≡ names_of (lines_of text.now)) }
{
    let mut names = Names::new(alloc);
    let mut rest = text;
    while let Some((bytes, after, _)) = marked_line(rest) {
        if let Some(name) = opening(bytes) {
            names.mention(alloc, name)?;
        }
        rest = after;
    }
    Ok(names)
}

/// The blocks where the input ends, behind the line before this one. None may be open, and one has to be there.
pub fn ending(place: Place, number: u32) -> Result<Blocks, ScriptStop>
    ensures { spec.GivesBlocks result (spec.ending place number) }
{
    if place.inside {
        return Err(ScriptStop::At {
            line: number,
            fault: ScriptFault::NoEnd,
        });
    }
    if place.blocks.len() == 0 {
        return Err(ScriptStop::At {
            line: 1,
            fault: ScriptFault::NoProc,
        });
    }
    Ok(place.blocks)
}

/// The blocks of a text in which the blocks have these names. It stands apart where it is compiled, since its loop
/// needs all registers.
#[inline(never)]
fn blocks_with(alloc: Global, names: &Names, text: &[u8]) -> Result<Blocks, ScriptStop>
    requires { length text.now ≤ 1048576 }
    ensures { spec.GivesBlocks result
        (spec.blocks_from names.now (spec.start (length names.now)) 1 (lines_of text.now)) }
{
    let mut place = Place::new(alloc, names.len())?;
    let mut words = Vec::new(alloc);
    let mut rest = text;
    let mut number: u32 = 1;
    while let Some((bytes, after, stops)) = marked_line(rest) {
        let mut said = Said::Skipped;
        read_line(alloc, names, &mut words, bytes, stops, &mut said)?;
        if let Some(fault) = fault_of(&place, bytes.len(), &said) {
            return Err(ScriptStop::At {
                line: number,
                fault,
            });
        }
        place.go_behind(alloc, said)?;
        rest = after;
        number += 1;
    }
    ending(place, number)
}

/// How many line feeds there are.
fn line_feeds(bytes: &[u8]) -> u32
    requires { length bytes.now ≤ 16777216 }
    ensures value { result ≡ count_by (λ b. b == 10) bytes.now }
    ensures small { result ≤ 16777216 }
{
    bytes.iter().filter(|b| **b == b'\n').count() as u32
}

/// The number of the line that the byte behind so many stands in. Lines are counted from 1.
pub fn line_of_byte(count: usize, bytes: &[u8]) -> u32
    requires small { count ≤ 16777216 }
    requires within { count ≤ length bytes.now }
    ensures { result ≡ spec.line_behind count bytes.now }
{
    1 + line_feeds(&bytes[..count])
}

/// A fault at the line of the byte behind so many.
fn at_byte(count: usize, bytes: &[u8], fault: ScriptFault) -> ScriptStop
    requires small { count ≤ 1048576 }
    requires within { count ≤ length bytes.now }
    ensures { result ≡ ScriptStop.At (spec.line_behind count bytes.now) fault }
{
    ScriptStop::At {
        line: line_of_byte(count, bytes),
        fault,
    }
}

/// A script of at most 1,048,576 bytes.
#[tactic(auto, unfolding(crate::specs::Fault::blocks_of))]
fn short_script(alloc: Global, bytes: &[u8]) -> Result<Script, ScriptStop>
    requires { length bytes.now ≤ 1048576 }
    ensures { spec.Gives result (spec.script_from (spec.blocks_of (lines_of bytes.now))) }
{
    let names = block_names(alloc, bytes)?;
    let blocks = blocks_with(alloc, &names, bytes)?;
    Ok(Script { blocks })
}

/// How many bytes stand before the first one that isn't part of a character, in UTF-8; all, where there is none.
pub fn valid_len(bytes: &[u8]) -> usize
    ensures { result ≡ utf8_valid_len bytes.now }
{
    match std::str::from_utf8(bytes) {
        Ok(_) => bytes.len(),
        Err(fault) => fault.valid_up_to(),
    }
}

/// The outcome of the whole text.
#[tactic(auto, unfolding(crate::specs::Fault::outcome))]
fn read(alloc: Global, bytes: &[u8]) -> Result<Script, ScriptStop>
    ensures { spec.Gives result (spec.outcome bytes.now) }
{
    if bytes.len() > MAX_BYTES {
        return Err(at_byte(MAX_BYTES, bytes, ScriptFault::ScriptTooLong));
    }
    let valid = valid_len(bytes);
    if valid < bytes.len() {
        return Err(at_byte(valid, bytes, ScriptFault::NotUtf8));
    }
    short_script(alloc, bytes)
}

/// The script that the bytes are the text of.
///
/// A fault is the first one: of the smallest line, and on one line the one that stands first in `ScriptFault`. Before
/// all others come `ScriptTooLong`, at the line of the first byte past 1,048,576, and then `NotUtf8`, at the line of
/// the first byte that isn't part of a character. A block that isn't ended where the input ends is `NoEnd` at the
/// number of lines plus 1, and a text without words `NoProc` at line 1.
pub fn read_script(alloc: Global, bytes: &[u8]) -> Result<Script, ScriptStop>
    // The bytes are the text of what is read.
    ensures ok { IfOk result (spec.Reads bytes.now) }
    ensures sound { IfOk result IsSoundScript }
    // A fault is the first one.
    ensures fault { IfErr result (spec.HasFault bytes.now) }
    // A text of a script is read, and one with a fault is refused for it, unless memory runs out.
    ensures only { (script : ScriptValue) → spec.Reads bytes.now script → (result ≡ Ok script)
        ⊎ (result ≡ Err ScriptStop.Memory) }
    ensures only_fault { (line : ℕ) (fault : FaultValue) → spec.IsFirstFault bytes.now line fault
        → (result ≡ Err (ScriptStop.At line fault)) ⊎ (result ≡ Err ScriptStop.Memory) }
{
    read(alloc, bytes)
}
