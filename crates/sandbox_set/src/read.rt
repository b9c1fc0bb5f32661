//! Sandboxes, one after the other.

ghost use Rattle.std.specs.Prelude.{◌≡◌, ◌⊎◌, ◌+◌, ◌<◌, ◌≤◌, ℕ, false, List, Some, None, IfOk, IfErr, Ok, Err, length};
ghost use Rattle.script_reader.specs.Fault.{line_behind};
ghost use Rattle.script_reader.specs.Words.{lines_of};
ghost use Rattle.sandbox_set.specs.declared.fault.BoxFault.{BoxFault as FaultValue};
ghost use Rattle.sandbox_set.specs.declared.read.Sandbox.{Sandbox as BoxValue};
ghost use Rattle.sandbox_set.specs.Boxes as spec;
ghost use Rattle.kernel_model.specs.Script.{IsSoundScript};
ghost use Rattle.sandbox_set.specs.Parts as parts;
ghost use Rattle.sandbox_set.specs.Sound.{AreSound, IsFresh};

use crate::fault::{BoxFault, BoxStop};
use crate::heading::name_in;
use crate::part::{Part, is_skipped, is_wordless, nodes_with};
use pico_base::{Bytes, Script, Sequence};
use script_reader::{
    MAX_BYTES, ScriptFault, ScriptStop, line_of_byte, next_line, read_script, valid_len,
};
use std::alloc::Global;

/// The most sandboxes of an input.
const MAX_SANDBOXES: usize = 8;

/// A name of its own, and what its processes do.
#[derive(Debug, PartialEq, Eq, Drop)]
pub struct Sandbox {
    pub name: Bytes,
    pub script: Script,
}

/// Sandboxes, in the order in which they stand in the input: 1 to 8 of them, with at most 32 blocks in all.
pub type Boxes = Sequence<Sandbox>;

/// A fault and its line.
#[derive(Clone, Copy)]
struct Found {
    line: u32,
    fault: BoxFault,
}

impl Found {
    fn stop(self) -> BoxStop
        ensures { result ≡ BoxStop.At self.line self.fault }
    {
        BoxStop::At {
            line: self.line,
            fault: self.fault,
        }
    }
}

/// A sandbox's lines in the whole input.
#[derive(Clone, Copy)]
struct Within<'a> {
    /// The number of the line `sandbox NAME`.
    number: u32,
    /// The lines behind it.
    part: Part<'a>,
}

/// The line of a script's fault in the whole input. A script without a word has its fault where it ends.
fn fault_line(within: &Within, line: u32, fault: ScriptFault) -> u32
    requires within { parts.IsWithin within.now.number within.now.part.lines within.now.part.script.now }
    requires line { line ≤ within.now.part.lines + 1 }
    ensures { result ≡ spec.fault_line within.now.number (lines_of within.now.part.script.now) line fault }
{
    if matches!(fault, ScriptFault::NoProc) && is_wordless(within.part.script) {
        within.number + within.part.lines + 1
    } else {
        within.number + line
    }
}

/// The script of a sandbox, or its first fault.
fn script_in(alloc: Global, within: &Within) -> Result<Script, BoxStop>
    requires { parts.IsWithin within.now.number within.now.part.lines within.now.part.script.now }
    ensures gives { spec.Gives result
        (parts.script_from (spec.read_behind within.now.number (lines_of within.now.part.script.now))) }
    ensures sound { IfOk result IsSoundScript }
{
    match read_script(alloc, within.part.script) {
        Ok(script) => Ok(script),
        Err(ScriptStop::Memory) => Err(BoxStop::Memory),
        Err(ScriptStop::At { line, fault }) => Err(BoxStop::At {
            line: fault_line(within, line, fault),
            fault: BoxFault::Script(fault),
        }),
    }
}

/// What stops the reading of a sandbox that has this fault besides those of its script: the first fault. On one line
/// a script's fault comes last.
fn first_stop(alloc: Global, within: &Within, found: Found) -> BoxStop
    requires { parts.IsWithin within.now.number within.now.part.lines within.now.part.script.now }
    ensures { spec.Stops result (parts.first_of found.line found.fault
        (parts.script_from (spec.read_behind within.now.number (lines_of within.now.part.script.now)))) }
{
    match script_in(alloc, within) {
        Err(BoxStop::Memory) => BoxStop::Memory,
        Err(BoxStop::At { line, fault }) if line < found.line => BoxStop::At { line, fault },
        _ => found.stop(),
    }
}

/// What an ended sandbox leaves: how many nodes there are so far, and the bytes behind its line `endsandbox`.
#[derive(Clone, Copy)]
struct Ended<'a> {
    nodes: u32,
    rest: &'a [u8],
}

/// What a sandbox behind so many nodes leaves, or its fault that isn't its script's.
fn end_of<'a>(within: &Within<'a>, nodes: u32) -> Result<Ended<'a>, Found>
    requires few { nodes ≤ 32 }
    requires within { parts.IsWithin within.now.number within.now.part.lines within.now.part.script.now }
    ensures nodes { IfOk result (λ b. parts.nodes_with nodes (lines_of within.now.part.script.now) ≡ Ok b.nodes) }
    ensures few { IfOk result (λ b. b.nodes ≤ 32) }
    ensures rest { IfOk result (λ b. parts.Closes within.now.part.behind.now b.rest.now) }
    ensures fault { IfErr result (λ f. parts.own_end (within.now.number + 1)
        (parts.nodes_with nodes (lines_of within.now.part.script.now)) within.now.part.lines
        (parts.is_closed (lines_of within.now.part.behind.now)) ≡ Some (f.line, f.fault)) }
{
    match nodes_with(nodes, within.part.script) {
        Err(lines) => Err(Found {
            line: within.number + 1 + lines,
            fault: BoxFault::TooManyNodes,
        }),
        Ok(nodes) => match within.part.rest() {
            Some(rest) => Ok(Ended { nodes, rest }),
            None => Err(Found {
                line: within.number + 1 + within.part.lines,
                fault: BoxFault::NoEndSandbox,
            }),
        },
    }
}

/// Whether one of the sandboxes has the name.
fn has_name(boxes: &[Sandbox], name: &[u8]) -> bool
    ensures { result ≡ spec.has_name name.now boxes.now }
{
    boxes.iter().any(|sandbox| sandbox.name.as_slice() == name)
}

/// The name of the sandbox that a line with words begins behind these, or the line's fault.
fn begun<'a>(boxes: &[Sandbox], line: &'a [u8]) -> Result<&'a [u8], BoxFault>
    requires { spec.is_skipped line.now ≡ false }
    ensures name { IfOk result (λ name. spec.name_in line.now ≡ Some name.now) }
    ensures fresh { IfOk result (λ name. IsFresh name.now boxes.now) }
    ensures none { IfOk result (λ _. (nodes : ℕ) → spec.own_fault (spec.outside boxes.now nodes) line.now ≡ None) }
    ensures fault { IfErr result (λ fault. (nodes : ℕ)
        → spec.own_fault (spec.outside boxes.now nodes) line.now ≡ Some fault) }
{
    let Some(name) = name_in(line) else {
        return Err(BoxFault::NoSandbox);
    };
    if has_name(boxes, name) {
        return Err(BoxFault::SandboxTwice);
    }
    if boxes.len() >= MAX_SANDBOXES {
        return Err(BoxFault::TooManySandboxes);
    }
    Ok(name)
}

/// Where reading stands between two lines outside a sandbox.
#[derive(Drop)]
struct Reading {
    boxes: Boxes,
    /// How many lines so far are headed by `proc`.
    nodes: u32,
    /// The number of the next line.
    number: u32,
}

impl Reading {
    /// Goes behind the sandbox of this name, whose line `sandbox NAME` is the next one, and gives what follows it.
    fn read_sandbox<'a>(
        &mut self,
        alloc: Global,
        name: &[u8],
        after: &'a [u8],
    ) -> Result<&'a [u8], BoxStop>
        requires stands { parts.Stands self.old.nodes (self.old.number + 1) after.now }
        requires sound { AreSound self.old.nodes self.old.boxes }
        requires fresh { IsFresh name.now self.old.boxes }
        ensures ok { IfOk result (λ rest. parts.from_here self.new.boxes self.new.nodes self.new.number rest.now
            ≡ parts.from_inside self.old.boxes self.old.nodes name.now self.old.number after.now) }
        ensures stands { IfOk result (λ rest. parts.Stands self.new.nodes self.new.number rest.now) }
        ensures sound { IfOk result (λ _. AreSound self.new.nodes self.new.boxes) }
        ensures shorter { IfOk result (λ rest. length rest.now ≤ length after.now) }
        ensures fault { IfErr result (λ stop. spec.Stops stop
            (parts.from_inside self.old.boxes self.old.nodes name.now self.old.number after.now)) }
    {
        let within = Within {
            number: self.number,
            part: Part::of(after),
        };
        match end_of(&within, self.nodes) {
            Err(found) => Err(first_stop(alloc, &within, found)),
            Ok(ended) => {
                let script = script_in(alloc, &within)?;
                let name = Bytes::from_slice(alloc, name)?;
                self.boxes.push(Sandbox { name, script })?;
                self.nodes = ended.nodes;
                self.number += within.part.lines + 2;
                Ok(ended.rest)
            }
        }
    }

    /// Goes behind this line, and behind the sandbox that it begins, and gives what follows.
    fn read_line<'a>(
        &mut self,
        alloc: Global,
        line: &[u8],
        after: &'a [u8],
    ) -> Result<&'a [u8], BoxStop>
        requires stands { parts.Stands self.old.nodes (self.old.number + 1) after.now }
        requires sound { AreSound self.old.nodes self.old.boxes }
        ensures ok { IfOk result (λ rest. parts.from_here self.new.boxes self.new.nodes self.new.number rest.now
            ≡ parts.from_line self.old.boxes self.old.nodes self.old.number line.now after.now) }
        ensures stands { IfOk result (λ rest. parts.Stands self.new.nodes self.new.number rest.now) }
        ensures sound { IfOk result (λ _. AreSound self.new.nodes self.new.boxes) }
        ensures shorter { IfOk result (λ rest. length rest.now ≤ length after.now) }
        ensures fault { IfErr result (λ stop. spec.Stops stop
            (parts.from_line self.old.boxes self.old.nodes self.old.number line.now after.now)) }
    {
        if is_skipped(line) {
            self.number += 1;
            return Ok(after);
        }
        match begun(self.boxes.as_slice(), line) {
            Ok(name) => self.read_sandbox(alloc, name, after),
            Err(fault) => Err(BoxStop::At {
                line: self.number,
                fault,
            }),
        }
    }
}

/// The sandboxes of an input of at most 1,048,576 bytes that is UTF-8.
#[tactic(auto, unfolding(crate::specs::Boxes::boxes_of))]
fn short_boxes(alloc: Global, bytes: &[u8]) -> Result<Boxes, BoxStop>
    requires short { length bytes.now ≤ 1048576 }
    requires text { parts.IsText bytes.now }
    ensures gives { spec.Gives result (spec.boxes_of (lines_of bytes.now)) }
    ensures sound { IfOk result (AreSound 32) }
    ensures some { IfOk result (λ boxes. 0 < length boxes) }
{
    let mut reading = Reading {
        boxes: Sequence::new(alloc),
        nodes: 0,
        number: 1,
    };
    let mut rest = bytes;
    while let Some((line, after)) = next_line(rest) {
        rest = reading.read_line(alloc, line, after)?;
    }
    if reading.boxes.len() == 0 {
        return Err(BoxStop::At {
            line: 1,
            fault: BoxFault::NoSandbox,
        });
    }
    Ok(reading.boxes)
}

/// A fault of the whole input at the line of the byte behind so many.
fn at_byte(count: usize, bytes: &[u8], fault: ScriptFault) -> BoxStop
    requires small { count ≤ 1048576 }
    requires within { count ≤ length bytes.now }
    ensures { result ≡ BoxStop.At (line_behind count bytes.now) (BoxFault.Script fault) }
{
    BoxStop::At {
        line: line_of_byte(count, bytes),
        fault: BoxFault::Script(fault),
    }
}

/// The outcome of the whole input.
#[tactic(auto, unfolding(crate::specs::Boxes::outcome))]
fn read(alloc: Global, bytes: &[u8]) -> Result<Boxes, BoxStop>
    ensures gives { spec.Gives result (spec.outcome bytes.now) }
    ensures sound { IfOk result (AreSound 32) }
    ensures some { IfOk result (λ boxes. 0 < length boxes) }
{
    if bytes.len() > MAX_BYTES {
        return Err(at_byte(MAX_BYTES, bytes, ScriptFault::ScriptTooLong));
    }
    let valid = valid_len(bytes);
    if valid < bytes.len() {
        return Err(at_byte(valid, bytes, ScriptFault::NotUtf8));
    }
    short_boxes(alloc, bytes)
}

/// The sandboxes that the bytes are the text of: for each a line `sandbox NAME`, the lines of its script, and a line
/// `endsandbox`, with lines without words and comments anywhere.
///
/// A fault is the first one: of the smallest line, and on one line the one that stands first in `BoxFault`, but a
/// script's last. Lines count over the whole input. Before all others come `ScriptTooLong`, at the line of the first
/// byte past 1,048,576, and then `NotUtf8`, at the line of the first byte that isn't part of a character. A script's
/// missing `end` is told at the line `endsandbox`, and so is a sandbox without a block, as `NoProc`. A sandbox that is
/// broken off has the lines before that place as its script.
pub fn read_boxes(alloc: Global, bytes: &[u8]) -> Result<Boxes, BoxStop>
    // The bytes are the text of what is read.
    ensures ok { IfOk result (spec.Reads bytes.now) }
    // At least one and at most 8, with names of their own, sound scripts and at most 32 blocks in all.
    ensures sound { IfOk result (AreSound 32) }
    ensures some { IfOk result (λ boxes. 0 < length boxes) }
    // A fault is the first one.
    ensures fault { IfErr result (spec.HasFault bytes.now) }
    // A text of sandboxes is read, and one with a fault is refused for it, unless memory runs out.
    ensures only { (boxes : List BoxValue) → spec.Reads bytes.now boxes → (result ≡ Ok boxes)
        ⊎ (result ≡ Err BoxStop.Memory) }
    ensures only_fault { (line : ℕ) (fault : FaultValue) → spec.IsFirstFault bytes.now line fault
        → (result ≡ Err (BoxStop.At line fault)) ⊎ (result ≡ Err BoxStop.Memory) }
{
    read(alloc, bytes)
}
