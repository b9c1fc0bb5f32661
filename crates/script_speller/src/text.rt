//! The text of a script.
ghost use Rattle.std.specs.Prelude.{◌≡◌, ◌≤◌, ℕ, List, [], ◌∷◌, ◌++◌, length, codes, IfOk, OnOk};
ghost use Rattle.std.specs.List.{flat_map};
ghost use Rattle.script_reader.specs.Fault.{Reads};
ghost use Rattle.script_speller.specs.Spelling as spec;

use crate::calls::push_call;
use crate::words::push_variable;
use pico_base::{Block, Bytes, Line, Memory, Script, Var};
use std::alloc::Global;
use trace_text::{push, push_byte, push_number};

fn push_set_front(out: &mut Vec<u8>, set: Option<Var>) -> Result<(), Memory>
    ensures { OnOk result (out.new.items ≡ out.old.items ++ spec.set_front set) }
{
    if let Some(variable) = set {
        push_variable(out, variable)?;
        push(out, b" = ")?;
    }
    Ok(())
}

fn push_tries_front(out: &mut Vec<u8>, tries: u32) -> Result<(), Memory>
    ensures { OnOk result (out.new.items ≡ out.old.items ++ spec.tries_front tries) }
{
    if tries != 1 {
        push(out, b"try ")?;
        push_number(out, u64::from(tries))?;
        push_byte(out, b' ')?;
    }
    Ok(())
}

#[tactic(auto, unfolding(crate::specs::Spelling::line_text))]
fn push_line(out: &mut Vec<u8>, script: &Script, line: &Line) -> Result<(), Memory>
    ensures { OnOk result (out.new.items ≡ out.old.items ++ spec.line_text script.now line.now) }
{
    push_set_front(out, line.set)?;
    push_tries_front(out, line.tries)?;
    push_call(out, script, line.from, &line.call)
}

/// Adds lines, each behind a line feed.
fn push_lines(out: &mut Vec<u8>, script: &Script, lines: &[Line]) -> Result<(), Memory>
    ensures { OnOk result (out.new.items ≡ out.old.items
        ++ flat_map (spec.behind_feed script.now) lines.now) }
{
    for line in lines {
        push_byte(out, b'\n')?;
        push_line(out, script, line)?;
    }
    Ok(())
}

#[tactic(auto, unfolding(crate::specs::Spelling::block_text))]
fn push_block(out: &mut Vec<u8>, script: &Script, block: &Block) -> Result<(), Memory>
    ensures { OnOk result (out.new.items ≡ out.old.items ++ spec.block_text script.now block.now) }
{
    push(out, b"proc ")?;
    push(out, block.name.as_slice())?;
    push_lines(out, script, block.lines.as_slice())?;
    push(out, b"\nend")
}

/// Adds blocks, each behind a line feed.
fn push_further(out: &mut Vec<u8>, script: &Script, blocks: &[Block]) -> Result<(), Memory>
    ensures { OnOk result (out.new.items ≡ out.old.items
        ++ flat_map (spec.block_behind script.now) blocks.now) }
{
    for block in blocks {
        push_byte(out, b'\n')?;
        push_block(out, script, block)?;
    }
    Ok(())
}

fn push_blocks(out: &mut Vec<u8>, script: &Script, blocks: &[Block]) -> Result<(), Memory>
    ensures { OnOk result (out.new.items ≡ out.old.items
        ++ spec.blocks_text script.now blocks.now) }
{
    match blocks {
        [] => Ok(()),
        [first, rest @ ..] => {
            push_block(out, script, first)?;
            push_further(out, script, rest)
        }
    }
}

/// A text that reads as this script, where some text does. It is the script's spelling, and none of the script's texts
/// is shorter: so it is within the limits of lines and of scripts where some text is. It comes unless memory runs out.
pub fn script_text(alloc: Global, script: &Script) -> Result<Bytes, Memory>
    requires { (bytes : List ℕ) × Reads bytes script.now }
    // What is given reads as the script.
    ensures again { IfOk result (λ text. Reads text script.now) }
    // No text of the script is shorter.
    ensures shortest { IfOk result (λ text. (bytes : List ℕ) → Reads bytes script.now → length text ≤ length bytes) }
    // Which text it is.
    ensures spelling { IfOk result (λ text. text ≡ spec.spelling script.now) }
{
    let mut out = Vec::new(alloc);
    push_blocks(&mut out, script, script.blocks.as_slice())?;
    Ok(Bytes::from_vec(out))
}
