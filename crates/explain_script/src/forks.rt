//! Faults of forks.
ghost use Rattle.std.specs.Prelude.{◌≡◌, IfOk};

use crate::reading::{fork_before, forked_by, line_naming, named_by};
use crate::refused::Cause;
use explain_base::{Fault, Finding, Line, Lines, Nearest, Page, Text, Word, Wrong};
use explain_calls::Told;
use std::alloc::{AllocError, Global};

// How many names are kept: one more than is told at most.
const NAMES: usize = 9;

// The names that lines `proc` have, each once, in the order of their lines; one more than is told at most.
fn names<'a>(alloc: Global, script: &'a [u8]) -> Result<Vec<&'a [u8]>, AllocError> {
    let mut names: Vec<&'a [u8]> = Vec::new(alloc);
    for line in Lines::of(script) {
        if let Some(name) = named_by(line)
            && names.len() < NAMES
            && !names.iter().any(|it| *it == name)
        {
            names.push(name)?;
        }
    }
    Ok(names)
}

// The nearest of all names of blocks.
fn nearest_name<'a>(script: &'a [u8], word: &'a [u8]) -> Option<&'a [u8]> {
    let mut nearest = Nearest::to(word);
    for line in Lines::of(script) {
        if let Some(name) = named_by(line) {
            nearest.offer(name);
        }
    }
    nearest.found()
}

/// A fork of a block that isn't there.
pub fn unknown_proc<'a>(
    alloc: Global,
    cause: Cause<'a>,
    name: Word<'a>,
) -> Result<Finding<'a>, AllocError>
    ensures { IfOk result (λ finding. finding.number ≡ Some cause.entry.line.number) }
{
    let near = nearest_name(cause.script, name.text);
    let expected = match near {
        Some(near) => Text::whole_in("did you mean ", near, "?"),
        None => Text::plain("one of "),
    };
    let what = Text::said_in("no block is named ", name.text, "");
    let fault = Wrong::new(what, expected, name.span()).fault("fork NAME", Page::Blocks);
    let mut finding = Finding::at(alloc, cause.line, fault, None);
    if near.is_none() {
        finding.names = names(alloc, cause.script)?;
    }
    Ok(finding)
}

/// A second fork of a block.
pub fn forked_twice<'a>(cause: Cause<'a>, name: Word<'a>) -> Told<'a> {
    let what = Text::said_in("the block ", name.text, " is forked a second time");
    let wrong = Wrong::new(what, Text::plain("one fork for each block"), name.span());
    let before = fork_before(cause.script, name.text, cause.line.number, false);
    Told::beside(
        wrong.fault("fork NAME", Page::Blocks),
        before,
        "forks it first",
    )
}

// The first line behind one of this number that forks this block.
fn fork_behind<'a>(script: &'a [u8], name: &[u8], number: usize) -> Option<Line<'a>> {
    for line in Lines::of(script) {
        if line.number > number && !name.is_empty() && forked_by(line) == name {
            return Some(line);
        }
    }
    None
}

/// A block that no line above forks.
pub fn never_forked<'a>(cause: Cause<'a>, name: Word<'a>) -> Told<'a> {
    let what = Text::said_in("no line above forks the block ", name.text, "");
    let expected = Text::whole_in("a line `fork ", name.text, "` in a block above");
    let fault = Fault::new(what, expected, name.span(), Page::Blocks);
    let later = fork_behind(cause.script, name.text, cause.line.number);
    Told::beside(fault, later, "forks it, and stands below it")
}

/// A fork of a block that doesn't begin below.
pub fn fork_backwards<'a>(cause: Cause<'a>, name: Word<'a>) -> Told<'a> {
    let is_own = match cause.reading.block {
        Some(block) => block.name == name.text,
        None => false,
    };
    let what = if is_own {
        Text::plain("a block can't fork itself")
    } else {
        Text::said_in("the block ", name.text, " stands above this one")
    };
    let wrong = Wrong::new(what, Text::plain("a block that begins below"), name.span());
    let first = line_naming(cause.script, name.text);
    Told::beside(wrong.fault("fork NAME", Page::Blocks), first, "")
}
