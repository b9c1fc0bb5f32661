//! A use of a variable that nothing has set.
ghost use Rattle.std.specs.Prelude.{◌≡◌, IfOk};

use crate::reading::{Block, first_word, fork_before};
use crate::refused::Cause;
use explain_base::{Fault, Finding, Line, Lines, Other, Page, Piece, Text, Word, Words};
use explain_calls::{Call, Told, other, plain_wrong, text_at};
use std::alloc::{AllocError, Global};

// The most blocks of a script, and so the most that begin with what another had set.
const MAX_BLOCKS: usize = 32;

// The variable that a line sets.
fn set_by(line: Line<'_>) -> Option<&[u8]> {
    Some(Call::of(Words::of(line.text)).sets?.text)
}

// Adds a name, where it isn't there yet.
fn add<'a>(names: &mut Vec<&'a [u8]>, name: &'a [u8]) -> Result<(), AllocError> {
    if !names.iter().any(|it| *it == name) {
        names.push(name)?;
    }
    Ok(())
}

// The block in which a line stands: the line of its `proc`.
fn block_of<'a>(script: &'a [u8], number: usize) -> Option<Line<'a>> {
    let mut found = None;
    for line in Lines::of(script) {
        if line.number >= number {
            break;
        }
        if first_word(line) == b"proc".as_slice() {
            found = Some(line);
        }
    }
    found
}

// Adds what lines set from one of them to before another.
fn add_set_between<'a>(
    script: &'a [u8],
    from: usize,
    to: usize,
    names: &mut Vec<&'a [u8]>,
) -> Result<(), AllocError> {
    for line in Lines::of(script) {
        if line.number > from
            && line.number < to
            && !first_word(line).starts_with(b"#")
            && let Some(name) = set_by(line)
        {
            add(names, name)?;
        }
    }
    Ok(())
}

// The variables that are set before a line, in its block and in those that it comes from, in order.
fn known<'a>(alloc: Global, script: &'a [u8], number: usize) -> Result<Vec<&'a [u8]>, AllocError> {
    let mut names: Vec<&'a [u8]> = Vec::new(alloc);
    let mut to = number;
    for _ in 0..MAX_BLOCKS {
        let Some(begin) = block_of(script, to) else {
            break;
        };
        add_set_between(script, begin.number, to, &mut names)?;
        let name = text_at(Words::of(begin.text), 1);
        let Some(fork) = fork_before(script, name, begin.number, true) else {
            break;
        };
        to = fork.number.saturating_add(1);
    }
    names.sort()?;
    Ok(names)
}

// The first line that sets a variable, if it isn't the line itself.
fn elsewhere<'a>(cause: Cause<'a>, name: &[u8]) -> Option<Line<'a>> {
    for line in Lines::of(cause.script) {
        if set_by(line) == Some(name) {
            return if line.number == cause.line.number {
                None
            } else {
                Some(line)
            };
        }
    }
    None
}

// Why a line that sets the variable doesn't count for one of a block that begins behind it.
fn why_not<'a>(fork: Option<Line<'a>>, line: Line<'a>) -> Text<'a> {
    match fork {
        Some(fork) if fork.number < line.number => Text::three(
            Piece::plain("sets it, behind line "),
            Piece::number(fork.number),
            Piece::plain(
                ", which forks this block; a child begins with what was set before its fork",
            ),
        ),
        _ => Text::plain("sets it, in another block"),
    }
}

// Why a line that sets the variable doesn't count in a block.
fn why_not_in<'a>(cause: Cause<'a>, block: Block<'a>, line: Line<'a>) -> Text<'a> {
    if line.number >= block.line.number {
        return Text::plain("sets it, and stands below");
    }
    let fork = fork_before(cause.script, block.name, cause.line.number, false);
    why_not(fork, line)
}

// A line that sets the variable where that doesn't count, and why it doesn't.
fn set_elsewhere<'a>(cause: Cause<'a>, line: Line<'a>) -> Other<'a> {
    match cause.reading.block {
        Some(block) => other(line, why_not_in(cause, block, line)),
        None => other(line, Text::none()),
    }
}

/// A use of a variable that nothing has set.
pub fn unset_variable<'a>(alloc: Global, cause: Cause<'a>) -> Result<Finding<'a>, AllocError>
    ensures { IfOk result (λ finding. finding.number ≡ Some cause.entry.line.number) }
{
    let call = Call::of(cause.words());
    match call.used() {
        Some(word) if cause.reading.block.is_some() => unset(alloc, cause, call, word),
        _ => Ok(Finding::at(alloc, cause.line, unset_somewhere(cause), None)),
    }
}

// Which variable isn't set was not found.
fn unset_somewhere(cause: Cause<'_>) -> Fault<'_> {
    let what = "a variable that isn't set";
    let expected = "a line before this one sets it";
    plain_wrong(what, expected, cause.all_words()).fault("", Page::CallLines)
}

// The name of a variable without its `$`.
fn name_of<'a>(text: &'a [u8]) -> &'a [u8] {
    match text {
        [_, name @ ..] => name,
        [] => &[],
    }
}

// What is told of the variable, where some that are set are told behind it, or none.
fn told_of<'a>(cause: Cause<'a>, word: Word<'a>, sets_itself: bool, are_some: bool) -> Told<'a> {
    let name = name_of(word.text);
    let before = if are_some {
        " = CALL` before this one; set are "
    } else {
        " = CALL` before this one"
    };
    let expected = if sets_itself {
        Text::plain("the line itself sets it, and that is too late for its own call")
    } else {
        Text::whole_in("a line `", name, before)
    };
    let what = Text::whole_in("nothing has set ", word.text, " in this block");
    let fault = Fault::new(what, expected, word.span(), Page::Faults);
    match elsewhere(cause, name) {
        Some(line) => {
            let other = Some(set_elsewhere(cause, line));
            Told { fault, other }
        }
        None => Told::alone(fault),
    }
}

fn unset<'a>(
    alloc: Global,
    cause: Cause<'a>,
    call: Call<'a>,
    word: Word<'a>,
) -> Result<Finding<'a>, AllocError>
    ensures { IfOk result (λ finding. finding.number ≡ Some cause.entry.line.number) }
{
    let sets_itself = match call.sets {
        Some(sets) => sets.text == name_of(word.text),
        None => false,
    };
    let names = if sets_itself {
        Vec::new(alloc)
    } else {
        known(alloc, cause.script, cause.line.number)?
    };
    let told = told_of(cause, word, sets_itself, !names.is_empty());
    let mut finding = Finding::at(alloc, cause.line, told.fault, told.other);
    finding.names = names;
    Ok(finding)
}
