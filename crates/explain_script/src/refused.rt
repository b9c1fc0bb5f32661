//! What is told of a script's fault, by its name.
ghost use Rattle.std.specs.Prelude.{◌≡◌, IfOk};

use crate::blocks::{no_end, no_end_before, no_line, no_proc, too_many_blocks, too_many_calls};
use crate::causes::{bad_argument, unknown_call};
use crate::forks::{fork_backwards, forked_twice, never_forked, unknown_proc};
use crate::reading::{Reading, first_word};
use crate::variables::unset_variable;
use crate::whole::{line_too_long, not_utf8, script_too_long};
use explain_base::{Finding, Line, Lines, Page, Span, Text, Word, Words};
use explain_calls::{Call, Queues, Told};
use std::alloc::{AllocError, Global};

/// A line that is at fault, the script that it stands in, what the lines before it say, and which queues its calls are
/// on.
#[derive(Clone, Copy)]
pub struct Cause<'a> {
    pub script: &'a [u8],
    pub line: Line<'a>,
    pub reading: Reading<'a>,
    pub queues: Queues,
}

impl<'a> Cause<'a> {
    /// The words of the line.
    pub fn words(&self) -> Words<'a> {
        Words::of(self.line.text)
    }

    /// The place behind the line's last word.
    pub fn end(&self) -> usize {
        match self.words().last() {
            Some(word) => word.end(),
            None => 0,
        }
    }

    /// The word behind the call's name, which names a block where the call is a fork.
    pub fn forked(&self) -> Option<Word<'a>> {
        Call::of(self.words()).words.get(1)
    }

    /// The line from this word on.
    pub fn words_from(&self, word: Word<'a>) -> Span {
        Span::of(word.start, self.end())
    }

    /// The line from its first word on.
    pub fn all_words(&self) -> Span {
        match self.words().get(0) {
            Some(word) => self.words_from(word),
            None => Span::of(0, 0),
        }
    }
}

// A fault of which nothing better is known.
fn unknown<'a>(alloc: Global, number: usize, name: &'a [u8]) -> Finding<'a>
    ensures { result.number ≡ Some number }
{
    let what = Text::whole_in("the script has the fault ", name, "");
    Finding::without_line(alloc, what, Text::none(), Some(number), Page::Faults)
}

// What is told of a line with words, by the fault's name; none where nothing is known of it.
fn told_of<'a>(cause: Cause<'a>, first: Word<'a>, name: &'a [u8]) -> Option<Told<'a>> {
    of_blocks(cause, first, name)
        .or(of_call(cause, first, name))
        .or(of_fork(cause, name))
}

// The same of a block, and of too much of a script.
fn of_blocks<'a>(cause: Cause<'a>, first: Word<'a>, name: &'a [u8]) -> Option<Told<'a>> {
    match name {
        b"NoProc" => Some(no_proc(cause, first)),
        b"NoEnd" => Some(no_end_before(cause, first)),
        b"TooManyProcs" => Some(Told::alone(too_many_blocks(cause))),
        b"TooManyCalls" => Some(Told::alone(too_many_calls(cause, first))),
        _ => None,
    }
}

// The same of a call's words.
fn of_call<'a>(cause: Cause<'a>, first: Word<'a>, name: &'a [u8]) -> Option<Told<'a>> {
    match name {
        b"UnknownCall" => Some(Told::alone(unknown_call(cause, first))),
        b"BadArgument" => Some(bad_argument(cause, first)),
        _ => None,
    }
}

// The same of a fork or a block that is forked.
fn of_fork<'a>(cause: Cause<'a>, name: &'a [u8]) -> Option<Told<'a>> {
    match name {
        b"ForkedTwice" => Some(forked_twice(cause, cause.forked()?)),
        b"ForkBackwards" => Some(fork_backwards(cause, cause.forked()?)),
        b"NeverForked" => Some(never_forked(cause, cause.words().get(1)?)),
        _ => None,
    }
}

// What is told of a line with words, where names may be told besides.
fn of_words<'a>(
    alloc: Global,
    cause: Cause<'a>,
    first: Word<'a>,
    name: &'a [u8],
) -> Result<Finding<'a>, AllocError>
    ensures { IfOk result (λ finding. finding.number ≡ Some cause.entry.line.number) }
{
    if name == b"UnsetVariable".as_slice() {
        return unset_variable(alloc, cause);
    }
    if name == b"UnknownProc".as_slice()
        && let Some(word) = cause.forked()
    {
        return unknown_proc(alloc, cause, word);
    }
    match told_of(cause, first, name) {
        Some(told) => Ok(Finding::at(alloc, cause.line, told.fault, told.other)),
        None => Ok(unknown(alloc, cause.line.number, name)),
    }
}

// Whether a line up to that one has words.
fn has_words(script: &[u8], number: usize) -> bool {
    for line in Lines::of(script) {
        if line.number <= number && !first_word(line).is_empty() {
            return true;
        }
    }
    false
}

// What is told of a line that is there.
fn of_line<'a>(
    alloc: Global,
    script: &'a [u8],
    line: Line<'a>,
    name: &'a [u8],
    queues: Queues,
) -> Result<Finding<'a>, AllocError>
    ensures { IfOk result (λ finding. finding.number ≡ Some line.entry.number) }
{
    let reading = Reading::before(script, line.number);
    let cause = Cause {
        script,
        line,
        reading,
        queues,
    };
    match cause.words().get(0) {
        Some(first) => of_words(alloc, cause, first, name),
        None => Ok(unknown(alloc, line.number, name)),
    }
}

/// Why this script with these queues has the fault of this name at this line, whose number is the finding's. In a text
/// to check it ends before the line `trace`.
pub fn explain_script<'a>(
    alloc: Global,
    script: &'a [u8],
    number: usize,
    name: &'a [u8],
    ends_at_trace: bool,
    queues: Queues,
) -> Result<Finding<'a>, AllocError>
    ensures { IfOk result (λ finding. finding.number ≡ Some number) }
{
    if name == b"ScriptTooLong".as_slice() {
        return Ok(script_too_long(alloc, number));
    }
    if name == b"NotUtf8".as_slice() {
        return Ok(not_utf8(alloc, script, number));
    }
    if name == b"NoProc".as_slice() && !has_words(script, number) {
        return Ok(no_line(alloc, number, has_words(script, usize::MAX)));
    }
    let line = Lines::of(script).numbered(number);
    match line {
        Some(line) if name == b"LineTooLong".as_slice() => Ok(line_too_long(alloc, line)),
        Some(line) if name != b"NoEnd".as_slice() || first_word(line) == b"proc".as_slice() => {
            of_line(alloc, script, line, name, queues)
        }
        _ => {
            if name == b"NoEnd".as_slice() {
                let reading = Reading::before(script, number);
                Ok(no_end(alloc, reading, number, ends_at_trace))
            } else {
                Ok(unknown(alloc, number, name))
            }
        }
    }
}
