//! A script, a line `trace` and a trace that was refused.
ghost use Rattle.std.specs.Prelude.{◌≡◌, IfOk};

use crate::due::{another_call, another_reply};
use crate::written::{is_word_trace, not_a_trace};
use explain_base::{Finding, Line, Lines, Page, Text};
use std::alloc::{AllocError, Global};

/// A trace behind its script, and the line of its fault.
#[derive(Clone, Copy)]
pub struct Judged<'a> {
    pub script: &'a [u8],
    /// The number of the line `trace`.
    pub marker: usize,
    /// The lines behind that line.
    behind: Lines<'a>,
    pub number: usize,
    pub found: Option<Line<'a>>,
}

impl<'a> Judged<'a> {
    /// The lines of the trace, with their numbers.
    pub fn lines(self) -> Lines<'a> {
        self.behind
    }

    /// The line of the fault; an empty one where none is there.
    pub fn line(self) -> Line<'a>
        ensures { result.number ≡ self.entry.number }
    {
        let number = self.number;
        match self.found {
            Some(line) => Line {
                number,
                text: line.text,
                is_ended: line.is_ended,
            },
            None => Line {
                number,
                text: &[],
                is_ended: true,
            },
        }
    }
}

/// The first line whose only word is `trace`: the bytes before it, that line, and the lines behind it.
pub fn trace_line<'a>(bytes: &'a [u8]) -> Option<(&'a [u8], Line<'a>, Lines<'a>)> {
    let mut left = Lines::of(bytes);
    let mut at = 0usize;
    for line in Lines::of(bytes) {
        let _ = left.next();
        if is_word_trace(line.text) {
            return Some((bytes.get(..at).unwrap_or(bytes), line, left));
        }
        at = at.saturating_add(line.text.len()).saturating_add(1);
    }
    None
}

/// Why `check` refused these bytes at this line, whose number is the finding's, for this reason: a script, a line
/// `trace`, and a trace.
pub fn explain_trace<'a>(
    alloc: Global,
    bytes: &'a [u8],
    number: usize,
    why: &'a [u8],
) -> Result<Finding<'a>, AllocError>
    ensures { IfOk result (λ finding. finding.number ≡ Some number) }
{
    let Some((script, line, behind)) = trace_line(bytes) else {
        let what = Text::plain("the input has no line whose only word is `trace`");
        let expected = Text::plain("the script, a line `trace`, and the trace");
        return Ok(Finding::without_line(alloc, what, expected, Some(number), Page::Checking));
    };
    let marker = line.number;
    let found = behind.numbered(number);
    let judged = Judged {
        script,
        marker,
        behind,
        number,
        found,
    };
    if why == b"not a trace".as_slice() {
        return Ok(not_a_trace(alloc, judged));
    }
    if let Some(told) = why.strip_prefix(b"due ") {
        return another_call(alloc, judged, told);
    }
    let told = why.strip_prefix(b"kernel ").unwrap_or(why);
    Ok(another_reply(alloc, judged, told))
}
