//! What is told of a line that isn't one of a trace.
ghost use Rattle.std.specs.Prelude.{◌≡◌};

use crate::entry::are_like;
use crate::fields::{FORM, entry_fault, wrong_blanks};
use crate::judged::Judged;
use crate::totals::{is_totals, totals_of, wrong_totals};
use explain_base::{Fault, Finding, Page, Piece, Span, Text, Totals, Words, Wrong};
use explain_calls::plain_wrong;
use std::alloc::Global;

const MAX_LINE: usize = 1048576;

const MAX_TRACE: usize = 67108864;

// Whether a line is one of those that --steps writes.
fn is_event(line: &[u8]) -> bool {
    let words = Words::of(line);
    let is_one = are_like(words, &["take", "", "from", ""])
        || are_like(words, &["run", ""])
        || are_like(words, &["steps", ""]);
    is_one && wrong_blanks(line).is_none()
}

// What stands behind the totals, which end a trace.
fn behind_totals(line: &[u8]) -> Fault<'_> {
    let (what, expected) = if is_event(line) {
        (
            "the events that --steps writes are no part of a trace",
            "the totals end the trace: leave out what is behind them",
        )
    } else {
        (
            "a line stands behind the totals",
            "the totals end the trace",
        )
    };
    plain_wrong(what, expected, Span::of(0, line.len().max(1))).fault("", Page::Checking)
}

// Whether the line before is the totals.
fn is_behind_totals(judged: Judged<'_>) -> bool {
    let before = judged.number.saturating_sub(1);
    if before <= judged.marker {
        return false;
    }
    match judged.lines().numbered(before) {
        Some(line) => is_totals(line.text),
        None => false,
    }
}

// The trace ends where a line is due.
fn ends_early(alloc: Global, judged: Judged<'_>, totals: Totals) -> Finding<'_>
    ensures { result.number ≡ Some judged.entry.number }
{
    let what = if judged.number > judged.marker.saturating_add(1) {
        Text::plain("the trace ends before its totals")
    } else {
        Text::plain("no trace stands behind the line `trace`")
    };
    let expected = Text::totals_due(totals);
    Finding::without_line(alloc, what, expected, Some(judged.number), Page::Trace)
}

// How many bytes the trace has up to the end of a line that has that many.
fn size_up_to(judged: Judged<'_>, size: usize) -> usize {
    let mut whole = size;
    for line in judged.lines() {
        if line.number >= judged.number {
            break;
        }
        whole = whole.saturating_add(line.text.len()).saturating_add(1);
    }
    whole
}

// A line, or a trace, that is too long.
fn too_long<'a>(judged: Judged<'a>, size: usize) -> Option<Text<'a>> {
    if size > MAX_LINE {
        Some(Text::three(
            Piece::plain("the line has "),
            Piece::grouped(size),
            Piece::plain(" bytes, and 1,048,576 is the limit"),
        ))
    } else if size_up_to(judged, size) >= MAX_TRACE {
        Some(Text::plain("the trace has more than 67,108,864 bytes"))
    } else {
        None
    }
}

/// What is told where a line isn't one of a trace.
pub fn not_a_trace(alloc: Global, judged: Judged<'_>) -> Finding<'_>
    ensures { result.number ≡ Some judged.entry.number }
{
    let (number, line) = (judged.number, judged.line());
    if is_behind_totals(judged) {
        return Finding::at(alloc, line, behind_totals(line.text), None);
    }
    if judged.found.is_none() {
        return ends_early(alloc, judged, totals_of(judged.lines(), number));
    }
    if let Some(what) = too_long(judged, line.text.len()) {
        return Finding::without_line(alloc, what, Text::none(), Some(number), Page::Checking);
    }
    let fault = if line.is_ended {
        look(judged, line.text)
    } else {
        not_ended(line.text.len())
    };
    Finding::at(alloc, line, fault, None)
}

// A line of that size has no line feed.
fn not_ended<'a>(size: usize) -> Fault<'a> {
    let what = "the last line has no line feed at its end";
    let span = Span::of(size, size.saturating_add(1));
    plain_wrong(what, "a line feed", span).fault("", Page::Trace)
}

// Nothing better was found.
fn unlike(text: &[u8]) -> Fault<'_> {
    let what = Text::plain("the line isn't as the program writes it");
    Wrong::new(what, Text::none(), Span::of(0, text.len())).fault(FORM, Page::Trace)
}

// A line of that size ends as those of other systems.
fn with_return<'a>(size: usize) -> Fault<'a> {
    let what = "a carriage return stands at the line's end";
    let span = Span::of(size.saturating_sub(1), size);
    plain_wrong(what, "a line feed alone ends a line", span).fault("", Page::Trace)
}

// What is wrong with a line that is none by its first word.
fn no_line(text: &[u8]) -> Option<Fault<'_>> {
    let due = "a line of the trace";
    let (what, expected, page) = if Words::of(text).is_empty() {
        ("a line with no words", due, Page::Trace)
    } else if text.starts_with(b"#") {
        ("a trace has no comments", due, Page::Trace)
    } else if is_word_trace(text) {
        (
            "a second line `trace`",
            "the first line of the trace",
            Page::Checking,
        )
    } else {
        return None;
    };
    Some(plain_wrong(what, expected, Span::of(0, text.len().max(1))).fault(FORM, page))
}

// The first thing that is wrong with the line's text.
fn look<'a>(judged: Judged<'a>, text: &'a [u8]) -> Fault<'a> {
    if text.ends_with(b"\r") {
        return with_return(text.len());
    }
    if text.starts_with(b"tot") {
        return wrong_totals(text, totals_of(judged.lines(), judged.number));
    }
    let found = no_line(text).or(entry_fault(judged.script, text));
    found.unwrap_or(unlike(text))
}

/// Whether the only word of a line is `trace`.
pub fn is_word_trace(line: &[u8]) -> bool {
    are_like(Words::of(line), &["trace"])
}
