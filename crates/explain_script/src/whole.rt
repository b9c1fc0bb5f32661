//! Faults of a script as a whole: its size, a line's size, and its characters.
ghost use Rattle.std.specs.Prelude.{◌≡◌};

use explain_base::{Fault, Finding, Line, Lines, Page, Piece, Span, Text};
use std::alloc::Global;

/// More bytes than a script may have.
pub fn script_too_long<'a>(alloc: Global, number: usize) -> Finding<'a>
    ensures { result.number ≡ Some number }
{
    Finding::without_line(
        alloc,
        Text::plain(
            "the script has more than 1,048,576 bytes, and here is the first that is too much",
        ),
        Text::plain("fewer lines, or shorter ones; comments and blanks count, too"),
        Some(number),
        Page::Faults,
    )
}

/// More bytes than a line may have.
pub fn line_too_long<'a>(alloc: Global, line: Line<'a>) -> Finding<'a>
    ensures { result.number ≡ Some line.entry.number }
{
    let what = Text::three(
        Piece::plain("the line has "),
        Piece::grouped(line.text.len()),
        Piece::plain(" bytes, and 4,096 is the limit"),
    );
    let expected = if line.text.contains(&b'"') {
        "a shorter line; rep:N:C says a long text in short"
    } else {
        "a shorter line; blanks at its end and comments count, too"
    };
    Finding::without_line(
        alloc,
        what,
        Text::plain(expected),
        Some(line.number),
        Page::Lines,
    )
}

// The place of the first byte of these that isn't part of a character of UTF-8; 0 where there is none.
fn stranger(bytes: &[u8]) -> usize {
    match std::str::from_utf8(bytes) {
        Ok(_) => 0,
        Err(error) => error.valid_up_to(),
    }
}

// The line in which a byte of a script stands, and its place there.
fn line_with(script: &[u8], place: usize) -> (Line<'_>, usize) {
    let mut at = 0usize;
    for line in Lines::of(script) {
        let next = at.saturating_add(line.text.len()).saturating_add(1);
        if place < next {
            return (line, place.saturating_sub(at));
        }
        at = next;
    }
    let none = Line {
        number: 0,
        text: &[],
        is_ended: false,
    };
    (none, 0)
}

/// The first byte that isn't part of a character, and what the file may be in its place.
pub fn not_utf8<'a>(alloc: Global, script: &'a [u8], number: usize) -> Finding<'a>
    ensures { result.number ≡ Some number }
{
    let what = match script {
        [0xff, 0xfe, ..] | [0xfe, 0xff, ..] => "the file is in UTF-16",
        _ => "a byte that isn't part of a character of UTF-8",
    };
    let (line, mark) = line_with(script, stranger(script));
    let fault = Fault::new(
        Text::plain(what),
        Text::plain("a file in UTF-8; in a text \\xhh stands for any byte"),
        Span::of(mark, mark.saturating_add(1)),
        Page::Lines,
    );
    let shown = Line {
        number,
        text: line.text,
        is_ended: true,
    };
    Finding::at(alloc, shown, fault, None)
}
