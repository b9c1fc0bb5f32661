//! Faults of blocks: a `proc` or an `end` that isn't where it should be, and too much of a script.
ghost use Rattle.std.specs.Prelude.{◌≡◌};

use crate::reading::{Block, Reading};
use crate::refused::Cause;
use explain_base::{
    Fault, Finding, Line, Nearest, Page, Piece, Span, Text, Word, Wrong, without_blanks,
};
use explain_calls::{Call, Told, others, plain_wrong, text_at};
use std::alloc::Global;

static PROC: [&str; 1] = ["proc"];

const A_BLOCK: &str = "a block: proc main, then a line for each call, then end";

const BEGINS: &str = "a line `proc NAME` begins a block";

const FORM: &str = "proc NAME .. end";

/// A script with no line that has words up to there. Where it has some further down, they are comments.
pub fn no_line<'a>(alloc: Global, number: usize, has_words: bool) -> Finding<'a>
    ensures { result.number ≡ Some number }
{
    let what = if has_words {
        "the script has comments alone"
    } else {
        "the script has no line with words"
    };
    let (what, expected) = (Text::plain(what), Text::plain(A_BLOCK));
    Finding::without_line(alloc, what, expected, Some(number), Page::Blocks)
}

// What is wrong with a line outside any block, by its first word.
fn outside(first: Word<'_>) -> Wrong<'_> {
    let (what, expected) = if first.text == b"end".as_slice() {
        ("no block is open here", BEGINS)
    } else if first.text.eq_ignore_ascii_case(b"proc") {
        ("`proc` is in small letters", "proc")
    } else if Nearest::among(first.text, &PROC).is_some() {
        let what = Text::said(first.text, " doesn't begin a block");
        return Wrong::new(what, Text::plain("did you mean proc?"), first.span());
    } else {
        ("this line stands outside any block", BEGINS)
    };
    plain_wrong(what, expected, first.span())
}

// What is wrong with the first word of a script, where that isn't one at all.
fn no_word(first: Word<'_>) -> Option<Wrong<'_>> {
    if first.text.starts_with(b"#") {
        Some(plain_wrong("the script has comments alone", A_BLOCK, Span::of(0, 0)))
    } else if first.text.starts_with(b"\xef\xbb\xbf") {
        let what = "the file begins with a byte order mark";
        Some(plain_wrong(what, "a file without it", first.part(0, 3)))
    } else {
        None
    }
}

/// A line outside any block.
pub fn no_proc<'a>(cause: Cause<'a>, first: Word<'a>) -> Told<'a> {
    match no_word(first) {
        Some(wrong) => Told::alone(wrong.fault("", Page::Blocks)),
        None => Told::beside(
            outside(first).fault(FORM, Page::Blocks),
            cause.reading.ended,
            "this block has had its `end`",
        ),
    }
}

// What is told of a block that is open where the input ends.
fn inside<'a>(block: Option<Block<'a>>, ends: &'static str) -> Text<'a> {
    match block {
        Some(block) => Text::four(
            Piece::plain(ends),
            Piece::plain(" of `"),
            Piece::whole(block.name),
            Piece::plain("`"),
        ),
        None => Text::plain(ends),
    }
}

/// The input ends inside a block.
pub fn no_end<'a>(
    alloc: Global,
    reading: Reading<'a>,
    number: usize,
    ends_at_trace: bool,
) -> Finding<'a>
    ensures { result.number ≡ Some number }
{
    let ends = if ends_at_trace {
        "the line `trace` ends the script inside the block"
    } else {
        "the script ends inside the block"
    };
    let what = inside(reading.block, ends);
    let expected = Text::plain("a line `end` before this one");
    let mut finding = Finding::without_line(alloc, what, expected, Some(number), Page::Blocks);
    finding.other = others(reading.begun(), "begins it");
    finding
}

/// A `proc` inside a block.
pub fn no_end_before<'a>(cause: Cause<'a>, first: Word<'a>) -> Told<'a> {
    let what = "a block begins inside another";
    let wrong = plain_wrong(what, "a line `end` before this one", first.span());
    let begun = cause.reading.begun();
    Told::beside(
        wrong.fault(FORM, Page::Blocks),
        begun,
        "this block has had no `end`",
    )
}

/// More blocks than a script may have.
pub fn too_many_blocks<'a>(cause: Cause<'a>) -> Fault<'a> {
    let what = Text::three(
        Piece::plain("this is block "),
        Piece::number(cause.reading.blocks.saturating_add(1)),
        Piece::plain(", and 32 is the limit"),
    );
    Fault::new(
        what,
        Text::plain("fewer blocks"),
        cause.all_words(),
        Page::Faults,
    )
}

// The most calls of a script.
const MAX_CALLS: usize = 20000;

// The `exit 0` of a block's end is more than a script may have.
fn too_many_with_end<'a>(calls: usize, first: Word<'a>) -> Fault<'a> {
    let what = Text::three(
        Piece::plain("the `exit 0` that this `end` stands for is call "),
        Piece::grouped(calls.saturating_add(1)),
        Piece::plain(", and 20,000 is the limit"),
    );
    Fault::new(what, Text::plain("fewer calls"), first.span(), Page::Faults)
}

/// More calls than a script may have.
pub fn too_many_calls<'a>(cause: Cause<'a>, first: Word<'a>) -> Fault<'a> {
    let calls = cause.reading.calls;
    if first.text == b"end".as_slice() {
        return too_many_with_end(calls, first);
    }
    let call = Call::of(cause.words());
    let tries = if call.tries.is_some() {
        "; `try N` counts N times"
    } else {
        ""
    };
    let what = Text::four(
        Piece::plain("with this line the script has "),
        Piece::grouped(calls.saturating_add(call.count())),
        Piece::plain(" calls, and 20,000 is the limit"),
        Piece::plain(tries),
    );
    let expected = Text::three(
        Piece::plain("at most "),
        Piece::grouped(MAX_CALLS.saturating_sub(calls)),
        Piece::plain(" here"),
    );
    let mark = call.tries.or(call.words.get(0)).unwrap_or(first);
    Fault::new(what, expected, mark.span(), Page::Faults)
}

/// A word behind `end`.
pub fn bad_end(cause: Cause<'_>) -> Fault<'_> {
    let what = if text_at(cause.words(), 1).starts_with(b"#") {
        "a comment has a line of its own"
    } else {
        "a word behind `end`"
    };
    let span = match cause.words().get(1) {
        Some(word) => cause.words_from(word),
        None => cause.all_words(),
    };
    plain_wrong(what, "the line ends here", span).fault("end", Page::Blocks)
}

/// The place behind a line's last word.
pub fn end_of(line: Line) -> usize {
    without_blanks(line.text).len()
}
