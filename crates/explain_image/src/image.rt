//! What is told of a fault of an image, by its name.
ghost use Rattle.std.specs.Prelude.{◌≡◌, IfOk, IfSome};

use explain_base::{Fault, Finding, Line, Lines, Page, Piece, Span, Text, Words};
use explain_calls::{Queues, count_of, others, text_at};
use explain_script::explain_script;
use std::alloc::{AllocError, Global};

// The greatest image, in bytes.
const MAX_IMAGE: usize = 16777216;

const COUNT: &str = "`image E`, where E is how many lines are behind it";

const EVENT: &str =
    "`S P run` or `S P take Q`: a stamp, a node, whom it took from; lower nodes first";

// Whether a line ends the script, by its first word.
fn ends(line: Line<'_>) -> bool {
    text_at(Words::of(line.text), 0) == b"image".as_slice()
}

// The bytes before the first such line, and that line.
fn image_line<'a>(bytes: &'a [u8]) -> Option<(&'a [u8], Line<'a>)> {
    let mut at = 0usize;
    for line in Lines::of(bytes) {
        if ends(line) {
            return Some((bytes.get(..at).unwrap_or(bytes), line));
        }
        at = at.saturating_add(line.text.len()).saturating_add(1);
    }
    None
}

// The number of events that the line says, where it says one.
fn said(line: Line<'_>) -> Option<usize> {
    let words = Words::of(line.text);
    match words.get(2) {
        Some(_) => None,
        None => count_of(text_at(words, 1)),
    }
}

// Something is wrong with a line.
fn at<'a>(alloc: Global, line: Line<'a>, what: Text<'a>, expected: &'static str) -> Finding<'a>
    ensures { result.number ≡ Some line.entry.number }
{
    let span = Span::of(0, line.text.len());
    let fault = Fault::new(what, Text::plain(expected), span, Page::Images);
    Finding::at(alloc, line, fault, None)
}

// A fault with no line to show.
fn without_line<'a>(
    alloc: Global,
    number: usize,
    what: &'static str,
    expected: &'static str,
) -> Finding<'a>
    ensures { result.number ≡ Some number }
{
    let (what, expected) = (Text::plain(what), Text::plain(expected));
    Finding::without_line(alloc, what, expected, Some(number), Page::Images)
}

// A line behind the script that isn't an image's, where the script ends at that other line.
fn no_line<'a>(alloc: Global, image: Line<'a>, line: Line<'a>) -> Finding<'a>
    ensures { result.number ≡ Some line.entry.number }
{
    if line.number == image.number {
        return at(
            alloc,
            line,
            Text::plain("this line doesn't count the events"),
            COUNT,
        );
    }
    let place = line.number.saturating_sub(image.number);
    match said(image) {
        Some(count) if place > count => {
            let what = Text::plain("a line more than there are events");
            let mut finding = at(alloc, line, what, "the end, or another count");
            finding.other = others(Some(image), "counts the events");
            finding
        }
        _ => at(
            alloc,
            line,
            Text::plain("this line isn't an event's, or stands too late"),
            EVENT,
        ),
    }
}

// Where the image ends too early.
fn no_end<'a>(alloc: Global, image: Line<'a>, number: usize) -> Finding<'a>
    ensures { result.number ≡ Some number }
{
    let what = "the image ends before its last event";
    let mut finding = without_line(alloc, number, what, EVENT);
    finding.other = others(Some(image), "counts the events");
    finding
}

// What isn't an image.
fn not_an_image<'a>(alloc: Global, bytes: &'a [u8], number: usize) -> Finding<'a>
    ensures { result.number ≡ Some number }
{
    if bytes.len() > MAX_IMAGE {
        let what =
            "the image has more than 16,777,216 bytes, and here is the first that is too much";
        return without_line(alloc, number, what, "fewer events, or a shorter script");
    }
    let Some((_, image)) = image_line(bytes) else {
        return without_line(
            alloc,
            number,
            "no line has `image` as its first word",
            COUNT,
        );
    };
    match Lines::of(bytes).numbered(number) {
        Some(line) => no_line(alloc, image, line),
        None => no_end(alloc, image, number),
    }
}

// The line before the one of this number.
fn before<'a>(bytes: &'a [u8], number: usize) -> Option<Line<'a>> {
    Lines::of(bytes).numbered(number.saturating_sub(1))
}

// A stamp that doesn't rise.
fn not_rising<'a>(alloc: Global, bytes: &'a [u8], line: Line<'a>) -> Finding<'a>
    ensures { result.number ≡ Some line.entry.number }
{
    let what = Text::plain("the stamp isn't above the one before it of the same node");
    let mut finding = at(
        alloc,
        line,
        what,
        "a greater stamp, or the events in the order of their stamps",
    );
    finding.other = others(before(bytes, line.number), "comes before it");
    finding
}

// An event that can't come.
fn not_enabled<'a>(alloc: Global, line: Line<'a>) -> Finding<'a>
    ensures { result.number ≡ Some line.entry.number }
{
    let words = Words::of(line.text);
    let (node, from) = (text_at(words, 1), text_at(words, 3));
    let what = if words.get(3).is_some() {
        Text::four(
            Piece::plain("behind the events of lower stamps node "),
            Piece::whole(node),
            Piece::plain(" can take no frame from node "),
            Piece::whole(from),
        )
    } else {
        Text::whole_in(
            "behind the events of lower stamps node ",
            node,
            " can't start a call",
        )
    };
    at(
        alloc,
        line,
        what,
        "an event that some run of the script has there",
    )
}

// A fault that isn't the script's.
fn of_image<'a>(alloc: Global, bytes: &'a [u8], number: usize, name: &[u8]) -> Option<Finding<'a>>
    ensures { IfSome result (λ finding. finding.number ≡ Some number) }
{
    match (name, Lines::of(bytes).numbered(number)) {
        (b"NotAnImage", _) => Some(not_an_image(alloc, bytes, number)),
        (b"NotRising", Some(line)) => Some(not_rising(alloc, bytes, line)),
        (b"NotEnabled", Some(line)) => Some(not_enabled(alloc, line)),
        _ => None,
    }
}

/// Why this image has the fault of this name at this line, whose number is the finding's.
pub fn explain_image<'a>(
    alloc: Global,
    bytes: &'a [u8],
    number: usize,
    name: &'a [u8],
) -> Result<Finding<'a>, AllocError>
    ensures { IfOk result (λ finding. finding.number ≡ Some number) }
{
    if let Some(finding) = of_image(alloc, bytes, number, name) {
        return Ok(finding);
    }
    let script = match image_line(bytes) {
        Some((script, _)) => script,
        None => bytes,
    };
    explain_script(alloc, script, number, name, false, Queues::SystemV)
}
