//! What is told of a fault of an input of sandboxes, by its name.
ghost use Rattle.std.specs.Prelude.{◌≡◌, IfOk, IfSome};

use crate::headings::{begins, begun};
use explain_base::{Fault, Finding, Line, Lines, Page, Piece, Span, Text, Word, Words};
use explain_calls::{Queues, others, text_at};
use explain_script::explain_script;
use std::alloc::{AllocError, Global};

const BEGINS: &str = "a line `sandbox NAME`, a script, and a line `endsandbox`";

// Something is wrong with these bytes of a line.
fn at<'a>(
    alloc: Global,
    line: Line<'a>,
    what: Text<'a>,
    expected: &'static str,
    span: Span,
) -> Finding<'a>
    ensures { result.number ≡ Some line.entry.number }
{
    let fault = Fault::new(what, Text::plain(expected), span, Page::Sandboxes);
    Finding::at(alloc, line, fault, None)
}

// A fault with no line to show.
fn without_line<'a>(alloc: Global, number: usize, what: &'static str) -> Finding<'a>
    ensures { result.number ≡ Some number }
{
    let (what, expected) = (Text::plain(what), Text::plain(BEGINS));
    Finding::without_line(alloc, what, expected, Some(number), Page::Sandboxes)
}

// The bytes of a word that may be there.
fn span_of(word: Option<Word>) -> Span {
    match word {
        Some(word) => word.span(),
        None => Span::of(0, 0),
    }
}

// A line outside a sandbox.
fn no_sandbox<'a>(alloc: Global, line: Line<'a>) -> Finding<'a>
    ensures { result.number ≡ Some line.entry.number }
{
    let words = Words::of(line.text);
    if words.get(0).is_none() || text_at(words, 0).starts_with(b"#") {
        return without_line(alloc, line.number, "no line has words");
    }
    if begins(line) {
        let (what, word) = match (words.get(1), words.get(2)) {
            (Some(name), None) => {
                (
                    Text::whole_in("`", name.text, "` is no name of a sandbox"),
                    Some(name),
                )
            }
            (_, word) => (
                Text::plain("`sandbox` has one name behind it"),
                word.or(words.get(0)),
            ),
        };
        let expected = "sandbox NAME: a small letter, then at most 31 of a to z, 0 to 9 and _";
        return at(alloc, line, what, expected, span_of(word));
    }
    let what = Text::plain("this line stands outside any sandbox");
    at(alloc, line, what, BEGINS, span_of(words.get(0)))
}

// A sandbox begins inside another.
fn no_end<'a>(alloc: Global, bytes: &'a [u8], line: Line<'a>) -> Finding<'a>
    ensures { result.number ≡ Some line.entry.number }
{
    let what = Text::plain("a sandbox begins inside another");
    let expected = "a line `endsandbox` before this one";
    let mut finding = at(
        alloc,
        line,
        what,
        expected,
        span_of(Words::of(line.text).get(0)),
    );
    finding.other = others(
        begun(bytes, line.number),
        "this sandbox has had no `endsandbox`",
    );
    finding
}

// The input ends inside a sandbox.
fn no_end_at_all<'a>(alloc: Global, bytes: &'a [u8], number: usize) -> Finding<'a>
    ensures { result.number ≡ Some number }
{
    let (what, expected) = ("the input ends inside a sandbox", "a line `endsandbox`");
    let (what, expected) = (Text::plain(what), Text::plain(expected));
    let mut finding = Finding::without_line(alloc, what, expected, Some(number), Page::Sandboxes);
    finding.other = others(begun(bytes, number), "begins it");
    finding
}

// The first line that begins a sandbox of this name.
fn named<'a>(bytes: &'a [u8], name: &[u8]) -> Option<Line<'a>> {
    for line in Lines::of(bytes) {
        if begins(line) && text_at(Words::of(line.text), 1) == name {
            return Some(line);
        }
    }
    None
}

// A sandbox ends that has no block.
fn no_block<'a>(alloc: Global, line: Line<'a>) -> Finding<'a>
    ensures { result.number ≡ Some line.entry.number }
{
    let what = Text::plain("the sandbox has no block");
    let expected = "a block before this line: proc main, then a line for each call, then end";
    at(
        alloc,
        line,
        what,
        expected,
        span_of(Words::of(line.text).get(0)),
    )
}

// A name that an earlier sandbox has.
fn twice<'a>(alloc: Global, bytes: &'a [u8], line: Line<'a>) -> Finding<'a>
    ensures { result.number ≡ Some line.entry.number }
{
    let words = Words::of(line.text);
    let name = text_at(words, 1);
    let what = Text::whole_in("an earlier sandbox has the name `", name, "`");
    let mut finding = at(
        alloc,
        line,
        what,
        "a name of its own",
        span_of(words.get(1)),
    );
    finding.other = others(named(bytes, name), "has it");
    finding
}

// One more than there may be.
fn too_many<'a>(
    alloc: Global,
    line: Line<'a>,
    what: &'static str,
    expected: &'static str,
) -> Finding<'a>
    ensures { result.number ≡ Some line.entry.number }
{
    let span = span_of(Words::of(line.text).get(0));
    at(alloc, line, Text::plain(what), expected, span)
}

// A fault that isn't a script's, of a line that is there; none where the name is another's.
fn of_line<'a>(alloc: Global, bytes: &'a [u8], line: Line<'a>, name: &[u8]) -> Option<Finding<'a>>
    ensures { IfSome result (λ finding. finding.number ≡ Some line.entry.number) }
{
    match name {
        b"NoSandbox" => Some(no_sandbox(alloc, line)),
        b"NoEndSandbox" => Some(no_end(alloc, bytes, line)),
        b"SandboxTwice" => Some(twice(alloc, bytes, line)),
        b"TooManySandboxes" => {
            let (what, expected) = ("this is sandbox 9, and 8 is the limit", "fewer sandboxes");
            Some(too_many(alloc, line, what, expected))
        }
        b"TooManyNodes" => {
            let what = "this is block 33 of all sandboxes, and 32 is the limit";
            Some(too_many(alloc, line, what, "fewer blocks"))
        }
        _ => None,
    }
}

// The same of a line that isn't there: the input ends before it.
fn of_end<'a>(alloc: Global, bytes: &'a [u8], number: usize, name: &[u8]) -> Option<Finding<'a>>
    ensures { IfSome result (λ finding. finding.number ≡ Some number) }
{
    match name {
        b"NoSandbox" => Some(without_line(alloc, number, "no line has words")),
        b"NoEndSandbox" => Some(no_end_at_all(alloc, bytes, number)),
        _ => None,
    }
}

/// Why this input of sandboxes has the fault of this name at this line, whose number is the finding's. `alone` has the
/// script of the sandbox in which the line stands.
pub fn explain_boxes<'a>(
    alloc: Global,
    bytes: &'a [u8],
    alone: &'a [u8],
    number: usize,
    name: &'a [u8],
) -> Result<Finding<'a>, AllocError>
    ensures { IfOk result (λ finding. finding.number ≡ Some number) }
{
    let is_empty = name == b"NoProc".as_slice() && Lines::of(alone).numbered(number).is_none();
    let own = match Lines::of(bytes).numbered(number) {
        Some(line) if is_empty => Some(no_block(alloc, line)),
        Some(line) => of_line(alloc, bytes, line, name),
        None => of_end(alloc, bytes, number, name),
    };
    if let Some(finding) = own {
        return Ok(finding);
    }
    // these two are faults of the whole input
    let is_whole = name == b"ScriptTooLong".as_slice() || name == b"NotUtf8".as_slice();
    let script = if is_whole { bytes } else { alone };
    explain_script(alloc, script, number, name, false, Queues::SystemV)
}
