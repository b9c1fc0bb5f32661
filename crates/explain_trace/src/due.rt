//! What is told of a call or a reply that isn't the script's or the kernel's.
ghost use Rattle.std.specs.Prelude.{◌≡◌, IfOk};

use crate::entry::{Entry, entry_of, sign_in, span_of, text_of_words};
use crate::errors::meaning;
use crate::judged::Judged;
use crate::walk::{Process, Walk};
use explain_base::{
    Fault, Finding, Line, Other, Page, Piece, Span, Style, Text, Words, without_blanks,
};
use explain_calls::{Call, Told, others, text_at};
use std::alloc::{AllocError, Global};

// The place of bytes in others, the first one.
fn place_of(bytes: &[u8], part: &[u8]) -> Option<usize> {
    (0..bytes.len()).find(|at| match bytes.get(*at..) {
        Some(rest) => rest.starts_with(part),
        None => false,
    })
}

// What stands before the first such mark; all where there is none.
fn before_first<'a>(told: &'a [u8], mark: &[u8]) -> &'a [u8] {
    match place_of(told, mark) {
        Some(place) => told.get(..place).unwrap_or(told),
        None => told,
    }
}

// What stands before a mark that these words follow to the end; none where they don't, or nothing stands there.
fn before_words<'a>(told: &'a [u8], mark: &[u8], words: &[u8]) -> Option<&'a [u8]> {
    let front = told.strip_suffix(words)?.strip_suffix(mark)?;
    if front.is_empty() { None } else { Some(front) }
}

// What stands before a mark that these words follow to the end; or else what stands before the first such mark.
fn before_mark<'a>(told: &'a [u8], mark: &[u8], words: &[u8]) -> &'a [u8] {
    before_words(told, mark, words).unwrap_or(before_first(told, mark))
}

// The bytes of the line's call, or the whole line.
fn call_span(line: &[u8]) -> Span {
    let whole = Span::of(0, line.len());
    match (sign_in(line), entry_words(line)) {
        (Some((place, _)), Some(words)) if place > 1 => span_of(words).unwrap_or(whole),
        _ => whole,
    }
}

// The words of the line before its sign and behind its first word.
fn entry_words(line: &[u8]) -> Option<Words<'_>> {
    let (_, sign) = sign_in(line)?;
    Some(Words::of(line.get(..sign.start)?).behind(1))
}

fn joined<'a>(line: &'a [u8], entry: Option<Entry<'a>>) -> &'a [u8] {
    match entry {
        Some(entry) => text_of_words(line, entry.call),
        None => b"totals",
    }
}

/// What is told where another call is due than the trace has: `told` is the call due, `found`, and the one found.
pub fn another_call<'a>(
    alloc: Global,
    judged: Judged<'a>,
    told: &'a [u8],
) -> Result<Finding<'a>, AllocError>
    ensures { IfOk result (λ finding. finding.number ≡ Some judged.entry.number) }
{
    let line = judged.line();
    let entry = entry_of(line.text);
    let due = before_mark(told, b" found ", joined(line.text, entry));
    let walk = Walk::along(alloc, judged.script, judged.lines(), judged.number)?;
    let pid = match entry {
        Some(entry) => entry.pid,
        None => walk.first_living(),
    };
    let told = if due == b"nothing".as_slice() {
        no_call_left(judged, pid, walk.process(pid))
    } else if due.starts_with(b"killed ") {
        Told::alone(killed(line.text, pid, due))
    } else if due.starts_with(b"withdraw ") {
        Told::alone(waits(line.text, pid, due))
    } else {
        let fault = call_left(line.text, entry.is_some(), pid, due);
        let other = line_due(walk.line_due(pid), due);
        Told { fault, other }
    };
    Ok(Finding::at(alloc, line, told.fault, told.other))
}

// A process has another call left than that of a line, or of none.
fn call_left<'a>(line: &'a [u8], is_line: bool, pid: &'a [u8], due: &'a [u8]) -> Fault<'a> {
    let what = if is_line {
        Text::whole_in("the script has another call here for process ", pid, "")
    } else {
        Text::whole_in("the trace ends, and process ", pid, " has calls left")
    };
    let expected = Text::four(
        Piece::plain("the next line of process "),
        Piece::whole(pid),
        Piece::plain(" is: "),
        Piece::whole(due),
    );
    Fault::new(what, expected, call_span(line), Page::Checking)
}

// A signal ends a process, and the trace goes on with it.
fn killed<'a>(line: &'a [u8], pid: &'a [u8], due: &'a [u8]) -> Fault<'a> {
    let what = Text::whole_in("a signal ends process ", pid, ", and that is its next line");
    let expected = Text::four(
        Piece::whole(pid),
        Piece::plain(" "),
        Piece::whole(due),
        Piece::plain(" = ended"),
    );
    Fault::new(what, expected, call_span(line), Page::Checking)
}

// A process waits, and the trace goes on with it.
fn waits<'a>(line: &'a [u8], pid: &'a [u8], due: &'a [u8]) -> Fault<'a> {
    let what = Text::whole_in(
        "process ",
        pid,
        " waits, and makes no call before it is woken",
    );
    let expected = Text::four(
        Piece::whole(pid),
        Piece::plain(" "),
        Piece::whole(due),
        Piece::plain(" = EINTR, or a line that wakes it"),
    );
    Fault::new(what, expected, call_span(line), Page::Checking)
}

// Whether a line's entry is a fork that replies this number.
fn is_fork_of(line: &[u8], pid: &[u8]) -> bool {
    match entry_of(line) {
        Some(entry) => {
            text_at(entry.call, 0) == b"fork".as_slice()
                && text_at(entry.reply, 0) == pid
                && entry.reply.get(1).is_none()
        }
        None => false,
    }
}

// The first line behind the fault's that forks a process.
fn fork_below<'a>(judged: Judged<'a>, pid: &[u8]) -> Option<Line<'a>> {
    for line in judged.lines() {
        if line.number > judged.number && is_fork_of(line.text, pid) {
            return Some(line);
        }
    }
    None
}

// There is no such process.
fn no_process<'a>(judged: Judged<'a>, pid: &'a [u8]) -> Told<'a> {
    let later = fork_below(judged, pid);
    let behind = if later.is_some() { " yet" } else { "" };
    let what = Text::whole_in("there is no process ", pid, behind);
    let expected = Text::plain("1, or a number that a `fork` above replies");
    let fault = Fault::new(what, expected, Span::of(0, pid.len()), Page::Checking);
    Told::beside(fault, later, "forks it, and stands below")
}

// The process has ended, or there is none.
fn no_call_left<'a>(judged: Judged<'a>, pid: &'a [u8], process: Option<Process<'a>>) -> Told<'a> {
    match process {
        Some(process) => {
            let what = Text::whole_in("process ", pid, " has ended");
            let expected = Text::plain("no further line of this process");
            let fault = Fault::new(what, expected, Span::of(0, pid.len()), Page::Checking);
            Told::beside(fault, process.ended, "is its last line")
        }
        None => no_process(judged, pid),
    }
}

// The line of the script that is due, where it agrees with what the program says is due.
fn line_due<'a>(line: Option<Line<'a>>, due: &[u8]) -> Option<Other<'a>> {
    let name = Call::of(Words::of(line?.text)).name();
    let is_end = due == b"exit 0".as_slice() && name == b"end".as_slice();
    if is_end || name == text_at(Words::of(due), 0) {
        others(line, "is the line of the script that is due")
    } else {
        None
    }
}

// Why the kernel can't make this call of a process at all, and what is expected in its place.
fn why_none<'a>(call: &[u8], pid: &'a [u8]) -> (Text<'a>, &'static str) {
    match call {
        b"killed" => {
            let what = Text::whole_in("no signal ends process ", pid, " here");
            (what, "a call of its own, or no line")
        }
        b"fork" | b"msgget" | b"semget" => (
            Text::plain("a kernel can't give this number out here"),
            "a number from 1 on that was never given out before",
        ),
        _ => (
            Text::plain("a kernel can't make this call here"),
            "a call that it can make",
        ),
    }
}

// The kernel can't make the call of a line.
fn no_reply<'a>(line: &'a [u8], entry: Option<Entry<'a>>) -> Fault<'a> {
    let (what, expected) = match entry {
        Some(entry) => why_none(text_at(entry.call, 0), entry.pid),
        None => why_none(b"", b""),
    };
    Fault::new(what, Text::plain(expected), call_span(line), Page::Kernel)
}

// What the kernel's reply to the caller itself says, where it says more than itself.
fn says_of(own: &[u8]) -> &'static str {
    if own == b"parked".as_slice() {
        ": the call waits"
    } else {
        meaning(own).unwrap_or("")
    }
}

// The kernel replies otherwise than a line, whose reply is there or else the whole line.
fn other_reply<'a>(own: &'a [u8], span: Span) -> Fault<'a> {
    let expected = Text::two(Piece::of(Style::Reply, own), Piece::plain(says_of(own)));
    let what = Text::plain("a single kernel replies otherwise here");
    Fault::new(what, expected, span, Page::Kernel)
}

// The kernel wakes others than a line, or with other replies. What the line has of it is there.
fn other_wakes<'a>(wakes: &'a [u8], span: Span) -> Fault<'a> {
    let expected = if wakes.is_empty() {
        Text::plain("nobody is woken, and the line ends behind the node")
    } else {
        Text::one(Piece::of(Style::Reply, wakes))
    };
    let what = Text::plain("a single kernel wakes otherwise here");
    Fault::new(what, expected, span, Page::Kernel)
}

// What stands before the first word that is this one, and from there on: a text between quotes is one word.
fn parted<'a>(told: &'a [u8], mark: &[u8]) -> (&'a [u8], &'a [u8]) {
    for word in Words::of(told) {
        if word.text == mark {
            let (front, rest) = told.split_at(word.start.min(told.len()));
            return (without_blanks(front), rest);
        }
    }
    (told, b"")
}

// What is told where the kernel has this outcome and the line another.
fn another_outcome<'a>(kernel: &'a [u8], line: &'a [u8], entry: Option<Entry<'a>>) -> Fault<'a> {
    let (own, wakes) = parted(kernel, b"wakes");
    let whole = Span::of(0, line.len());
    match entry {
        Some(entry) if text_of_words(line, entry.reply) == own => {
            let behind = Span::of(line.len(), line.len().saturating_add(1));
            other_wakes(wakes, span_of(entry.wakes).unwrap_or(behind))
        }
        Some(entry) => other_reply(own, span_of(entry.reply).unwrap_or(whole)),
        None => other_reply(own, whole),
    }
}

/// What is told where the call comes to something else in the kernel than the trace has: `told` is what it comes to
/// there, `trace`, and what the trace has.
pub fn another_reply<'a>(alloc: Global, judged: Judged<'a>, told: &'a [u8]) -> Finding<'a>
    ensures { result.number ≡ Some judged.entry.number }
{
    let line = judged.line();
    let entry = entry_of(line.text);
    let (kernel, _) = parted(told, b"trace");
    let fault = if kernel == b"none".as_slice() {
        no_reply(line.text, entry)
    } else {
        another_outcome(kernel, line.text, entry)
    };
    Finding::at(alloc, line, fault, None)
}
