//! What is wrong with the text of one line of a trace, which has to be just as the program writes it.

use crate::entry::{are, before, by_in, sign_in};
use crate::replies::{wrong_order, wrong_own, wrong_spelling};
use crate::wakes::wrong_wakes;
use explain_base::{Fault, Lines, Nearest, Page, Piece, Span, Style, Text, Word, Words, Wrong};
use explain_calls::{
    Form, GREATEST, Queues, Range, fault_of, is_variable, number, plain_wrong, signal, text_at,
};

/// How a line of a trace is written.
pub const FORM: &str = "PID CALL = REPLY by NODE [wakes PID REPLY ..]";

/// The name of a block that a line `proc` begins; nothing where it begins none.
fn begun_by(line: &[u8]) -> Option<&[u8]> {
    let words = Words::of(line);
    if text_at(words, 0) == b"proc".as_slice() {
        Some(text_at(words, 1))
    } else {
        None
    }
}

/// How many blocks a script has.
pub fn blocks_of(script: &[u8]) -> usize {
    let mut count = 0usize;
    for line in Lines::of(script) {
        if begun_by(line.text).is_some() {
            count = count.saturating_add(1);
        }
    }
    count
}

// Whether a script has a block of this name.
fn has_block(script: &[u8], name: &[u8]) -> bool {
    for line in Lines::of(script) {
        if begun_by(line.text) == Some(name) {
            return true;
        }
    }
    false
}

/// Words are parted by one space, with none at either end.
pub fn wrong_blanks(line: &[u8]) -> Option<Wrong<'_>> {
    let mut end = 0;
    for word in Words::of(line) {
        let span = Span::of(end, word.start);
        let is_first = end == 0;
        if !parts(line.get(end..word.start).unwrap_or(&[]), is_first) {
            return Some(blanks(line, span));
        }
        end = word.end();
    }
    if end < line.len() {
        let span = Span::of(end, line.len());
        Some(plain_wrong("a blank stands at the line's end", "no blank", span))
    } else {
        None
    }
}

// Whether these blanks stand before a word of a trace, which may be the first.
fn parts(blanks: &[u8], is_first: bool) -> bool {
    if is_first {
        blanks.is_empty()
    } else {
        blanks == b" ".as_slice()
    }
}

fn blanks<'a>(line: &'a [u8], span: Span) -> Wrong<'a> {
    let between = line.get(span.start..span.end).unwrap_or(&[]);
    let (what, expected) = if span.start == 0 {
        ("a blank begins the line", "no blank")
    } else if between.contains(&b'\t') {
        ("a tab parts two words", "one space")
    } else {
        ("two blanks part two words", "one space")
    };
    plain_wrong(what, expected, span)
}

// A line that lacks something behind its last word.
fn lacks<'a>(line: &'a [u8], what: &'static str, expected: &'static str) -> Wrong<'a> {
    let span = match Words::of(line).last() {
        Some(last) => last.behind(),
        None => Span::of(0, 1),
    };
    plain_wrong(what, expected, span)
}

// What is wrong with the word that a line begins with.
fn wrong_pid(first: Word<'_>) -> Option<Wrong<'_>> {
    let wrong = number(first, Range::of("PID", 0, GREATEST))?;
    let begins = Text::plain("a line begins with its process's number");
    Some(Wrong::new(wrong.what, begins, wrong.span))
}

/// The first thing that is wrong with a line, in a trace of this script.
pub fn entry_fault<'a>(script: &'a [u8], line: &'a [u8]) -> Option<Fault<'a>> {
    let first = Words::of(line).get(0)?;
    let front = wrong_blanks(line).or(wrong_pid(first));
    match front {
        Some(wrong) => Some(wrong.fault(FORM, Page::Trace)),
        None => behind_pid(script, line),
    }
}

// What is wrong behind the process's number.
fn behind_pid<'a>(script: &'a [u8], line: &'a [u8]) -> Option<Fault<'a>> {
    match sign_in(line) {
        Some((place, sign)) => {
            let call = wrong_call(script, before(line, sign).behind(1), sign);
            call.or(behind_call(script, line, place))
        }
        None => {
            let wrong = lacks(line, "the line has no `=` before a reply", "= REPLY");
            Some(wrong.fault(FORM, Page::Trace))
        }
    }
}

// What is wrong behind the sign, which is the word at that place.
fn behind_call<'a>(script: &'a [u8], line: &'a [u8], place: usize) -> Option<Fault<'a>> {
    match by_in(line, place) {
        Some((by, behind)) if !behind.is_empty() => {
            let reply = before(line, by).behind(place.saturating_add(1));
            wrong_own(reply, by).or(wrong_behind(script, behind))
        }
        _ => {
            let what = "the line doesn't end with the node that carried the call out";
            Some(lacks(line, what, "by NODE").fault(FORM, Page::Trace))
        }
    }
}

// What is wrong with the node, and with the callers that are woken.
fn wrong_behind<'a>(script: &'a [u8], words: Words<'a>) -> Option<Fault<'a>> {
    let node = words.get(0)?;
    wrong_node(script, node).or(wrong_wakes(words.behind(1)))
}

// What is wrong with the words before the sign and behind the process's number.
fn wrong_call<'a>(script: &'a [u8], words: Words<'a>, sign: Word<'a>) -> Option<Fault<'a>> {
    match words.get(0) {
        Some(first) if first.text == b"killed".as_slice() => wrong_end(words, first),
        Some(first) if first.text == b"withdraw".as_slice() => wrong_withdrawal(words, first),
        Some(first) => wrong_words(script, words, first, sign.start.saturating_sub(1)),
        None => {
            let wrong = plain_wrong("the line has no call", Queues::SystemV.calls(), sign.span());
            Some(wrong.fault(FORM, Page::Trace))
        }
    }
}

// What is wrong with the words of a call, which end at that byte.
fn wrong_words<'a>(
    script: &'a [u8],
    words: Words<'a>,
    first: Word<'a>,
    end: usize,
) -> Option<Fault<'a>> {
    match Form::of(Queues::SystemV, first.text, words.behind(1)) {
        Some(form) => on_page(fault_of(form, words.behind(1), end, true)).or(unlike(script, words)),
        None => Some(unlike_call(first, words.get(1).is_none()).fault(FORM, Page::Trace)),
    }
}

// A fault of which the traces' page tells.
fn on_page(fault: Option<Fault<'_>>) -> Option<Fault<'_>> {
    let fault = fault?;
    Some(Fault {
        wrong: fault.wrong,
        form: fault.form,
        page: Page::Trace,
    })
}

// What is wrong with a word that a trace spells in one way, or that has to name a block.
fn unlike<'a>(script: &'a [u8], words: Words<'a>) -> Option<Fault<'a>> {
    match text_at(words, 0) {
        b"fork" => wrong_block(script, words.get(1)?),
        b"msgsnd" => wrong_spelling(words.get(3)?),
        b"sigprocmask" => wrong_order(words.get(2)?),
        _ => None,
    }
}

// What is wrong with the words of an end by a signal.
fn wrong_end<'a>(words: Words<'a>, first: Word<'a>) -> Option<Fault<'a>> {
    let last = words.last().unwrap_or(first);
    let wrong = if are(words, 2) {
        signal(last)?
    } else {
        plain_wrong("`killed` has one signal behind it", "killed G", last.span())
    };
    Some(wrong.fault("killed G", Page::Trace))
}

// How a withdrawal is written.
const WITHDRAWAL: &str = "withdraw msg Q | withdraw sem S | withdraw proc P";

// What is wrong with the words of a withdrawal.
fn wrong_withdrawal<'a>(words: Words<'a>, first: Word<'a>) -> Option<Fault<'a>> {
    let last = words.last().unwrap_or(first);
    let wrong = if !are(words, 3) {
        plain_wrong(
            "`withdraw` names where the process waits",
            "a word and a number",
            last.span(),
        )
    } else {
        wrong_place(words)?
    };
    Some(wrong.fault(WITHDRAWAL, Page::Trace))
}

// What is wrong with the words of the place where a process waits.
fn wrong_place<'a>(words: Words<'a>) -> Option<Wrong<'a>> {
    let kind = words.get(1)?;
    match kind.text {
        b"msg" | b"sem" | b"proc" => number(words.get(2)?, Range::of("N", 0, GREATEST)),
        _ => Some(plain_wrong("no process waits at this", "msg, sem or proc", kind.span())),
    }
}

fn wrong_block<'a>(script: &'a [u8], name: Word<'a>) -> Option<Fault<'a>> {
    if has_block(script, name.text) {
        return None;
    }
    let wrong = Wrong::new(
        Text::said_in("the script has no block ", name.text, ""),
        Text::plain("the name of a block"),
        name.span(),
    );
    Some(wrong.fault("fork NAME", Page::Trace))
}

// What is wrong with a word that is no call's name; whether it is all that stands there.
fn unlike_call(first: Word<'_>, is_alone: bool) -> Wrong<'_> {
    let call = "the call with its numbers";
    let what = if first.text == b"try".as_slice() {
        "a trace has each try in a line of its own, without `try N`"
    } else if is_alone && is_variable(first.text) {
        "a trace has no variables"
    } else {
        let near = Nearest::told(first.text, Queues::SystemV.names(), Text::plain(call));
        return Wrong::new(Text::said(first.text, " is no call"), near, first.span());
    };
    plain_wrong(what, call, first.span())
}

fn wrong_node<'a>(script: &'a [u8], word: Word<'a>) -> Option<Fault<'a>> {
    let wrong = number(word, Range::of("NODE", 1, 32))?;
    let has = Text::four(
        wrong.expected.first,
        wrong.expected.second,
        Piece::plain("; this script has "),
        Piece::counted(Style::Nodes, &[], blocks_of(script)),
    );
    Some(Wrong::new(wrong.what, has, wrong.span).fault(FORM, Page::Trace))
}
