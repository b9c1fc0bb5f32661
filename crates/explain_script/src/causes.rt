//! Faults of the words of a line.

use crate::blocks::{bad_end, end_of};
use crate::reading::line_naming;
use crate::refused::Cause;
use crate::spoken::{in_place_of, of_other_queues, setting};
use explain_base::{Fault, Nearest, Page, Piece, Span, Text, Word, Wrong};
use explain_calls::{
    Call, FRONT_FORM, Form, Queues, Told, block_name, but_for_capitals, fault_of, front_fault,
    is_call, is_variable, plain_wrong,
};

// The parts of a word on either side of its first byte that is this one.
fn cut(text: &[u8], by: u8) -> Option<(&[u8], &[u8])> {
    let size = text.iter().position(|byte| *byte == by)?;
    match text.split_at(size) {
        (front, [_, rest @ ..]) => Some((front, rest)),
        _ => None,
    }
}

// A variable that is set with no blank at its `=`.
fn glued(word: Word<'_>) -> Option<Wrong<'_>> {
    let (front, rest) = cut(word.text, b'=')?;
    let name = match front {
        [b'$', name @ ..] => name,
        name => name,
    };
    if !is_variable(name) {
        return None;
    }
    let between = if rest.is_empty() { " =" } else { " = " };
    let expected = Text::three(
        Piece::whole(name),
        Piece::plain(between),
        Piece::whole(rest),
    );
    Some(Wrong::new(
        Text::plain("`=` stands between blanks"),
        expected,
        word.span(),
    ))
}

// Whether a word is like one that ends a block.
fn is_like_end(text: &[u8]) -> bool {
    text == b"end;".as_slice() || text == b"end.".as_slice() || text.eq_ignore_ascii_case(b"end")
}

// A word that has to do with blocks, or a lone `=`.
fn block_word(queues: Queues, word: Word<'_>) -> Option<Wrong<'_>> {
    if is_like_end(word.text) {
        let what = Text::said(word.text, " doesn't end a block");
        return Some(Wrong::new(what, Text::plain("end"), word.span()));
    }
    let (what, expected) = if word.text == b"=".as_slice() {
        ("a variable stands before `=`", setting(queues))
    } else if word.text.eq_ignore_ascii_case(b"proc") {
        ("`proc` is in small letters", "proc")
    } else if word.text == b"killed".as_slice() {
        let what = "`killed` stands in traces: it is no call that a script makes";
        (what, "kill P G ends another process")
    } else {
        return None;
    };
    Some(plain_wrong(what, expected, word.span()))
}

// A call that is written as in other languages.
fn with_brackets(queues: Queues, word: Word<'_>) -> Option<Wrong<'_>> {
    let (name, _) = cut(word.text, b'(')?;
    let otherwise = Nearest::told(word.text, queues.names(), Text::plain(queues.calls()));
    let what = "a call has no brackets: its words stand behind it, with blanks between";
    let near = Nearest::told(name, queues.names(), otherwise);
    Some(Wrong::new(Text::plain(what), near, word.span()))
}

// A word that is like a call's name.
fn like_a_call(queues: Queues, word: Word<'_>) -> Option<Wrong<'_>> {
    if let Some(name) = but_for_capitals(word.text, queues.names()) {
        return Some(plain_wrong("a call's name is in small letters", name, word.span()));
    }
    if let Some(name) = in_place_of(queues, word.text) {
        let is_none = Text::said(word.text, " is no call");
        return Some(Wrong::new(is_none, Text::plain(name), word.span()));
    }
    with_brackets(queues, word)
}

// What is expected in place of a word that is like no call; whether it is all that stands there.
fn call_due(queues: Queues, word: Word<'_>, is_alone: bool) -> Text<'_> {
    if is_alone && is_variable(word.text) {
        let front = Piece::plain("VAR = CALL sets a variable, ");
        return Text::two(front, Piece::plain(setting(queues)));
    }
    Nearest::told(word.text, queues.names(), Text::plain(queues.calls()))
}

// A word that is like none.
fn unlike_call(queues: Queues, word: Word<'_>, is_alone: bool) -> Wrong<'_> {
    let what = Text::said(word.text, " is no call");
    Wrong::new(what, call_due(queues, word, is_alone), word.span())
}

// `try` with a call in the place of its number, so that the word behind that call's name stands for a name.
fn tries_lacking(cause: Cause<'_>) -> Option<Fault<'_>> {
    let tries = Call::of(cause.words()).tries?;
    if is_call(tries.text) {
        front_fault(cause.words())
    } else {
        None
    }
}

/// A word in the place of a call's name that is none.
pub fn unknown_call<'a>(cause: Cause<'a>, first: Word<'a>) -> Fault<'a> {
    if let Some(fault) = tries_lacking(cause) {
        return fault;
    }
    let queues = cause.queues;
    let call = Call::of(cause.words());
    let word = call.words.get(0).unwrap_or(first);
    if let Some(wrong) = of_other_queues(queues, word) {
        return wrong.fault(FRONT_FORM, Page::Queues);
    }
    let like = glued(word)
        .or(block_word(queues, word))
        .or(like_a_call(queues, word));
    let unlike = unlike_call(queues, word, call.words.get(1).is_none());
    like.unwrap_or(unlike).fault(FRONT_FORM, queues.page())
}

/// Words of a line that aren't in order.
pub fn bad_argument<'a>(cause: Cause<'a>, first: Word<'a>) -> Told<'a> {
    match first.text {
        b"proc" => bad_proc(cause, first),
        b"end" => Told::alone(bad_end(cause)),
        _ => match bad_call(cause, first) {
            Some(fault) => Told::alone(fault),
            None => behind_exit(cause, first),
        },
    }
}

// What is wrong with a call line by itself.
fn bad_call<'a>(cause: Cause<'a>, first: Word<'a>) -> Option<Fault<'a>> {
    let call = Call::of(cause.words());
    let front = front_fault(cause.words());
    match call.words.get(0) {
        Some(name) => front.or(unlike_form(cause, call, first, name)),
        None => front.or(Some(no_call(cause))),
    }
}

// The line ends before its call.
fn no_call(cause: Cause<'_>) -> Fault<'_> {
    let end = end_of(cause.line);
    let span = Span::of(end.saturating_add(1), end.saturating_add(2));
    let wrong = plain_wrong("the line ends before its call", cause.queues.calls(), span);
    wrong.fault(FRONT_FORM, cause.queues.page())
}

// What is wrong with a call and what is in front of it.
fn unlike_form<'a>(
    cause: Cause<'a>,
    call: Call<'a>,
    first: Word<'a>,
    name: Word<'a>,
) -> Option<Fault<'a>> {
    let words = call.words.behind(1);
    match Form::of(cause.queues, name.text, words) {
        Some(form) => adorned(call, first).or(fault_of(form, words, end_of(cause.line), false)),
        None => {
            // a call that the program knows and this page doesn't
            let what = Text::said_in("the words behind ", name.text, " aren't those of its form");
            let span = Span::of(name.start, cause.end());
            Some(Fault::new(what, Text::none(), span, Page::CallLines))
        }
    }
}

// What is in front of a call that goes with nothing there.
fn adorned<'a>(call: Call<'a>, first: Word<'a>) -> Option<Fault<'a>> {
    match call.name() {
        b"fork" => Some(tried_fork(call.tries?)),
        b"exit" => Some(adorned_exit(call.sets.or(call.tries)?, call.sets.is_some(), first)),
        _ => None,
    }
}

fn tried_fork(tries: Word<'_>) -> Fault<'_> {
    let span = Span::of(tries.start.saturating_sub(4), tries.end());
    let wrong = plain_wrong("`try` doesn't go with `fork`", "fork NAME by itself", span);
    wrong.fault("[VAR =] fork NAME", Page::CallLines)
}

fn adorned_exit<'a>(last: Word<'a>, is_set: bool, first: Word<'a>) -> Fault<'a> {
    let what = if is_set {
        "`VAR =` doesn't go with `exit`, which has no reply"
    } else {
        "`try` doesn't go with `exit`, which has no reply"
    };
    let wrong = plain_wrong(what, "exit N by itself", Span::of(first.start, last.end()));
    wrong.fault("exit N", Page::CallLines)
}

// A call behind the block's `exit`.
fn behind_exit<'a>(cause: Cause<'a>, first: Word<'a>) -> Told<'a> {
    let name = Call::of(cause.words()).words.get(0).unwrap_or(first);
    let what = "no call stands behind `exit` in its block";
    let wrong = plain_wrong(what, "a line `end`", Span::of(name.start, cause.end()));
    Told::beside(
        wrong.fault("", Page::Blocks),
        cause.reading.exit(),
        "ends the process",
    )
}

// A word behind the name of a block.
fn behind_name<'a>(cause: Cause<'a>) -> Option<Wrong<'a>> {
    let third = cause.words().get(2)?;
    let what = if third.text.starts_with(b"#") {
        Text::plain("a comment has a line of its own")
    } else {
        Text::said(third.text, " is too much here")
    };
    Some(Wrong::new(
        what,
        Text::plain("the line ends here"),
        cause.words_from(third),
    ))
}

// What is wrong with the words of a line `proc`, if it isn't that another block has the name.
fn wrong_proc<'a>(cause: Cause<'a>, first: Word<'a>) -> Option<Wrong<'a>> {
    match cause.words().get(1) {
        Some(name) => block_name(name).or(behind_name(cause)),
        None => {
            let what = "`proc` lacks the name of its block";
            Some(plain_wrong(what, "a name, as main", first.behind()))
        }
    }
}

// Another block has the name.
fn second_name<'a>(name: Word<'a>) -> Wrong<'a> {
    let what = Text::said_in("a second block has the name ", name.text, "");
    Wrong::new(what, Text::plain("another name"), name.span())
}

fn bad_proc<'a>(cause: Cause<'a>, first: Word<'a>) -> Told<'a> {
    if let Some(wrong) = wrong_proc(cause, first) {
        return Told::alone(wrong.fault("proc NAME", Page::Blocks));
    }
    let name = cause.words().get(1).unwrap_or(first);
    let fault = second_name(name).fault("proc NAME", Page::Blocks);
    Told::beside(fault, line_naming(cause.script, name.text), "has it first")
}
