//! What is wrong with the words behind a call's name.

use crate::forms::Form;
use crate::needs::{Need, OPERATION};
use crate::plain::plain_wrong;
use explain_base::{Fault, Nearest, Piece, Span, Text, Word, Words, Wrong};

/// The first of the words behind a call's name that isn't in order, from the left; the line ends at that byte.
pub fn fault_of<'a>(
    form: &'static Form,
    words: Words<'a>,
    end: usize,
    in_trace: bool,
) -> Option<Fault<'a>> {
    let needed = wrong_needed(form, words, end, in_trace);
    let wrong = needed.or(wrong_behind(form, words.behind(form.needs.len())))?;
    Some(wrong.fault(form.text, form.page()))
}

// The first of the words that must be there that isn't in order.
fn wrong_needed<'a>(
    form: &'static Form,
    words: Words<'a>,
    end: usize,
    in_trace: bool,
) -> Option<Wrong<'a>> {
    let mut left = words;
    for need in form.needs {
        let wrong = match left.next() {
            Some(word) => wrong_word(*need, word, !left.is_empty(), in_trace),
            None => Some(lacks(form.call, *need, end)),
        };
        if wrong.is_some() {
            return wrong;
        }
    }
    None
}

// What is wrong with a word where the call stands.
fn wrong_word(need: Need, word: Word<'_>, is_followed: bool, in_trace: bool) -> Option<Wrong<'_>> {
    if in_trace {
        need.wrong_in_trace(word, is_followed)
    } else {
        need.wrong(word, is_followed)
    }
}

// A word that must be there isn't.
fn lacks<'a>(call: &'static str, need: Need, end: usize) -> Wrong<'a> {
    let what = Text::four(
        Piece::plain("`"),
        Piece::plain(call),
        Piece::plain("` lacks "),
        Piece::plain(need.called),
    );
    let span = Span::of(end.saturating_add(1), end.saturating_add(2));
    Wrong::new(what, Text::plain(need.lacking), span)
}

// The first word behind those that must be there that isn't in order.
fn wrong_behind<'a>(form: &'static Form, words: Words<'a>) -> Option<Wrong<'a>> {
    if form.behind.are_operations {
        further(words)
    } else {
        excess(form, words)
    }
}

// The first of the further operations that isn't in order.
fn further(words: Words<'_>) -> Option<Wrong<'_>> {
    for word in words {
        let wrong = OPERATION.wrong(word, false);
        if wrong.is_some() {
            return wrong;
        }
    }
    None
}

// The place of a word among the flags from one of them on.
fn place_of(word: &[u8], flags: &[&str], from: usize) -> Option<usize> {
    for (place, flag) in flags.iter().enumerate() {
        if place >= from && flag.as_bytes() == word {
            return Some(place);
        }
    }
    None
}

// The first word that isn't one of those that may follow, in their order.
fn excess<'a>(form: &'static Form, words: Words<'a>) -> Option<Wrong<'a>> {
    let mut from = 0;
    for word in words {
        match place_of(word.text, form.behind.words, from) {
            Some(place) => from = place.saturating_add(1),
            None => return Some(too_much(form, word)),
        }
    }
    None
}

// What may follow, or that nothing may.
fn may<'a>(form: &'static Form) -> Text<'a> {
    if form.behind.words.is_empty() {
        Text::three(
            Piece::plain("`"),
            Piece::plain(form.call),
            Piece::plain("` ends here"),
        )
    } else {
        Text::plain(form.behind.told)
    }
}

// What is told of a word that could stand at no line's end, and what is expected.
fn never_there(text: &[u8]) -> Option<(&'static str, &'static str)> {
    if text.starts_with(b"#") {
        Some(("a comment has a line of its own", "the line ends here"))
    } else if text.starts_with(b",") {
        Some(("no blank stands before a comma", "one word"))
    } else {
        None
    }
}

fn too_much<'a>(form: &'static Form, word: Word<'a>) -> Wrong<'a> {
    if let Some((what, expected)) = never_there(word.text) {
        return plain_wrong(what, expected, word.span());
    }
    let is_flag = place_of(word.text, form.behind.words, 0).is_some();
    let (what, expected) = if is_flag {
        let what = Text::whole_in("`", word.text, "` stands once, and in its order");
        (what, may(form))
    } else {
        let near = Nearest::told(word.text, form.behind.words, may(form));
        (Text::said(word.text, " is too much here"), near)
    };
    Wrong::new(what, expected, word.span())
}
