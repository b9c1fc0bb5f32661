//! What is wrong with a signal's name, and with a set of them.

use crate::lists::{but_for_capitals, is_among, lone_comma};
use explain_base::{Piece, SIGNALS, Text, Word, Wrong};

static NO_OTHERS: [&str; 0] = [];

const ONE_OF: &str = "G is one of HUP, INT, QUIT, KILL, USR1, USR2, PIPE, ALRM, TERM, CHLD";

// The name of a signal, whatever its letters are.
fn named(bytes: &[u8]) -> Option<&'static str> {
    but_for_capitals(bytes, &SIGNALS)
}

// What follows `SIG`, whatever its letters are.
fn behind_sig(bytes: &[u8]) -> Option<&[u8]> {
    match bytes {
        [b's' | b'S', b'i' | b'I', b'g' | b'G', rest @ ..] => Some(rest),
        _ => None,
    }
}

// What is told of a word that is a signal's name but for capitals, or but for SIG before it.
fn unlike_name(text: &[u8]) -> Option<(&'static str, &'static str)> {
    match behind_sig(text) {
        Some(bare) => Some(("a signal's name has no SIG before it", named(bare)?)),
        None => Some(("a signal's name is in capitals", named(text)?)),
    }
}

// What is wrong with a word that is none of the signals; others may stand there, too.
fn no_signal<'a>(word: Word<'a>, others: &'static str) -> Wrong<'a> {
    if let Some((what, name)) = unlike_name(word.text) {
        let expected = Text::two(Piece::plain("G is "), Piece::plain(name));
        return Wrong::new(Text::plain(what), expected, word.span());
    }
    let what = if word.text.iter().all(|byte| byte.is_ascii_digit()) {
        Text::plain("a signal is named, and has no number here")
    } else {
        Text::said(word.text, " is no signal of this system")
    };
    let listed = Text::two(Piece::plain(ONE_OF), Piece::plain(others));
    Wrong::new(what, listed, word.span())
}

/// Whether bytes are the name of a signal.
pub fn is_signal(bytes: &[u8]) -> bool {
    is_among(bytes, &SIGNALS)
}

/// The name of a signal.
pub fn signal(word: Word<'_>) -> Option<Wrong<'_>> {
    signal_or(word, &NO_OTHERS, "")
}

/// The name of a signal, or one of the other words, which this text lists.
pub fn signal_or<'a>(
    word: Word<'a>,
    others: &'static [&'static str],
    listed: &'static str,
) -> Option<Wrong<'a>> {
    if is_signal(word.text) || is_among(word.text, others) {
        None
    } else {
        Some(no_signal(word, listed))
    }
}

// Whether a part of a set stands in it before that number of parts.
fn stands_before(set: &[u8], part: &[u8], number: usize) -> bool {
    let mut before = set.split(|byte| *byte == b',').take(number);
    before.any(|it| it == part)
}

// What is wrong with one signal of a set, which is the word's part of that number.
fn member<'a>(word: Word<'a>, part: Word<'a>, number: usize) -> Option<Wrong<'a>> {
    let what = if part.text == b"none".as_slice() {
        Text::plain("`none` stands alone")
    } else if let Some(wrong) = signal(part) {
        return Some(wrong);
    } else if stands_before(word.text, part.text, number) {
        Text::whole_in("", part.text, " stands twice")
    } else {
        return None;
    };
    let expected = Text::plain("M is `none`, or different signals joined by commas");
    Some(Wrong::new(what, expected, part.span()))
}

/// `none`, or different signals joined by commas. Whether a further word follows tells of a blank behind a comma.
pub fn signal_set(word: Word<'_>, is_followed: bool) -> Option<Wrong<'_>> {
    if word.text == b"none".as_slice() {
        return None;
    }
    let mut at = 0usize;
    for (number, text) in word.text.split(|byte| *byte == b',').enumerate() {
        if text.is_empty() {
            return Some(lone_comma(word, at, is_followed, "USR1,TERM"));
        }
        let start = word.start.saturating_add(at);
        let wrong = member(word, Word { text, start }, number);
        if wrong.is_some() {
            return wrong;
        }
        at = at.saturating_add(text.len()).saturating_add(1);
    }
    None
}
