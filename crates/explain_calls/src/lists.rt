//! What is wrong with values joined by commas, with an operation on a semaphore, and with a word of some.

use crate::numbers::{Range, number};
use crate::plain::plain_wrong;
use explain_base::{Nearest, Piece, Text, Word, Wrong};

/// Nothing stands at a comma where something should.
pub fn lone_comma<'a>(
    word: Word<'a>,
    at: usize,
    is_followed: bool,
    example: &'static str,
) -> Wrong<'a> {
    let mark = at.saturating_sub(1);
    let (what, front) = if at == word.text.len() && is_followed {
        ("no blank stands behind a comma", "one word, as ")
    } else {
        (
            "nothing stands on one side of a comma",
            "values on both, as ",
        )
    };
    let expected = Text::two(Piece::plain(front), Piece::plain(example));
    Wrong::new(
        Text::plain(what),
        expected,
        word.part(mark, mark.saturating_add(1)),
    )
}

/// Values joined by commas. Whether a further word follows tells of a blank behind a comma.
pub fn values(word: Word<'_>, is_followed: bool) -> Option<Wrong<'_>> {
    let mut at = 0usize;
    for text in word.text.split(|byte| *byte == b',') {
        if text.is_empty() {
            return Some(lone_comma(word, at, is_followed, "1,0,2"));
        }
        let start = word.start.saturating_add(at);
        let wrong = number(Word { text, start }, Range::of("V", 0, 65535));
        if wrong.is_some() {
            return wrong;
        }
        at = at.saturating_add(text.len()).saturating_add(1);
    }
    None
}

/// Two parts of a word on either side of the first byte that is this one.
pub fn parted(word: Word<'_>, by: u8) -> Option<(Word<'_>, Word<'_>)> {
    let size = word.text.iter().position(|byte| *byte == by)?;
    let (text, behind) = word.text.split_at(size);
    let first = Word {
        text,
        start: word.start,
    };
    let second = Word {
        text: match behind {
            [_, others @ ..] => others,
            [] => &[],
        },
        start: word.start.saturating_add(size).saturating_add(1),
    };
    Some((first, second))
}

const OPERATION: &str = "an operation is I:V or I:V:nowait, as 0:-1:nowait";

// What is wrong with what stands behind the second colon.
fn behind_colons<'a>(word: Word<'a>, tail: Word<'a>) -> Option<Wrong<'a>> {
    if tail.text == b"nowait".as_slice() {
        return None;
    }
    let at = tail.start.saturating_sub(word.start);
    let from = if tail.text.is_empty() {
        at.saturating_sub(1)
    } else {
        at
    };
    let span = word.part(from, word.text.len());
    Some(plain_wrong(
        "only `nowait` stands behind a second colon",
        OPERATION,
        span,
    ))
}

// What is wrong behind the first colon.
fn behind_index<'a>(word: Word<'a>, rest: Word<'a>) -> Option<Wrong<'a>> {
    let range = Range::of("V", -65535, 65535);
    match parted(rest, b':') {
        None => number(rest, range),
        Some((value, tail)) => number(value, range).or(behind_colons(word, tail)),
    }
}

// What is told of a word that has no colon.
fn no_operation(text: &[u8]) -> Text<'_> {
    if text == b"nowait".as_slice() {
        Text::plain("`nowait` belongs to an operation, with no blank before it")
    } else {
        Text::said(text, " has no colon")
    }
}

/// `I:V` or `I:V:nowait`.
pub fn operation(word: Word<'_>) -> Option<Wrong<'_>> {
    match parted(word, b':') {
        Some((index, rest)) => number(index, Range::of("I", 0, 65535)).or(behind_index(word, rest)),
        None => Some(Wrong::new(no_operation(word.text), Text::plain(OPERATION), word.span())),
    }
}

/// Whether bytes are one of these words.
pub fn is_among(text: &[u8], words: &[&str]) -> bool {
    for word in words {
        if word.as_bytes() == text {
            return true;
        }
    }
    false
}

/// The word of these that bytes are but for capitals.
pub fn but_for_capitals(text: &[u8], words: &'static [&'static str]) -> Option<&'static str> {
    for word in words {
        if word.as_bytes().eq_ignore_ascii_case(text) {
            return Some(word);
        }
    }
    None
}

/// A word of some, which this text lists.
pub fn one_of<'a>(
    word: Word<'a>,
    choices: &'static [&'static str],
    listed: &'static str,
) -> Option<Wrong<'a>> {
    if is_among(word.text, choices) {
        return None;
    }
    let what = Text::said(word.text, " is none of the words that may stand here");
    let near = Nearest::told(word.text, choices, Text::plain(listed));
    Some(Wrong::new(what, near, word.span()))
}
