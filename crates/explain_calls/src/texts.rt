//! What is wrong with a message's text.

use crate::lists::parted;
use crate::numbers::{Range, number, size_of_character};
use crate::plain::plain_wrong;
use explain_base::{Piece, Span, Style, Text, Word, Wrong};

const REPETITION: &str = "rep:N:C is N times the letter or digit C, as rep:20:a";

fn is_lower_hex(byte: u8) -> bool {
    matches!(byte, b'0'..=b'9' | b'a'..=b'f')
}

// A text without the single quotes at its ends.
fn without_quotes(text: &[u8]) -> &[u8] {
    let from = text.iter().position(|byte| *byte != b'\'');
    let last = text.iter().rposition(|byte| *byte != b'\'');
    match (from, last) {
        (Some(from), Some(last)) => text.get(from..=last).unwrap_or(&[]),
        _ => &[],
    }
}

// A text without quotes as it may stand between them; two dots where that doesn't serve.
fn quotable(text: &[u8]) -> &[u8] {
    let bare = without_quotes(text);
    if bare.len() < 38 && bare.iter().all(|byte| matches!(*byte, b' '..=b'~')) {
        bare
    } else {
        b".."
    }
}

// What is wrong with a text that has no quotes.
fn unquoted(word: Word<'_>) -> Wrong<'_> {
    let why = if word.text.starts_with(b"'") {
        "a text stands between double quotes, and not single ones"
    } else {
        "the text has no quotes"
    };
    let behind = "\", or rep:N:C for N times the byte C";
    let expected = Text::whole_in("\"", quotable(word.text), behind);
    Wrong::new(Text::plain(why), expected, word.span())
}

// What is wrong with bytes behind the quote that closes the text at that place.
fn behind_text(word: Word<'_>, at: usize) -> Option<Wrong<'_>> {
    let next = at.saturating_add(1);
    if next >= word.text.len() {
        return None;
    }
    let quotes = word.text.iter().filter(|byte| **byte == b'"').count();
    let why = if quotes > 2 {
        "a `\"` in a text is written \\x22"
    } else {
        "something stands behind the closing quote"
    };
    let expected = "a blank, or the line's end, behind the text";
    Some(plain_wrong(why, expected, word.part(next, word.text.len())))
}

// How many bytes spell the byte of a text at that place, or what is wrong with it.
fn text_byte(word: Word<'_>, at: usize) -> Result<usize, Wrong<'_>> {
    let rest = word.text.get(at..).unwrap_or(&[]);
    match rest {
        [b'\\', ..] => escape(word, at, rest),
        [first, ..] if !matches!(*first, b' '..=b'~') => Err(unprintable(word, at, rest, *first)),
        _ => Ok(1),
    }
}

// What is wrong with a byte that has to be spelled, which these bytes of the word begin with. A character of UTF-8 is
// shown whole.
fn unprintable<'a>(word: Word<'a>, at: usize, rest: &'a [u8], byte: u8) -> Wrong<'a> {
    let size = size_of_character(byte);
    let character = rest.get(..size).unwrap_or(rest);
    let what = if byte > b'~' {
        "a byte above 0x7e is written with its hexadecimal digits"
    } else {
        "a byte below 0x20 is written with its hexadecimal digits"
    };
    let spelled = Text::one(Piece::of(Style::Spelled, character));
    Wrong::new(
        Text::plain(what),
        spelled,
        word.part(at, at.saturating_add(size)),
    )
}

// The bytes of a text that spell what a backslash before this byte begins in other languages; none where it begins
// nothing.
fn other_escape(letter: u8) -> &'static str {
    match letter {
        b'n' => "\\x0a",
        b't' => "\\x09",
        b'r' => "\\x0d",
        b'0' => "\\x00",
        b'"' => "\\x22",
        b'\\' => "\\x5c",
        _ => "",
    }
}

// The same of an escape, which these bytes of the word begin with.
fn escape<'a>(word: Word<'a>, at: usize, rest: &'a [u8]) -> Result<usize, Wrong<'a>> {
    match rest {
        [_, b'x', high, low, ..] if is_lower_hex(*high) && is_lower_hex(*low) => Ok(4),
        [_, b'x', high, low, ..] if high.is_ascii_hexdigit() && low.is_ascii_hexdigit() => {
            Err(capital_escape(word, at, rest))
        }
        [_, letter, others @ ..] => Err(no_escape(word, at, *letter, others)),
        _ => Err(unlike_escape(word, at, 1)),
    }
}

fn capital_escape<'a>(word: Word<'a>, at: usize, rest: &'a [u8]) -> Wrong<'a> {
    let spelled = Text::one(Piece::of(Style::Lowered, rest.get(..4).unwrap_or(&[])));
    let what = Text::plain("the digits of an escape are in lower case");
    Wrong::new(what, spelled, word.part(at, at.saturating_add(4)))
}

fn unlike_escape(word: Word<'_>, at: usize, size: usize) -> Wrong<'_> {
    plain_wrong(
        "an escape that isn't one",
        "\\xhh with two lower-case hexadecimal digits, as \\x0a",
        word.part(at, at.saturating_add(size)),
    )
}

// How many bytes of a backslash and what follows aren't an escape: the byte behind it, and what follows that.
fn size_of_escape(letter: u8, others: &[u8]) -> usize {
    let digits = others
        .iter()
        .take(2)
        .take_while(|byte| byte.is_ascii_alphanumeric())
        .count();
    let size = if letter == b'x' { digits } else { 0 };
    size.saturating_add(2)
}

// What is wrong with a backslash that begins no escape: the byte behind it, and what follows.
fn no_escape<'a>(word: Word<'a>, at: usize, letter: u8, others: &'a [u8]) -> Wrong<'a> {
    if letter == b'"' && !others.contains(&b'"') {
        let span = word.part(at, at.saturating_add(1));
        return plain_wrong("`\\` is no byte of a text by itself", "\\x5c", span);
    }
    let spelled = other_escape(letter);
    if spelled.is_empty() {
        return unlike_escape(word, at, size_of_escape(letter, others));
    }
    let end = at.saturating_add(2);
    let pair = word.text.get(at..end).unwrap_or(&[]);
    let what = Text::whole_in("`", pair, "` is no escape here");
    Wrong::new(what, Text::plain(spelled), word.part(at, end))
}

// What is wrong with the byte that is repeated.
fn wrong_letter(letter: Word<'_>) -> Option<Wrong<'_>> {
    let what = match letter.text {
        [] => "C is lacking",
        [byte] if byte.is_ascii_alphanumeric() => return None,
        _ => "C is one letter or digit",
    };
    let end = letter.end().max(letter.start.saturating_add(1));
    Some(plain_wrong(what, REPETITION, Span::of(letter.start, end)))
}

// `rep:N:C`, of which this stands behind the first colon.
fn repetition<'a>(word: Word<'a>, behind: Word<'a>) -> Option<Wrong<'a>> {
    match parted(behind, b':') {
        Some((count, letter)) => number(count, Range::of("N", 0, 8192)).or(wrong_letter(letter)),
        None => {
            let what = Text::said(word.text, " has one colon");
            Some(Wrong::new(what, Text::plain(REPETITION), word.span()))
        }
    }
}

/// `rep:N:C`, or bytes between double quotes.
pub fn text(word: Word<'_>) -> Option<Wrong<'_>> {
    if word.text.starts_with(b"rep:")
        && let Some((_, behind)) = parted(word, b':')
    {
        repetition(word, behind)
    } else if word.text.starts_with(b"\"") {
        quoted(word)
    } else {
        Some(unquoted(word))
    }
}

// A text that begins with a double quote.
fn quoted(word: Word<'_>) -> Option<Wrong<'_>> {
    // the bytes of an escape that are passed over
    let mut passed = 0usize;
    for (at, byte) in word.text.iter().enumerate().skip(1) {
        if passed > 0 {
            passed -= 1;
            continue;
        }
        if *byte == b'"' {
            return behind_text(word, at);
        }
        match text_byte(word, at) {
            Ok(size) => passed = size.saturating_sub(1),
            Err(wrong) => return Some(wrong),
        }
    }
    let what = "the text has no closing quote on its line";
    Some(plain_wrong(what, "X ends with a double quote", word.part(0, 1)))
}
