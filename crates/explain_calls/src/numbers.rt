//! What is wrong with a number, a variable, a process's or an object's number, a key and a block's name.
ghost use Rattle.std.specs.Prelude.{◌≤◌, IsTrue, length};

use crate::plain::plain_wrong;
use explain_base::{Nearest, Piece, Span, Style, Text, Word, Wrong};

/// The greatest number of a process, a queue, a set and a key.
pub const GREATEST: i64 = 4294967295;

// The greatest number in the name of a POSIX message queue.
const MOST_NAMED: i64 = 1000000;

static PRIVATE: [&str; 1] = ["private"];

/// Which numbers may stand in the place of this name.
#[derive(Clone, Copy)]
pub struct Range {
    pub name: &'static str,
    pub low: i64,
    pub high: i64,
}

impl Range {
    pub fn of(name: &'static str, low: i64, high: i64) -> Self {
        Range { name, low, high }
    }

    fn piece<'a>(self) -> Piece<'a> {
        Piece::range(self.name, self.low, self.high)
    }
}

// Whether bytes are digits, and there is one.
fn are_digits(bytes: &[u8]) -> bool {
    !bytes.is_empty() && bytes.iter().all(|byte| byte.is_ascii_digit())
}

// Whether bytes are a number of base 16 with its mark in front.
fn are_hexadecimal(bytes: &[u8]) -> bool {
    match bytes {
        [b'0', b'x' | b'X', first, others @ ..] => {
            first.is_ascii_hexdigit() && others.iter().all(|byte| byte.is_ascii_hexdigit())
        }
        _ => false,
    }
}

// The value of digits; the greatest one where they are many.
fn value_of(digits: &[u8]) -> i64 {
    let mut value = 0i64;
    for digit in digits {
        value = value
            .saturating_mul(10)
            .saturating_add(i64::from(digit.saturating_sub(b'0')));
    }
    value
}

/// The number that digits are, as far as it can be counted; none where these aren't digits.
pub fn count_of(digits: &[u8]) -> Option<usize> {
    if !are_digits(digits) {
        return None;
    }
    let mut value = 0usize;
    for digit in digits {
        value = value
            .saturating_mul(10)
            .saturating_add(usize::from(digit.saturating_sub(b'0')));
    }
    Some(value)
}

fn without_sign(bytes: &[u8]) -> &[u8] {
    match bytes {
        [b'-', digits @ ..] => digits,
        digits => digits,
    }
}

// What is wrong with the spelling of a number.
fn misspelled(text: &[u8]) -> Option<Text<'_>> {
    let digits = without_sign(text);
    let what = if text.starts_with(b"+") {
        "a number has no `+`"
    } else if are_hexadecimal(digits) {
        "numbers are decimal"
    } else if text.is_empty() {
        "a number is lacking"
    } else if text == b"-0".as_slice() {
        "0 has no sign"
    } else {
        return unlike_digits(text, digits);
    };
    Some(Text::plain(what))
}

// The same of what is told behind the number.
fn unlike_digits<'a>(text: &'a [u8], digits: &[u8]) -> Option<Text<'a>> {
    let behind = if !are_digits(digits) {
        " is no number"
    } else if digits.len() > 1 && digits.starts_with(b"0") {
        " begins with a zero, and a number has one spelling"
    } else {
        return None;
    };
    Some(Text::said(text, behind))
}

// A variable stands where it can't.
fn no_variable_here<'a>(word: Word<'a>, range: Range) -> Wrong<'a> {
    let behind = Piece::plain("; variables stand for processes, queues and sets alone");
    let expected = Text::two(range.piece(), behind);
    Wrong::new(
        Text::plain("a variable can't stand here"),
        expected,
        word.span(),
    )
}

/// A decimal number in its one spelling, of this range.
pub fn number<'a>(word: Word<'a>, range: Range) -> Option<Wrong<'a>> {
    if word.text.starts_with(b"$") {
        return Some(no_variable_here(word, range));
    }
    let what = misspelled(word.text).or(out_of_range(word, range))?;
    Some(Wrong::new(what, Text::one(range.piece()), word.span()))
}

// What is told of a number that is too great or too small.
fn out_of_range<'a>(word: Word<'a>, range: Range) -> Option<Text<'a>> {
    let size = value_of(without_sign(word.text));
    let value = if word.text.starts_with(b"-") {
        0i64.saturating_sub(size)
    } else {
        size
    };
    let (first, behind, bound) = if value > range.high {
        (Piece::of(Style::Cut, word.text), " is above ", range.high)
    } else if value >= range.low {
        return None;
    } else if range.low < 0 || value >= 0 {
        (Piece::of(Style::Cut, word.text), " is below ", range.low)
    } else {
        (Piece::plain(range.name), " isn't below ", range.low)
    };
    Some(Text::three(
        first,
        Piece::plain(behind),
        Piece::bounded(Style::Bound, &[], bound, 0),
    ))
}

// A letter and at most two digits.
fn has_shape_of_variable(name: &[u8]) -> bool {
    match name {
        [letter] => letter.is_ascii_alphabetic(),
        [letter, digit] => letter.is_ascii_alphabetic() && digit.is_ascii_digit(),
        [letter, ten, one] => {
            letter.is_ascii_alphabetic() && ten.is_ascii_digit() && one.is_ascii_digit()
        }
        _ => false,
    }
}

fn begins_small(name: &[u8]) -> bool {
    match name {
        [letter, ..] => letter.is_ascii_lowercase(),
        [] => false,
    }
}

/// Whether bytes are the name of a variable.
pub fn is_variable(name: &[u8]) -> bool {
    has_shape_of_variable(name) && begins_small(name)
}

/// The name of a variable, with no `$`.
pub fn variable(word: Word<'_>) -> Option<Wrong<'_>> {
    if is_variable(word.text) {
        return None;
    }
    let expected = Text::plain(
        "a variable is a lower-case letter and at most two digits, from a to z99",
    );
    Some(Wrong::new(no_variable(word.text), expected, word.span()))
}

// What is told of bytes that are no variable's name.
fn no_variable(name: &[u8]) -> Text<'_> {
    if name.starts_with(b"$") {
        return Text::plain("the `$` stands where a variable is used, and not where it is set");
    }
    let behind = if has_shape_of_variable(name) {
        " has a capital"
    } else if begins_small(name) && are_digits(behind_first(name)) {
        " has more than two digits"
    } else {
        " is no variable"
    };
    Text::said(name, behind)
}

fn behind_first(bytes: &[u8]) -> &[u8] {
    match bytes {
        [_, others @ ..] => others,
        [] => &[],
    }
}

// What is wrong with a use of a variable.
fn used(word: Word<'_>) -> Option<Wrong<'_>> {
    let name = Word {
        text: behind_first(word.text),
        start: word.start,
    };
    let wrong = variable(name)?;
    let what = if name.text.is_empty() || name.text.starts_with(b"$") {
        Text::said(word.text, " is no variable")
    } else {
        wrong.what
    };
    Some(Wrong::new(what, wrong.expected, word.span()))
}

/// A number, or `$VAR` in its place.
pub fn numbered<'a>(word: Word<'a>, range: Range, expected: &'static str) -> Option<Wrong<'a>> {
    if word.text.starts_with(b"$") {
        return used(word);
    }
    let what = if is_variable(word.text) {
        Text::whole_in("a variable is used with a `$`, as $", word.text, "")
    } else {
        number(word, range)?.what
    };
    Some(Wrong::new(what, Text::plain(expected), word.span()))
}

/// `any`, a process number, or `$VAR`.
pub fn child<'a>(word: Word<'a>, expected: &'static str) -> Option<Wrong<'a>> {
    if word.text == b"any".as_slice() {
        return None;
    }
    let wrong = numbered(word, Range::of("P", 1, GREATEST), expected)?;
    Some(Wrong::new(wrong.what, Text::plain(expected), word.span()))
}

/// A key, or `private` in its place.
pub fn key(word: Word<'_>) -> Option<Wrong<'_>> {
    if word.text == b"private".as_slice() {
        return None;
    }
    if word.text == b"0".as_slice() {
        return Some(plain_wrong(
            "no key is 0",
            "K is a number from 1 to 4294967295; what has no key is made by `private`",
            word.span(),
        ));
    }
    let wrong = number(word, Range::of("K", 1, GREATEST))?;
    Some(Wrong::new(wrong.what, no_key(word.text), word.span()))
}

// What is expected in the place of bytes that are no key.
fn no_key(text: &[u8]) -> Text<'_> {
    let plain = Text::plain("K is a number from 1 to 4294967295, or `private` stands there");
    if text.iter().all(|byte| byte.is_ascii_alphabetic()) {
        Nearest::told(text, &PRIVATE, plain)
    } else {
        plain
    }
}

// What is expected in the place of bytes that are no queue's name.
fn no_queue_name(text: &[u8]) -> Text<'_> {
    if are_digits(text) {
        Text::whole_in("did you mean /", text, "?")
    } else {
        Text::plain("/N with a number from 1 to 1000000, as /5")
    }
}

/// The name of a POSIX message queue: `/` and a number.
pub fn queue_name(word: Word<'_>) -> Option<Wrong<'_>> {
    match word.text {
        [b'/', text @ ..] if !text.is_empty() => {
            let start = word.start.saturating_add(1);
            number(Word { text, start }, Range::of("N", 1, MOST_NAMED))
        }
        text => {
            let what = Text::said(text, " is no queue's name");
            Some(Wrong::new(what, no_queue_name(text), word.span()))
        }
    }
}

// Whether a byte may stand in a block's name behind its first one.
fn is_in_name(byte: u8) -> bool {
    byte.is_ascii_lowercase() || byte.is_ascii_digit() || byte == b'_'
}

// A letter, and then letters, digits or `_`; in small letters, or in any.
fn has_shape_of_name(name: &[u8]) -> bool {
    match name {
        [first, others @ ..] => {
            first.is_ascii_alphabetic()
                && others
                    .iter()
                    .all(|byte| is_in_name(byte.to_ascii_lowercase()))
        }
        [] => false,
    }
}

fn is_small_name(name: &[u8]) -> bool {
    has_shape_of_name(name) && name.iter().all(|byte| is_in_name(*byte))
}

/// Whether bytes are the name of a block.
pub fn is_block_name(name: &[u8]) -> bool
    ensures { IsTrue result → length name.now ≤ 32 }
{
    name.len() <= 32 && is_small_name(name)
}

// How many bytes a character of UTF-8 has that begins with this one.
pub fn size_of_character(first: u8) -> usize {
    match first {
        0..=0xbf => 1,
        0xc0..=0xdf => 2,
        0xe0..=0xef => 3,
        _ => 4,
    }
}

// How many bytes the first character of these has; 1 where none is there.
fn size_of_first(bytes: &[u8]) -> usize {
    match bytes {
        [first, ..] => size_of_character(*first),
        [] => 1,
    }
}

// The first character that can't stand in a name, or the first, and what is told of it.
fn stranger(word: Word<'_>) -> (Text<'_>, Span) {
    let at = word
        .text
        .iter()
        .position(|byte| !is_in_name(*byte))
        .unwrap_or(0);
    let rest = word.text.get(at..).unwrap_or(&[]);
    let size = size_of_first(rest);
    let character = rest.get(..size).unwrap_or(rest);
    let span = word.part(at, at.saturating_add(size));
    (Text::said(character, " can't stand in a name"), span)
}

const NAME_EXPECTED: &str =
    "NAME is a lower-case letter and up to 31 lower-case letters, digits or _";

// What is told of bytes that are no block's name, where it is told of all of them.
fn no_name(name: &[u8]) -> Option<Text<'_>> {
    let is_long = name.len() > 32;
    if !is_long && has_shape_of_name(name) {
        return Some(Text::said(name, " has a capital"));
    }
    if is_long && is_small_name(name.get(..32).unwrap_or(name)) {
        return Some(Text::three(
            Piece::plain("the name has "),
            Piece::number(name.len()),
            Piece::plain(" bytes, and 32 is the limit"),
        ));
    }
    None
}

// The first byte of a name that can't stand there, and what is told of it.
fn wrong_byte(word: Word<'_>) -> (Text<'_>, Span) {
    match word.text {
        [b'0'..=b'9', ..] => (Text::plain("a name begins with a letter"), word.part(0, 1)),
        _ => stranger(word),
    }
}

/// The name of a block.
pub fn block_name(word: Word<'_>) -> Option<Wrong<'_>> {
    if is_block_name(word.text) {
        return None;
    }
    let (what, span) = match no_name(word.text) {
        Some(what) => (what, word.span()),
        None => wrong_byte(word),
    };
    Some(Wrong::new(what, Text::plain(NAME_EXPECTED), span))
}
