//! What is wrong with a reply, and with what a trace spells in one way.

use crate::entry::{is_parked, span_of};
use crate::errors::{ERRORS_AND_ENDED, meaning};
use crate::fields::FORM;
use crate::wakes::is_sign;
use explain_base::{Fault, Nearest, Page, Piece, SIGNALS, Span, Style, Text, Word, Words, Wrong};
use explain_calls::{
    GREATEST, Range, count_of, is_signal, message_text, number, plain_wrong, signal, signal_set,
    text_at,
};

const REPLIES: &str = "a number | PID exited N | PID killed G | TYPE TEXT | signals | \
    qnum N qbytes N lspid N lrpid N | all V,V,.. | ended | an error's name | parked, of a call that waits";

// The names in the reply of a queue's state, with a number behind each.
static QUEUE: [&str; 4] = ["qnum", "qbytes", "lspid", "lrpid"];

// The forms of replies.
#[derive(Clone, Copy)]
enum Reply {
    // one word that is told by what it is
    Itself,
    Number,
    Signals,
    Values,
    Message,
    Exited,
    Killed,
    Queue,
}

fn begins_number(word: &[u8]) -> bool {
    match word {
        [b'-', first, ..] | [first, ..] => first.is_ascii_digit(),
        [] => false,
    }
}

// Whether the first signal of a set is one.
fn begins_signals(word: &[u8]) -> bool {
    let size = word
        .iter()
        .position(|byte| *byte == b',')
        .unwrap_or(word.len());
    word == b"none".as_slice() || is_signal(word.get(..size).unwrap_or(word))
}

fn form_of_one(first: &[u8]) -> Option<Reply> {
    if first == b"ended".as_slice() || meaning(first).is_some() {
        Some(Reply::Itself)
    } else if begins_number(first) {
        Some(Reply::Number)
    } else if begins_signals(first) {
        Some(Reply::Signals)
    } else {
        None
    }
}

// Whether words are what a queue's state replies.
fn is_queue(words: Words) -> bool {
    for (place, name) in QUEUE.iter().enumerate() {
        if text_at(words, place.saturating_mul(2)) != name.as_bytes() {
            return false;
        }
    }
    true
}

// The form of a reply of three words.
fn form_of_three(second: &[u8]) -> Option<Reply> {
    match second {
        b"exited" => Some(Reply::Exited),
        b"killed" => Some(Reply::Killed),
        _ => None,
    }
}

// The form that a reply has; none where it has no form.
fn form_of(words: Words) -> Option<Reply> {
    let first = text_at(words, 0);
    match words.count() {
        1 => form_of_one(first),
        2 if first == b"all".as_slice() => Some(Reply::Values),
        2 if begins_number(first) => Some(Reply::Message),
        3 => form_of_three(text_at(words, 1)),
        8 if is_queue(words) => Some(Reply::Queue),
        _ => None,
    }
}

// What is wrong with a word that has to be a number that isn't below 0.
fn wrong_number<'a>(
    words: Words<'a>,
    place: usize,
    name: &'static str,
    most: i64,
) -> Option<Wrong<'a>> {
    number(words.get(place)?, Range::of(name, 0, most))
}

fn wrong_values(word: Word<'_>) -> Option<Wrong<'_>> {
    let mut at = 0usize;
    for text in word.text.split(|byte| *byte == b',') {
        let start = word.start.saturating_add(at);
        let wrong = number(Word { text, start }, Range::of("V", 0, GREATEST));
        if wrong.is_some() {
            return wrong;
        }
        at = at.saturating_add(text.len()).saturating_add(1);
    }
    None
}

// The number, and the text behind it.
fn wrong_message(words: Words<'_>) -> Option<Wrong<'_>> {
    let wrong = number(words.get(0)?, Range::of("TYPE", -2147483647, 2147483647));
    wrong.or(message_text(words.get(1)?))
}

// The process, and how it ended.
fn wrong_end(words: Words<'_>, is_exit: bool) -> Option<Wrong<'_>> {
    let end = if is_exit {
        wrong_number(words, 2, "N", 255)
    } else {
        signal(words.get(2)?)
    };
    wrong_number(words, 0, "PID", GREATEST).or(end)
}

fn wrong_queue(words: Words<'_>) -> Option<Wrong<'_>> {
    for (place, word) in words.enumerate() {
        if place % 2 == 1 {
            let wrong = number(word, Range::of("N", 0, GREATEST));
            if wrong.is_some() {
                return wrong;
            }
        }
    }
    None
}

// The first of the words of a reply of this form that isn't in order.
fn wrong_word(reply: Reply, words: Words<'_>) -> Option<Wrong<'_>> {
    match reply {
        Reply::Itself => None,
        Reply::Number => wrong_number(words, 0, "the reply", GREATEST),
        Reply::Signals => signal_set(words.get(0)?, false),
        Reply::Values => wrong_values(words.get(1)?),
        _ => wrong_further(reply, words),
    }
}

// The same of a reply of more words.
fn wrong_further(reply: Reply, words: Words<'_>) -> Option<Wrong<'_>> {
    match reply {
        Reply::Message => wrong_message(words),
        Reply::Queue => wrong_queue(words),
        _ => wrong_end(words, matches!(reply, Reply::Exited)),
    }
}

// What is wrong with words that have the form of no reply.
fn no_reply<'a>(words: Words<'a>, first: Word<'a>) -> Wrong<'a> {
    let near = Nearest::told(first.text, &ERRORS_AND_ENDED, Text::none());
    let span = span_of(words).unwrap_or(first.span());
    Wrong::new(Text::plain("this is no reply"), near, span)
}

// What is wrong with a reply that has a form, or doesn't.
fn wrong_words<'a>(words: Words<'a>, first: Word<'a>) -> Option<Wrong<'a>> {
    match form_of(words) {
        Some(reply) => wrong_word(reply, words),
        None => Some(no_reply(words, first)),
    }
}

// A caller that is woken, and stands before the node.
fn misplaced_wake(words: Words<'_>) -> Option<Fault<'_>> {
    for word in words {
        if is_sign(word) {
            let what = "whom a call wakes stands behind the node";
            let wrong = plain_wrong(what, "by NODE, and then wakes PID REPLY", word.span());
            return Some(wrong.fault(FORM, Page::Trace));
        }
    }
    None
}

/// What is wrong with the reply to the caller itself, which stands before the word `by`.
pub fn wrong_own<'a>(words: Words<'a>, by: Word<'a>) -> Option<Fault<'a>> {
    if is_parked(words) {
        None
    } else {
        misplaced_wake(words).or(wrong_reply(words, by.span()))
    }
}

/// What is wrong with a reply; where it lacks, at this place.
pub fn wrong_reply<'a>(words: Words<'a>, place: Span) -> Option<Fault<'a>> {
    let Some(first) = words.get(0) else {
        let wrong = plain_wrong("the line has no reply", "a reply", place);
        return Some(wrong.fault(FORM, Page::Trace));
    };
    match wrong_words(words, first) {
        Some(wrong) => Some(wrong.fault(REPLIES, Page::Trace)),
        None if words.get(1).is_none() => wrong_order(first),
        None => wrong_spelling(words.last()?),
    }
}

// Whether the names of a set are signals, and two that follow on each other aren't in the table's order.
fn is_disordered(set: &[u8]) -> bool {
    let mut from = 0;
    let mut is_ordered = true;
    for name in set.split(|byte| *byte == b',') {
        match SIGNALS.iter().position(|it| it.as_bytes() == name) {
            Some(place) => {
                is_ordered = is_ordered && from <= place;
                from = place;
            }
            None => return false,
        }
    }
    !is_ordered
}

/// A set of signals whose names aren't in the table's order.
pub fn wrong_order(word: Word<'_>) -> Option<Fault<'_>> {
    if !is_disordered(word.text) {
        return None;
    }
    let ordered = Piece::of(Style::Signals, word.text);
    let what = Text::plain("the signals of a set stand in the table's order");
    Some(Wrong::new(what, Text::one(ordered), word.span()).fault(FORM, Page::Trace))
}

// The letter of which a text between quotes has 17 or more and no other, and how many.
fn repeated(text: &[u8]) -> Option<(u8, usize)> {
    let [b'"', letter, others @ .., b'"'] = text else {
        return None;
    };
    let is_it = others.len() >= 16
        && letter.is_ascii_alphanumeric()
        && others.iter().all(|byte| *byte == *letter);
    if is_it {
        Some((*letter, others.len().saturating_add(1)))
    } else {
        None
    }
}

// A text of many times one letter or digit that isn't written in short.
fn unshortened(word: Word<'_>) -> Option<Wrong<'_>> {
    let (byte, number) = repeated(word.text)?;
    let what = Text::plain(
        "a text of 17 or more times the same letter or digit is written in short",
    );
    let short = Text::four(
        Piece::plain("rep:"),
        Piece::number(number),
        Piece::plain(":"),
        Piece::byte(byte),
    );
    Some(Wrong::new(what, short, word.span()))
}

// What a text in short repeats fewer than 17 times, and how often.
fn repeated_few(text: &[u8]) -> Option<(&[u8], usize)> {
    let [b'r', b'e', b'p', b':', digits @ .., b':', letter] = text else {
        return None;
    };
    let count = count_of(digits)?;
    if letter.is_ascii_alphanumeric() && count < 17 {
        Some((text.get(text.len().saturating_sub(1)..)?, count))
    } else {
        None
    }
}

// A text that is written in short and has too few bytes for that.
fn shortened(word: Word<'_>) -> Option<Wrong<'_>> {
    let (letter, count) = repeated_few(word.text)?;
    let long = Text::three(
        Piece::plain("\""),
        Piece::counted(Style::Repeated, letter, count),
        Piece::plain("\""),
    );
    let what = Text::plain("a text of fewer than 17 bytes stands between quotes");
    Some(Wrong::new(what, long, word.span()))
}

fn hex_value(digit: u8) -> Option<u8> {
    match digit {
        b'0'..=b'9' => Some(digit - b'0'),
        b'a'..=b'f' => Some(digit - b'a' + 10),
        _ => None,
    }
}

// The byte that is spelled at the front, where it could stand for itself.
fn needless(bytes: &[u8]) -> Option<u8> {
    let [b'\\', b'x', high, low, ..] = bytes else {
        return None;
    };
    let (high, low) = (hex_value(*high)?, hex_value(*low)?);
    let byte = high.saturating_mul(16).saturating_add(low);
    if matches!(byte, b' '..=b'~') && byte != b'"' && byte != b'\\' {
        Some(byte)
    } else {
        None
    }
}

// The first byte that is spelled and could stand for itself.
fn spelled(word: Word<'_>) -> Option<Wrong<'_>> {
    for at in 0..word.text.len() {
        if let Some(byte) = needless(word.text.get(at..)?) {
            let what = Text::plain("a byte that can stand for itself is spelled");
            let itself = Text::one(Piece::byte(byte));
            return Some(Wrong::new(what, itself, word.part(at, at.saturating_add(4))));
        }
    }
    None
}

/// A text that isn't in the one spelling that a trace has for it.
pub fn wrong_spelling(word: Word<'_>) -> Option<Fault<'_>> {
    let wrong = unshortened(word).or(shortened(word)).or(spelled(word))?;
    Some(wrong.fault(FORM, Page::Trace))
}
