//! A line of a trace, cut at its signs.

use explain_base::{Span, Word, Words};
use explain_calls::{count_of, text_at};

/// A line of a trace: the process, the words of the call, those of the reply, and those of the callers that it wakes.
#[derive(Clone, Copy)]
pub struct Entry<'a> {
    pub pid: &'a [u8],
    pub call: Words<'a>,
    pub reply: Words<'a>,
    pub wakes: Words<'a>,
}

/// Whether so many words are there.
pub fn are(words: Words, count: usize) -> bool {
    words.count() == count
}

// Whether a word is this one, or digits where this is empty.
fn is_like(text: &[u8], wanted: &str) -> bool {
    if wanted.is_empty() {
        count_of(text).is_some()
    } else {
        text == wanted.as_bytes()
    }
}

/// Whether words are these and no others; digits stand where these have an empty one.
pub fn are_like(words: Words, wanted: &[&str]) -> bool {
    for (place, name) in wanted.iter().enumerate() {
        if !is_like(text_at(words, place), name) {
            return false;
        }
    }
    are(words, wanted.len())
}

/// The words of a line before one of its words.
pub fn before<'a>(line: &'a [u8], word: Word<'a>) -> Words<'a> {
    Words::of(line.get(..word.start).unwrap_or(line))
}

/// The place of the word `=` behind the first word, and that word.
pub fn sign_in(line: &[u8]) -> Option<(usize, Word<'_>)> {
    for (place, word) in Words::of(line).enumerate() {
        if place > 0 && word.text == b"=".as_slice() {
            return Some((place, word));
        }
    }
    None
}

/// The word `by` behind the sign, which is the word at that place; and the words behind it.
pub fn by_in(line: &[u8], sign: usize) -> Option<(Word<'_>, Words<'_>)> {
    let mut left = Words::of(line).behind(sign.saturating_add(1));
    for word in left {
        let _ = left.next();
        if word.text == b"by".as_slice() {
            return Some((word, left));
        }
    }
    None
}

/// The entry of a line, where it has the shape of one.
pub fn entry_of(line: &[u8]) -> Option<Entry<'_>> {
    let words = Words::of(line);
    let first = words.get(0)?;
    let (place, sign) = sign_in(line)?;
    let (by, behind) = by_in(line, place)?;
    let _ = behind.get(0)?;
    let pid = first.text;
    let call = before(line, sign).behind(1);
    let reply = before(line, by).behind(place.saturating_add(1));
    let wakes = behind.behind(1);
    Some(Entry {
        pid,
        call,
        reply,
        wakes,
    })
}

/// Whether these words are those of a call that waits.
pub fn is_parked(reply: Words) -> bool {
    are_like(reply, &["parked"])
}

/// The bytes from the first word to the last.
pub fn span_of(words: Words) -> Option<Span> {
    let first = words.get(0)?;
    let last = words.last()?;
    Some(Span::of(first.start, last.end()))
}

/// Those bytes of a line.
pub fn text_of_words<'a>(line: &'a [u8], words: Words<'a>) -> &'a [u8] {
    match span_of(words) {
        Some(span) => line.get(span.start..span.end).unwrap_or(&[]),
        None => &[],
    }
}
