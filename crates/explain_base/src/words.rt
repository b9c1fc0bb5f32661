//! The words of a line, with their places.
ghost use Rattle.std.specs.Prelude.{◌≡◌, ◌+◌, ◌<◌, ◌≤◌, length};
ghost use Rattle.std.specs.Iterator.{at_most};

use crate::finding::Span;

/// A word of a line, and the byte of the line at which it begins.
#[derive(Clone, Copy)]
pub struct Word<'a> {
    pub text: &'a [u8],
    pub start: usize,
}

impl<'a> Word<'a> {
    /// The byte behind its last one.
    pub fn end(self) -> usize {
        self.start.saturating_add(self.text.len())
    }

    /// All of its bytes.
    pub fn span(self) -> Span {
        Span {
            start: self.start,
            end: self.end(),
        }
    }

    /// Its bytes from one of them on, to before another.
    pub fn part(self, from: usize, to: usize) -> Span {
        Span {
            start: self.start.saturating_add(from),
            end: self.start.saturating_add(to),
        }
    }

    /// The place behind it, where a further word would begin.
    pub fn behind(self) -> Span {
        let end = self.end();
        Span {
            start: end.saturating_add(1),
            end: end.saturating_add(2),
        }
    }
}

/// Whether the byte parts words.
pub fn is_blank(byte: u8) -> bool {
    byte == b' ' || byte == b'\t' || byte == b'\r'
}

// What follows the blanks at the front.
fn behind_blanks(bytes: &[u8]) -> &[u8]
    ensures { length result.now ≤ length bytes.now }
{
    match bytes.iter().position(|byte| !is_blank(*byte)) {
        Some(size) => bytes.split_at(size).1,
        None => &[],
    }
}

/// A line without the blanks at its end.
pub fn without_blanks(line: &[u8]) -> &[u8] {
    match line.iter().rposition(|byte| !is_blank(*byte)) {
        Some(last) => line.split_at(last + 1).0,
        None => &[],
    }
}

// The place of the first blank, or the end.
fn to_blank(bytes: &[u8]) -> usize
    ensures { result ≤ length bytes.now }
{
    match bytes.iter().position(|byte| is_blank(*byte)) {
        Some(size) => size,
        None => bytes.len(),
    }
}

// How many bytes of a word follow its first one. A word that begins with a quote goes on to the next one, over blanks.
fn size_behind(first: u8, others: &[u8]) -> usize
    ensures { result ≤ length others.now }
{
    if first != b'"' {
        return to_blank(others);
    }
    match others.iter().position(|byte| *byte == b'"') {
        Some(size) => size + to_blank(others.split_at(size).1),
        None => others.len(),
    }
}

/// The words of a line that are left. Blanks part them.
#[derive(Clone, Copy)]
pub struct Words<'a> {
    rest: &'a [u8],
    at: usize,
}

impl<'a> Words<'a> {
    /// All words of a line.
    pub fn of(line: &'a [u8]) -> Self {
        Words { rest: line, at: 0 }
    }

    /// The word at this place, from 0 on.
    pub fn get(self, place: usize) -> Option<Word<'a>> {
        let mut words = self;
        words.nth(place)
    }

    /// The words behind so many.
    pub fn behind(self, count: usize) -> Self {
        let mut words = self;
        for _ in 0..count {
            if words.next().is_none() {
                break;
            }
        }
        words
    }

    /// These words before one of them, and from that one on.
    pub fn split_at(self, word: Word<'a>) -> (Self, Self) {
        let size = word.start.saturating_sub(self.at);
        let (front, rest) = self.rest.split_at(size.min(self.rest.len()));
        let at = self.at.saturating_add(front.len());
        let front = Words {
            rest: front,
            at: self.at,
        };
        (front, Words { rest, at })
    }

    /// Whether no word is left.
    pub fn is_empty(self) -> bool {
        self.get(0).is_none()
    }
}

impl<'a> Iterator for Words<'a> {
    type Item = Word<'a>;

    ghost remaining = { λ s. at_most (length s.rest.now) };

    fn next(&mut self) -> Option<Word<'a>> {
        let rest = behind_blanks(self.rest);
        let start = self
            .at
            .saturating_add(self.rest.len().saturating_sub(rest.len()));
        let (first, others) = rest.split_first()?;
        let size = size_behind(*first, others);
        let (text, left) = rest.split_at(size + 1);
        self.rest = left;
        self.at = start.saturating_add(text.len());
        Some(Word { text, start })
    }
}
