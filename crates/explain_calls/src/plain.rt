//! What every crate that explains needs of words and texts.

use explain_base::{Fault, Line, Other, Span, Text, Words, Wrong};

/// What is wrong where neither text has bytes of the line in it.
pub fn plain_wrong<'a>(what: &'static str, expected: &'static str, span: Span) -> Wrong<'a> {
    Wrong::new(Text::plain(what), Text::plain(expected), span)
}

/// The word at that place, from 0 on; nothing where none is there.
pub fn text_at<'a>(words: Words<'a>, place: usize) -> &'a [u8] {
    match words.get(place) {
        Some(word) => word.text,
        None => &[],
    }
}

/// What is wrong with a line, and a further line that helps.
#[derive(Clone, Copy)]
pub struct Told<'a> {
    pub fault: Fault<'a>,
    pub other: Option<Other<'a>>,
}

impl<'a> Told<'a> {
    /// A fault with no further line.
    pub fn alone(fault: Fault<'a>) -> Self {
        Told { fault, other: None }
    }

    /// A fault and a further line, where that is there, with what it tells.
    pub fn beside(fault: Fault<'a>, line: Option<Line<'a>>, what: &'static str) -> Self {
        Told {
            fault,
            other: others(line, what),
        }
    }
}

/// A line that helps, and what it tells.
pub fn other<'a>(line: Line<'a>, what: Text<'a>) -> Other<'a> {
    Other {
        number: line.number,
        line: line.text,
        what,
    }
}

/// The same of a line that may be there.
pub fn others<'a>(line: Option<Line<'a>>, what: &'static str) -> Option<Other<'a>> {
    Some(other(line?, Text::plain(what)))
}
