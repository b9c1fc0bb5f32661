//! The totals of a trace: what they have to be, and what is wrong with them.

use crate::entry::{Entry, are, are_like, entry_of};
use crate::errors::{is_not_ready, meaning};
use crate::fields::wrong_blanks;
use crate::wakes::first_wake;
use explain_base::{Fault, Lines, Page, Piece, Span, Text, Totals, Word, Words, Wrong};
use explain_calls::{count_of, text_at};

// The words of a line of totals, with nothing in the numbers' places.
static NAMES: [&str; 9] = [
    "totals",
    "entries",
    "",
    "processes",
    "",
    "notready",
    "",
    "refused",
    "",
];

// One of the totals: the place of its number, its name, and what is counted.
#[derive(Clone, Copy)]
struct Total {
    place: usize,
    name: &'static str,
    of: &'static str,
}

static TOTALS: [Total; 4] = [
    Total {
        place: 2,
        name: "entries ",
        of: " lines",
    },
    Total {
        place: 4,
        name: "processes ",
        of: " processes: 1, and one for each fork",
    },
    Total {
        place: 6,
        name: "notready ",
        of: " replies ENOMSG and EAGAIN",
    },
    Total {
        place: 8,
        name: "refused ",
        of: " other refusals",
    },
];

// The number that stands at that place of a line of totals.
fn counted_at(totals: Totals, place: usize) -> usize {
    match place {
        2 => totals.entries,
        4 => totals.processes,
        6 => totals.not_ready,
        _ => totals.refused,
    }
}

// The name at that place of a line of totals; nothing where a number stands, or no word.
fn name_at(place: usize) -> &'static [u8] {
    match NAMES.get(place) {
        Some(name) => name.as_bytes(),
        None => &[],
    }
}

/// Whether a line is one of totals, whatever its numbers are.
pub fn is_totals(line: &[u8]) -> bool {
    are_like(Words::of(line), &NAMES) && wrong_blanks(line).is_none()
}

// The error's name that a reply is, where it is one.
fn error_of(reply: Words<'_>) -> Option<&[u8]> {
    let name = text_at(reply, 0);
    if are(reply, 1) && meaning(name).is_some() {
        Some(name)
    } else {
        None
    }
}

fn count_reply(totals: &mut Totals, reply: Words) {
    match error_of(reply) {
        Some(name) if is_not_ready(name) => {
            totals.not_ready = totals.not_ready.saturating_add(1);
        }
        Some(_) => totals.refused = totals.refused.saturating_add(1),
        None => {}
    }
}

// The replies of the callers that are woken.
fn count_wakes(totals: &mut Totals, wakes: Words) {
    let mut left = wakes;
    for _ in wakes {
        if let Some((wake, further)) = first_wake(left) {
            count_reply(totals, wake.reply());
            left = further;
        } else {
            break;
        }
    }
}

fn count(totals: &mut Totals, entry: Entry) {
    if text_at(entry.call, 0) == b"fork".as_slice() {
        totals.processes = totals.processes.saturating_add(1);
    }
    count_reply(totals, entry.reply);
    count_wakes(totals, entry.wakes);
}

/// The totals of these lines up to before that number.
pub fn totals_of(lines: Lines, number: usize) -> Totals {
    let mut totals = Totals {
        entries: 0,
        processes: 1,
        not_ready: 0,
        refused: 0,
    };
    for line in lines {
        if line.number >= number {
            break;
        }
        totals.entries = totals.entries.saturating_add(1);
        if let Some(entry) = entry_of(line.text) {
            count(&mut totals, entry);
        }
    }
    totals
}

// Whether a word is this number in its one spelling.
fn spells(text: &[u8], number: usize) -> bool {
    let has_zero = text.len() > 1 && text.starts_with(b"0");
    !has_zero && count_of(text) == Some(number)
}

// What is wrong with the number of one of the totals.
fn wrong_total<'a>(word: Word<'a>, total: Total, counted: usize) -> Wrong<'a> {
    let what = Text::three(
        Piece::plain("the totals are wrong: "),
        Piece::plain(total.name),
        Piece::whole(word.text),
    );
    let expected = Text::three(
        Piece::plain("counted are "),
        Piece::number(counted),
        Piece::plain(total.of),
    );
    Wrong::new(what, expected, word.span())
}

// The first of the totals that isn't what was counted.
fn first_wrong<'a>(words: Words<'a>, totals: Totals) -> Option<Wrong<'a>> {
    for total in &TOTALS {
        let counted = counted_at(totals, total.place);
        let word = words.get(total.place)?;
        if !spells(word.text, counted) {
            return Some(wrong_total(word, *total, counted));
        }
    }
    None
}

// Whether the word at a place is what the totals line has there.
fn is_wanted(place: usize, text: &[u8], totals: Totals) -> bool {
    let name = name_at(place);
    if !name.is_empty() {
        text == name
    } else {
        place >= NAMES.len() || spells(text, counted_at(totals, place))
    }
}

// Where a line that is no totals line begins to be none.
fn unlike(line: &[u8], totals: Totals) -> Span {
    let mut start = 0;
    for (place, word) in Words::of(line).enumerate() {
        start = word.start;
        if !is_wanted(place, word.text, totals) {
            break;
        }
    }
    Span::of(start, line.len())
}

// What is wrong with a line that begins as the totals and isn't a line of totals, or has none of them wrong.
fn no_totals<'a>(line: &'a [u8], totals: Totals) -> Wrong<'a> {
    let what = "the last line of a trace is `totals entries E processes P notready N refused F`";
    Wrong::new(Text::plain(what), Text::none(), unlike(line, totals))
}

/// What is wrong with a line that begins as the totals.
pub fn wrong_totals<'a>(line: &'a [u8], totals: Totals) -> Fault<'a> {
    let counted = if is_totals(line) {
        first_wrong(Words::of(line), totals)
    } else {
        None
    };
    Fault {
        wrong: counted.unwrap_or(no_totals(line, totals)),
        form: Text::totals(totals),
        page: Page::Trace,
    }
}
