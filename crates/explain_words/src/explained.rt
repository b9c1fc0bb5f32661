//! The first word that isn't in order.
ghost use Rattle.std.specs.Prelude.{◌<◌, IfOk, vec_len};
ghost use Rattle.std.specs.List.{All};
ghost use Rattle.explain_base.specs.Shown.{IsShown};

use crate::given::{Given, Placed};
use crate::modes::{MODES, Mode, OPTIONS, own};
use crate::seeds::wrong_seeds;
use explain_base::{Fault, Finding, Line, Nearest, Page, Span, Text, text_of};
use std::alloc::{AllocError, Global};

/// What is wrong with the word at a place; behind the last place, where one is lacking.
#[derive(Clone, Copy)]
pub struct Told<'a> {
    pub place: usize,
    pub what: Text<'a>,
    pub expected: Text<'a>,
}

const MODES_TEXT: &str = "a mode: run, sim, check, gen, mq, boxes, freeze or thaw";

impl<'a> Told<'a> {
    pub fn new(place: usize, what: Text<'a>, expected: Text<'a>) -> Self {
        Told {
            place,
            what,
            expected,
        }
    }

    /// What has none of the words in it.
    pub fn plain(place: usize, what: &'static str, expected: &'static str) -> Self {
        Told::new(place, Text::plain(what), Text::plain(expected))
    }
}

fn unknown_word<'a>(given: &Given<'a>) -> Option<Told<'a>> {
    let word = given.unknown?;
    let bytes = word.text.as_bytes();
    if word.text.starts_with("--steps=") {
        return Some(Told::plain(word.place, "`--steps` takes no value", "--steps"));
    }
    let (behind, expected) = match own(word.text) {
        Some(alone) => ("` stands alone", Text::plain(alone)),
        None => {
            let options = Text::plain("the options are --seed N and --steps");
            ("` is no option", Nearest::told(bytes, &OPTIONS, options))
        }
    };
    Some(Told::new(word.place, Text::whole_in("`", bytes, behind), expected))
}

fn wrong_mode<'a>(given: &Given<'a>, count: usize) -> Option<Told<'a>> {
    let Some(word) = given.first else {
        return Some(Told::plain(count, "no mode is named", MODES_TEXT));
    };
    if Mode::of(word.text).is_some() {
        return None;
    }
    let bytes = word.text.as_bytes();
    let expected = Nearest::told(bytes, &MODES, Text::plain(MODES_TEXT));
    Some(Told::new(
        word.place,
        Text::whole_in("`", bytes, "` is no mode"),
        expected,
    ))
}

// The place of the first option that doesn't go with the mode.
fn misplaced(given: &Given, mode: &Mode) -> Option<usize> {
    let seed = match given.seed {
        Some(seed) if !mode.has_seed => Some(seed.place),
        _ => None,
    };
    match given.steps {
        Some(steps) if !mode.has_steps => Some(steps.place.min(seed.unwrap_or(steps.place))),
        _ => seed,
    }
}

// An option that doesn't go with the mode.
fn unlike_mode<'a>(given: &Given<'a>, mode: &Mode) -> Option<Told<'a>> {
    Some(Told::plain(misplaced(given, mode)?, mode.unlike, mode.form))
}

// An option that stands twice.
fn twice<'a>(given: &Given<'a>) -> Option<Told<'a>> {
    match (given.second_seed, given.second_steps) {
        (Some(seed), _) => Some(Told::plain(seed.place, "`--seed` stands twice", "one --seed")),
        (None, Some(steps)) => {
            Some(Told::plain(steps.place, "`--steps` stands twice", "one --steps"))
        }
        (None, None) => None,
    }
}

// An option that stands twice, or doesn't go with the mode.
fn wrong_option<'a>(given: &Given<'a>, mode: &Mode) -> Option<Told<'a>> {
    twice(given).or(unlike_mode(given, mode))
}

// A word behind the mode that can be no file, by itself.
fn unlike_file<'a>(mode: &Mode, word: Placed<'a>) -> Option<Told<'a>> {
    let bytes = word.text.as_bytes();
    if Mode::of(word.text).is_some() {
        Some(Told::plain(word.place, "a second mode", mode.alone))
    } else if !mode.reads {
        let what = Text::whole_in("`", bytes, "` is too much: `gen` reads no file");
        let form = Text::plain("./pico gen [--seed N] [--steps]");
        Some(Told::new(word.place, what, form))
    } else if word.text.starts_with("-") {
        let what = Text::whole_in("`", bytes, "` stands behind `--`, where no options are");
        let expected = Text::whole_in(mode.asked, bytes, " [FILE]");
        Some(Told::new(word.place, what, expected))
    } else {
        None
    }
}

// A second file.
fn second_file<'a>(given: &Given<'a>, mode: &Mode) -> Option<Told<'a>> {
    let third = given.third?;
    let expected = Text::whole_in("one file, as in ", mode.asked.as_bytes(), "FILE");
    Some(Told::new(third.place, Text::plain("a second file"), expected))
}

// The file isn't there: with one that is, the words would be in order.
fn absent_file<'a>(mode: &Mode, word: Placed<'a>) -> Told<'a> {
    let what = Text::whole_in("there is no file `", word.text.as_bytes(), "`");
    let front = "a file that is there, as in ";
    let expected = Text::whole_in(front, mode.asked.as_bytes(), "FILE");
    Told::new(word.place, what, expected)
}

// What is wrong behind the mode.
fn too_many<'a>(given: &Given<'a>) -> Option<Told<'a>> {
    let mode = Mode::of(given.first?.text)?;
    let option = wrong_option(given, mode);
    match given.second {
        Some(word) => {
            let file = unlike_file(mode, word).or(second_file(given, mode));
            Some(file.or(option).unwrap_or(absent_file(mode, word)))
        }
        None => option,
    }
}

// The first word that isn't in order.
fn first_wrong<'a>(given: &Given<'a>, count: usize) -> Told<'a> {
    let found = unknown_word(given)
        .or(wrong_mode(given, count))
        .or(wrong_seeds(given))
        .or(too_many(given));
    found.unwrap_or(Told::plain(count, "the words aren't in order", "./pico --help"))
}

// The words behind the program's name in one line, and the bytes of the one at that place.
fn line_of(alloc: Global, words: &[String], place: usize) -> Result<(Vec<u8>, Span), AllocError> {
    let mut line = Vec::from_slice(alloc, b"./pico")?;
    let mut span = Span::of(0, 0);
    for (at, word) in words.iter().enumerate() {
        line.push(b' ')?;
        let start = line.len();
        line.extend_from_slice(word.as_bytes())?;
        if at == place {
            span = Span::of(start, line.len());
        }
    }
    if place >= words.len() {
        let end = line.len();
        span = Span::of(end.saturating_add(1), end.saturating_add(2));
    }
    Ok((line, span))
}

// What is written of the first word that isn't in order, which is these bytes of the line.
fn shown_in<'a>(
    alloc: Global,
    words: &'a [String],
    line: &'a [u8],
    span: Span,
) -> Result<Vec<u8>, AllocError>
    ensures some { IfOk result (λ text. 0 < vec_len text) }
    ensures shown { IfOk result (λ text. All IsShown text.items) }
{
    let given = Given::of(words);
    let told = first_wrong(&given, words.len());
    let fault = Fault::new(told.what, told.expected, span, Page::Help);
    let shown = Line {
        number: 0,
        text: line,
        is_ended: true,
    };
    let mut finding = Finding::at(alloc, shown, fault, None);
    finding.number = None;
    text_of(alloc, &finding)
}

/// Why these words were refused, as it is written: some bytes, and all of them printable or line feeds.
pub fn explain_words(alloc: Global, words: &[String]) -> Result<Vec<u8>, AllocError>
    ensures some { IfOk result (λ text. 0 < vec_len text) }
    ensures shown { IfOk result (λ text. All IsShown text.items) }
{
    let given = Given::of(words);
    let place = first_wrong(&given, words.len()).place;
    let (line, span) = line_of(alloc, words, place)?;
    shown_in(alloc, words, line.as_slice(), span)
}
