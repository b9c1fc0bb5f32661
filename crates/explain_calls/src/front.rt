//! A call line by its words: what stands in front of the call, and the call.

use crate::lists::is_among;
use crate::names::is_call;
use crate::numbers::{Range, count_of, number, variable};
use crate::plain::{plain_wrong, text_at};
use explain_base::{Fault, Page, Word, Words, Wrong};

/// How a call line is written.
pub const FRONT_FORM: &str = "[VAR =] [try N] CALL";

// The calls whose first word may be a variable.
static USERS: [&str; 10] = [
    "kill",
    "waitpid",
    "msgsnd",
    "msgrcv",
    "msgctl",
    "mqsend",
    "mqreceive",
    "mqgetattr",
    "semop",
    "semctl",
];

/// The variable that the line sets, the number of its tries, and the words of the call, where they are there.
#[derive(Clone, Copy)]
pub struct Call<'a> {
    pub sets: Option<Word<'a>>,
    pub tries: Option<Word<'a>>,
    pub words: Words<'a>,
}

// Whether words begin with `VAR =`, by the second one.
fn is_set(words: Words) -> bool {
    text_at(words, 1) == b"=".as_slice()
}

// Whether words begin with `try N`, by the first one.
fn is_try(words: Words) -> bool {
    text_at(words, 0) == b"try".as_slice()
}

// What is wrong with the variable that these words set, if they do.
fn wrong_variable(words: Words<'_>) -> Option<Wrong<'_>> {
    if is_set(words) {
        variable(words.get(0)?)
    } else {
        None
    }
}

// What is wrong with the number behind the word `try`, if that is there.
fn wrong_tries(words: Words<'_>) -> Option<Wrong<'_>> {
    if !is_try(words) {
        return None;
    }
    match words.get(1) {
        Some(tries) if !is_call(tries.text) => number(tries, Range::of("N", 1, 20000)),
        _ => Some(plain_wrong(
            "`try` lacks its number",
            "a number and a call, as try 20 waitpid any nohang",
            words.get(0)?.behind(),
        )),
    }
}

// The words behind `VAR =`, if that is there.
fn behind_variable(words: Words<'_>) -> Words<'_> {
    if is_set(words) {
        words.behind(2)
    } else {
        words
    }
}

/// What is wrong in front of the call in the line of these words.
pub fn front_fault(words: Words<'_>) -> Option<Fault<'_>> {
    let wrong = wrong_variable(words).or(wrong_tries(behind_variable(words)))?;
    Some(wrong.fault(FRONT_FORM, Page::CallLines))
}

impl<'a> Call<'a> {
    /// The call line of these words. A second word `=` shows that `VAR =` is there, and a word `try` in its place that
    /// `try N` is, as for the reader.
    pub fn of(words: Words<'a>) -> Self {
        let sets = if is_set(words) { words.get(0) } else { None };
        let behind = behind_variable(words);
        if is_try(behind) {
            let tries = behind.get(1);
            let words = behind.behind(2);
            Call { sets, tries, words }
        } else {
            Call {
                sets,
                tries: None,
                words: behind,
            }
        }
    }

    /// The first word of the call, its name; nothing where no word is there.
    pub fn name(&self) -> &'a [u8] {
        text_at(self.words, 0)
    }

    /// How many calls the line counts for.
    pub fn count(&self) -> usize {
        match self.tries {
            Some(tries) => tries_of(tries.text),
            None => 1,
        }
    }

    /// The variable that the line uses, with its `$`.
    pub fn used(&self) -> Option<Word<'a>> {
        let word = self.words.get(1)?;
        if word.text.starts_with(b"$") && is_among(self.name(), &USERS) {
            Some(word)
        } else {
            None
        }
    }

    /// The name of the block that the line forks, if it does.
    pub fn forks(&self) -> Option<Word<'a>> {
        if self.name() == b"fork".as_slice() {
            self.words.get(1)
        } else {
            None
        }
    }
}

// The number that up to five digits are, or 1.
fn tries_of(text: &[u8]) -> usize {
    if text.len() > 5 {
        1
    } else {
        count_of(text).unwrap_or(1)
    }
}
