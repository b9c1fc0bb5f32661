//! The callers that an entry wakes, and what is wrong with them. They stand behind the node.

use crate::fields::FORM;
use crate::replies::wrong_reply;
use explain_base::{Fault, Page, Word, Words};
use explain_calls::{GREATEST, Range, number, plain_wrong, text_at};

/// A caller that is woken: the word `wakes`, and behind it the process and its reply.
#[derive(Clone, Copy)]
pub struct Wake<'a> {
    sign: Word<'a>,
    words: Words<'a>,
}

impl<'a> Wake<'a> {
    /// The number of the process; nothing where it lacks.
    pub fn pid(self) -> &'a [u8] {
        text_at(self.words, 0)
    }

    pub fn reply(self) -> Words<'a> {
        self.words.behind(1)
    }
}

/// Whether a word stands before a caller that is woken.
pub fn is_sign(word: Word) -> bool {
    word.text == b"wakes".as_slice()
}

/// The first of these callers, and those behind it.
pub fn first_wake<'a>(words: Words<'a>) -> Option<(Wake<'a>, Words<'a>)> {
    let mut behind = words;
    let sign = behind.next()?;
    for word in behind {
        if is_sign(word) {
            let (words, further) = behind.split_at(word);
            return Some((Wake { sign, words }, further));
        }
    }
    let wake = Wake {
        sign,
        words: behind,
    };
    Some((wake, Words::of(&[])))
}

// What is wrong with the process's number.
fn wrong_pid(wake: Wake<'_>) -> Option<Fault<'_>> {
    let wrong = match wake.words.get(0) {
        Some(pid) => number(pid, Range::of("PID", 0, GREATEST))?,
        None => {
            let what = "`wakes` lacks the number of the process";
            plain_wrong(what, "wakes PID REPLY", wake.sign.behind())
        }
    };
    Some(wrong.fault(FORM, Page::Trace))
}

// What is wrong with one of the callers.
fn wrong_wake(wake: Wake<'_>) -> Option<Fault<'_>> {
    if !is_sign(wake.sign) {
        let what = "behind the node stands only who is woken";
        let expected = "wakes PID REPLY, or the end of the line";
        let wrong = plain_wrong(what, expected, wake.sign.span());
        return Some(wrong.fault(FORM, Page::Trace));
    }
    let place = wake.words.get(0).unwrap_or(wake.sign).behind();
    wrong_pid(wake).or(wrong_reply(wake.reply(), place))
}

/// The first thing that is wrong with the callers that are woken.
pub fn wrong_wakes(words: Words<'_>) -> Option<Fault<'_>> {
    let mut left = words;
    for _ in words {
        let (wake, further) = first_wake(left)?;
        let fault = wrong_wake(wake);
        if fault.is_some() {
            return fault;
        }
        left = further;
    }
    None
}
