//! Which of some words is near to one that was written: `did you mean ..?`
ghost use Rattle.std.specs.Prelude.{◌+◌, ◌≤◌, length};

use crate::text::Text;

// Bytes that two words have in common, one behind the other.
#[derive(Clone, Copy)]
struct Common {
    first: usize,
    second: usize,
    size: usize,
}

// How many bytes at the front are the same, but for capitals.
fn common_front(a: &[u8], b: &[u8]) -> usize
    ensures first { result ≤ length a.now }
    ensures second { result ≤ length b.now }
{
    let differs = a.iter().zip(b).position(|(byte, other)| byte.to_ascii_lowercase()
        != other.to_ascii_lowercase());
    match differs {
        Some(size) => size,
        None => a.len().min(b.len()),
    }
}

// The longest run of bytes that both have; of those the first in the first word, and then in the second.
fn longest_common(a: &[u8], b: &[u8]) -> Common
    ensures first { result.first + result.size ≤ length a.now }
    ensures second { result.second + result.size ≤ length b.now }
{
    let mut best = Common {
        first: 0,
        second: 0,
        size: 0,
    };
    for first in 0..a.len() {
        for second in 0..b.len() {
            let size = common_front(&a[first..], &b[second..]);
            if size > best.size {
                best = Common {
                    first,
                    second,
                    size,
                };
            }
        }
    }
    best
}

// How many bytes of two words agree: those of the longest common run, and what agrees on either side of it.
fn agreeing(a: &[u8], b: &[u8]) -> usize {
    let common = longest_common(a, b);
    if common.size == 0 {
        return 0;
    }
    let before = agreeing(&a[..common.first], &b[..common.second]);
    let behind = agreeing(
        &a[common.first + common.size..],
        &b[common.second + common.size..],
    );
    before.saturating_add(common.size).saturating_add(behind)
}

// Whether a word stands behind another, but for capitals.
fn is_behind(word: &[u8], other: &[u8]) -> bool {
    for (byte, its) in word.iter().zip(other) {
        let (byte, its) = (byte.to_ascii_lowercase(), its.to_ascii_lowercase());
        if byte != its {
            return byte > its;
        }
    }
    word.len() > other.len()
}

/// The nearest of the words that were offered. Two words are near where their bytes that agree, twice, are six tenths
/// of all their bytes or more; capitals don't matter.
#[derive(Clone, Copy)]
pub struct Nearest<'a> {
    word: &'a [u8],
    found: Option<&'a [u8]>,
    // of what was found: the bytes that agree, and all bytes of both words
    agree: usize,
    all: usize,
}

impl<'a> Nearest<'a> {
    /// Nothing is offered yet for this word.
    pub fn to(word: &'a [u8]) -> Self {
        Nearest {
            word,
            found: None,
            agree: 0,
            all: 1,
        }
    }

    /// Offers a word; of equally near ones the last in order is kept.
    pub fn offer(&mut self, choice: &'a [u8]) {
        let all = choice.len().saturating_add(self.word.len());
        // no more bytes agree than the shorter word has
        let most = choice.len().min(self.word.len());
        if most.saturating_mul(10) < all.saturating_mul(3) {
            return;
        }
        let agree = agreeing(choice, self.word);
        if agree.saturating_mul(10) < all.saturating_mul(3) {
            return;
        }
        let new = agree.saturating_mul(self.all);
        let old = self.agree.saturating_mul(all);
        let is_better = match self.found {
            None => true,
            Some(found) => new > old || (new == old && is_behind(choice, found)),
        };
        if is_better {
            self.found = Some(choice);
            self.agree = agree;
            self.all = all;
        }
    }

    /// What was found.
    pub fn found(self) -> Option<&'a [u8]> {
        self.found
    }

    /// The nearest of these words.
    pub fn among(word: &'a [u8], choices: &'static [&'static str]) -> Option<&'a [u8]> {
        let mut nearest = Nearest::to(word);
        for choice in choices {
            nearest.offer(choice.as_bytes());
        }
        nearest.found
    }

    /// `did you mean ..?` where one of these words is near, else this text.
    pub fn told(word: &'a [u8], choices: &'static [&'static str], otherwise: Text<'a>) -> Text<'a> {
        match Nearest::among(word, choices) {
            Some(choice) => Text::whole_in("did you mean ", choice, "?"),
            None => otherwise,
        }
    }
}
