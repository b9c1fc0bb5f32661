//! Words that are texts of messages, operations and values.

ghost use Rattle.std.specs.Prelude.{◌≡◌, ℕ, ◌<◌, ◌≤◌, ◌+◌, ◌&&◌, nat_le, true, Some, [], ◌∷◌, slice_index, IfOk, IfSome, option_map, length};
ghost use Rattle.std.specs.List.{list_all};
ghost use Rattle.script_reader.specs.Words.{texts};
ghost use Rattle.kernel_model.specs.Texts.{is_plain as is_plain_of};
ghost use Rattle.script_reader.specs.Parts.{is_digit, is_alphanumeric as is_alphanumeric_of, closed_at, quoted_at, letter as letter_of, counted as counted_of, repetition as repetition_of, text as text_of, added as added_of, indexed as indexed_of, step as step_of, each, number as number_of, values as values_of};

use crate::numbers::{MAX_NUMBER, index, number, signed};
use crate::parts::{cut, is_nowait};
use crate::words::pieces;
use pico_base::{Bytes, Memory, SemStep, Sequence, Steps, Values};
use quoted_bytes::{is_plain, strip_front, text_byte};
use std::alloc::Global;
use std::simd::prelude::*;

/// The longest text of `rep:N:C`.
const MAX_REPEATED: u32 = 8192;

/// The text where its closing quote is all that is left.
fn close_text(text: Bytes, bytes: &[u8]) -> Option<Bytes>
    ensures { result ≡ closed_at text bytes.now }
{
    if bytes == b"\"".as_slice() {
        Some(text)
    } else {
        None
    }
}

/// A text behind its opening quote, byte after byte.
fn escaped_text(alloc: Global, bytes: &[u8]) -> Result<Option<Bytes>, Memory>
    ensures { IfOk result (λ text. text ≡ quoted_at (length bytes.now) bytes.now) }
{
    let mut text = Sequence::new(alloc);
    let mut rest = bytes;
    for _ in 0..bytes.len() {
        match text_byte(rest) {
            None => return Ok(close_text(text, rest)),
            Some((byte, after)) => {
                text.push(byte)?;
                rest = after;
            }
        }
    }
    Ok(close_text(text, rest))
}

/// How many bytes are looked at together.
const LANES: usize = 16;

/// Whether each of so many bytes from here on stands for itself.
fn are_plain_lanes(bytes: &[u8], at: usize) -> bool
    requires { at + 16 ≤ length bytes.now }
    ensures { result ≡ true → (k : ℕ) → at ≤ k → k < at + 16 → is_plain_of (slice_index bytes.now k) ≡ true }
{
    let lanes = u8x16::from_slice(&bytes[at..]);
    let others = lanes.simd_lt(u8x16::splat(b' '))
        | lanes.simd_gt(u8x16::splat(b'~'))
        | lanes.simd_eq(u8x16::splat(b'"'))
        | lanes.simd_eq(u8x16::splat(b'\\'));
    others.to_bitmask() == 0
}

/// Whether each byte stands for itself, byte after byte.
fn are_plain(bytes: &[u8]) -> bool
    ensures { result ≡ list_all is_plain_of bytes.now }
{
    bytes.iter().all(|byte| is_plain(*byte))
}

/// Whether each byte is known to stand for itself. The last bytes that are looked at together may overlap others.
fn is_all_plain(bytes: &[u8]) -> bool
    ensures { result ≡ true → list_all is_plain_of bytes.now ≡ true }
{
    if bytes.len() < LANES {
        return are_plain(bytes);
    }
    let last = bytes.len() - LANES;
    let mut at = 0;
    while at < last {
        if !are_plain_lanes(bytes, at) {
            return false;
        }
        at += LANES;
    }
    are_plain_lanes(bytes, last)
}

/// A text behind its opening quote. Most have no escape, and are copied at once.
fn quoted_text(alloc: Global, bytes: &[u8]) -> Result<Option<Bytes>, Memory>
    ensures { IfOk result (λ text. text ≡ quoted_at (length bytes.now) bytes.now) }
{
    if let Some((last, plain)) = bytes.split_last() {
        if *last == b'"' && is_all_plain(plain) {
            return Ok(Some(Bytes::from_slice(alloc, plain)?));
        }
    }
    escaped_text(alloc, bytes)
}

fn is_alphanumeric(byte: u8) -> bool
    ensures { result ≡ is_alphanumeric_of byte }
{
    byte.is_ascii_lowercase() || byte.is_ascii_digit() || byte.is_ascii_uppercase()
}

/// A letter or a digit, the only byte of a word.
#[tactic(auto, unfolding(crate::specs::Parts::letter))]
fn letter(word: &[u8]) -> Option<u8>
    ensures { result ≡ letter_of word.now }
{
    match word {
        [byte] if is_alphanumeric(*byte) => Some(*byte),
        _ => None,
    }
}

/// The count and the byte of `N:C`.
#[tactic(auto, unfolding(crate::specs::Parts::counted))]
fn count_and_byte(word: &[u8]) -> Option<(u32, u8)>
    ensures { result ≡ counted_of word.now }
{
    let (count, byte) = cut(b':', word)?;
    let count = number(MAX_REPEATED, count)?;
    let byte = letter(byte)?;
    Some((count, byte))
}

/// The text of `N:C`.
#[tactic(auto, unfolding(crate::specs::Parts::repetition))]
fn repeated_text(alloc: Global, word: &[u8]) -> Result<Option<Bytes>, Memory>
    ensures { IfOk result (λ text. text ≡ repetition_of word.now) }
{
    match count_and_byte(word) {
        None => Ok(None),
        Some((count, byte)) => {
            let text = vec![in alloc; byte; count as usize]?;
            Ok(Some(Sequence::from_vec(text)))
        }
    }
}

/// A message's text, `rep:N:C` or between quotes; none where the word isn't one.
#[tactic(auto, unfolding(crate::specs::Parts::text))]
pub fn text(alloc: Global, word: &[u8]) -> Result<Option<Bytes>, Memory>
    ensures { IfOk result (λ text. text ≡ text_of word.now) }
{
    if let Some(rest) = strip_front(word, b"rep:") {
        return repeated_text(alloc, rest);
    }
    match strip_front(word, b"\"") {
        None => Ok(None),
        Some(rest) => quoted_text(alloc, rest),
    }
}

/// Whether these are the digits of a number from 10 to 99.
fn are_two_digits(tens: u8, ones: u8) -> bool
    ensures { result ≡ ((nat_le 49 tens && nat_le tens 57) && is_digit ones) }
{
    (b'1' <= tens && tens <= b'9') && ones.is_ascii_digit()
}

/// The number of two digits.
#[tactic(auto, unfolding(crate::specs::Parts::number, crate::specs::Parts::digits))]
fn two_digits(tens: u8, ones: u8) -> u16
    requires { ((nat_le 49 tens && nat_le tens 57) && is_digit ones) ≡ true }
    ensures { number_of 65535 (tens ∷ ones ∷ []) ≡ Some result }
{
    10 * u16::from(tens - b'0') + u16::from(ones - b'0')
}

/// What an operation adds, and whether `:nowait` follows.
#[inline(never)]
#[tactic(auto, unfolding(crate::specs::Parts::added))]
fn any_amount(word: &[u8]) -> Option<(i32, bool)>
    ensures { result ≡ added_of word.now }
{
    match cut(b':', word) {
        None => {
            let add = signed(MAX_NUMBER, word)?;
            Some((add, false))
        }
        Some((add, nowait)) => {
            let add = signed(MAX_NUMBER, add)?;
            if is_nowait(nowait) {
                Some((add, true))
            } else {
                None
            }
        }
    }
}

/// What `any_amount` gives. Most amounts have one digit, and are told without a search.
fn amount(word: &[u8]) -> Option<(i32, bool)>
    ensures { result ≡ added_of word.now }
{
    match word {
        [digit] if digit.is_ascii_digit() => Some((i32::from(*digit - b'0'), false)),
        [sign, digit, colon, nowait @ ..]
            if *sign == b'-' && b'1' <= *digit && *digit <= b'9' && *colon == b':' => {
            if is_nowait(nowait) {
                Some((-i32::from(*digit - b'0'), true))
            } else {
                None
            }
        }
        _ => any_amount(word),
    }
}

/// An operation's index, and what follows its colon.
#[inline(never)]
#[tactic(auto, unfolding(crate::specs::Parts::indexed))]
fn any_indexed(word: &[u8]) -> Option<(u16, &[u8])>
    ensures { option_map (λ x. (x.0, x.1.now)) result ≡ indexed_of word.now }
{
    let (num, rest) = cut(b':', word)?;
    let num = index(num)?;
    Some((num, rest))
}

/// What `any_indexed` gives. Most indices have one or two digits, and are told without a search.
fn indexed(word: &[u8]) -> Option<(u16, &[u8])>
    ensures { option_map (λ x. (x.0, x.1.now)) result ≡ indexed_of word.now }
{
    match word {
        [digit, colon, rest @ ..] if digit.is_ascii_digit() && *colon == b':' => {
            Some((u16::from(*digit - b'0'), rest))
        }
        [tens, ones, colon, rest @ ..] if are_two_digits(*tens, *ones) && *colon == b':' => {
            Some((two_digits(*tens, *ones), rest))
        }
        _ => any_indexed(word),
    }
}

/// An operation, `I:V` or `I:V:nowait`.
#[inline(always)]
#[tactic(auto, unfolding(crate::specs::Parts::step, crate::specs::Parts::indexed))]
fn any_step(word: &[u8]) -> Option<SemStep>
    ensures { result ≡ step_of word.now }
{
    let (num, add) = indexed(word)?;
    let (add, nowait) = amount(add)?;
    Some(SemStep { num, add, nowait })
}

/// What `any_step` gives. Most operations have an index and an amount of one digit, and are told at once.
fn step(word: &[u8]) -> Option<SemStep>
    ensures { result ≡ step_of word.now }
{
    match word {
        [index, colon, digit]
            if index.is_ascii_digit() && *colon == b':' && digit.is_ascii_digit() => {
            Some(SemStep {
                num: u16::from(*index - b'0'),
                add: i32::from(*digit - b'0'),
                nowait: false,
            })
        }
        [index, colon, sign, digit, behind, nowait @ ..]
            if index.is_ascii_digit()
                && *colon == b':'
                && *sign == b'-'
                && b'1' <= *digit
                && *digit <= b'9'
                && *behind == b':'
                && is_nowait(nowait) => {
            Some(SemStep {
                num: u16::from(*index - b'0'),
                add: -i32::from(*digit - b'0'),
                nowait: true,
            })
        }
        _ => any_step(word),
    }
}

/// The operations of these words.
#[tactic(auto, unfolding(crate::specs::Parts::each))]
pub(crate) fn steps(alloc: Global, words: &[&[u8]]) -> Result<Option<Steps>, Memory>
    ensures { IfOk result (λ steps. steps ≡ each step_of (texts words.now)) }
{
    let mut steps = Vec::with_capacity(alloc, words.len())?;
    for word in words {
        let Some(step) = step(word) else {
            return Ok(None);
        };
        steps.push_reserved(step);
    }
    Ok(Some(Sequence::from_vec(steps)))
}

/// The values of these words.
#[tactic(auto, unfolding(crate::specs::Parts::each))]
fn numbers(alloc: Global, words: &[&[u8]]) -> Result<Option<Values>, Memory>
    ensures { IfOk result (λ values. values ≡ each (number_of 65535) (texts words.now)) }
{
    let mut values = Vec::with_capacity(alloc, words.len())?;
    for word in words {
        let Some(value) = number(MAX_NUMBER, word) else {
            return Ok(None);
        };
        values.push_reserved(value);
    }
    Ok(Some(Sequence::from_vec(values)))
}

/// Values joined by commas.
#[tactic(auto, unfolding(crate::specs::Parts::values))]
pub(crate) fn values(alloc: Global, word: &[u8]) -> Result<Option<Values>, Memory>
    ensures { IfOk result (λ values. values ≡ values_of word.now) }
{
    let words = pieces(alloc, b',', word)?;
    numbers(alloc, words.as_slice())
}
