//! Words that are numbers.

ghost use Rattle.std.specs.Prelude.{◌≡◌, ◌≤◌, ◌<◌, IfSome, [], ◌∷◌};
ghost use Rattle.script_reader.specs.Parts.{digits as digits_of, number as number_of, positive as positive_of, signed as signed_of};

use quoted_bytes::strip_front;

/// The greatest size, index and value in a line.
pub(crate) const MAX_NUMBER: u32 = 65_535;

/// The value of these digits, up to the limit.
#[inline(never)]
#[tactic(auto, unfolding(crate::specs::Parts::digits))]
fn digits(limit: u32, word: &[u8]) -> Option<u32>
    ensures value { result ≡ digits_of limit 0 word.now }
    ensures small { IfSome result (λ n. n ≤ limit) }
{
    let mut value: u64 = 0;
    for byte in word {
        if !byte.is_ascii_digit() {
            return None;
        }
        value = value * 10 + u64::from(*byte - b'0');
        if value > u64::from(limit) {
            return None;
        }
    }
    Some(value as u32)
}

/// The value of one digit behind digits of this value, up to the limit.
#[inline(always)]
#[tactic(auto, unfolding(crate::specs::Parts::digits))]
fn with_digit(limit: u32, value: u32, digit: u8) -> Option<u32>
    ensures value { result ≡ digits_of limit value (digit ∷ []) }
    ensures small { IfSome result (λ n. n ≤ limit) }
{
    if !digit.is_ascii_digit() {
        return None;
    }
    let more = u64::from(value) * 10 + u64::from(digit - b'0');
    if more > u64::from(limit) {
        None
    } else {
        Some(more as u32)
    }
}

/// A number up to the limit, without leading zeros; none where the word isn't one. Most have one or two digits.
#[inline(always)]
#[tactic(auto, unfolding(crate::specs::Parts::number, crate::specs::Parts::digits))]
pub fn number(limit: u32, word: &[u8]) -> Option<u32>
    ensures value { result ≡ number_of limit word.now }
    ensures small { IfSome result (λ n. n ≤ limit) }
{
    match word {
        [] => None,
        [digit] => with_digit(limit, 0, *digit),
        [b'0', _, ..] => None,
        [tens, ones] => {
            let value = with_digit(limit, 0, *tens)?;
            with_digit(limit, value, *ones)
        }
        _ => digits(limit, word),
    }
}

/// A number from 1 to the limit; none where the word isn't one.
#[tactic(auto, unfolding(crate::specs::Parts::positive))]
pub fn positive(limit: u32, word: &[u8]) -> Option<u32>
    ensures value { result ≡ positive_of limit word.now }
    ensures small { IfSome result (λ n. n ≤ limit) }
    ensures some { IfSome result (λ n. 1 ≤ n) }
{
    let value = number(limit, word)?;
    if value == 0 { None } else { Some(value) }
}

/// A semaphore's index.
#[tactic(auto)]
pub(crate) fn index(word: &[u8]) -> Option<u16>
    ensures { result ≡ number_of 65535 word.now }
{
    let num = number(MAX_NUMBER, word)?;
    Some(num as u16)
}

/// A number from the limit below zero to the limit.
#[inline(always)]
#[tactic(auto, unfolding(crate::specs::Parts::signed))]
pub(crate) fn signed(limit: u32, word: &[u8]) -> Option<i32>
    requires { limit ≤ 2147483647 }
    ensures { result ≡ signed_of limit word.now }
{
    match strip_front(word, b"-") {
        None => {
            let value = number(limit, word)?;
            Some(value as i32)
        }
        Some(digits) => {
            let value = positive(limit, digits)?;
            Some(-(value as i32))
        }
    }
}
