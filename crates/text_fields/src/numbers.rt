//! Numbers at the front of a text.
ghost use Rattle.std.specs.Prelude.{◌≡◌, ◌≤◌, IfSome, option_map};
ghost use Rattle.text_fields.specs.Fields.{digit_at, digits_front, number_at, signed_at};

use quoted_bytes::strip_front;

/// A digit's value.
#[tactic(auto, unfolding(crate::specs::Fields::digit_at))]
fn digit(bytes: &[u8]) -> Option<(u8, &[u8])>
    ensures value { option_map (λ x. (x.0, x.1.now)) result ≡ digit_at bytes.now }
    ensures small { IfSome result (λ x. x.0 ≤ 9) }
{
    match bytes {
        [byte, rest @ ..] if byte.is_ascii_digit() => Some((*byte - b'0', rest)),
        _ => None,
    }
}

/// The number of these digits, up to the limit, behind digits of this value.
fn digits(limit: u32, start: u32, bytes: &[u8]) -> Option<(u32, &[u8])>
    requires { start ≤ limit }
    ensures value { option_map (λ x. (x.0, x.1.now)) result ≡ digits_front limit start bytes.now }
    ensures small { IfSome result (λ x. x.0 ≤ limit) }
{
    let mut value = start;
    let mut rest = bytes;
    while let Some((next, after)) = digit(rest) {
        let more = u64::from(value) * 10 + u64::from(next);
        if more > u64::from(limit) {
            return None;
        }
        value = more as u32;
        rest = after;
    }
    Some((value, rest))
}

/// A number up to the limit, without leading zeros.
#[tactic(auto, unfolding(crate::specs::Fields::number_at))]
pub fn number_front(limit: u32, bytes: &[u8]) -> Option<(u32, &[u8])>
    requires { 9 ≤ limit }
    ensures value { option_map (λ x. (x.0, x.1.now)) result ≡ number_at limit bytes.now }
    ensures small { IfSome result (λ x. x.0 ≤ limit) }
{
    let (first, rest) = digit(bytes)?;
    if first == 0 {
        Some((0, rest))
    } else {
        digits(limit, u32::from(first), rest)
    }
}

/// A number from the limit below zero to the limit, with one `-` where it is negative.
#[tactic(auto, unfolding(crate::specs::Fields::signed_at))]
pub fn signed_front(limit: u32, bytes: &[u8]) -> Option<(i32, &[u8])>
    requires low { 9 ≤ limit }
    requires high { limit ≤ 2147483647 }
    ensures { option_map (λ x. (x.0, x.1.now)) result ≡ signed_at limit bytes.now }
{
    match strip_front(bytes, b"-") {
        None => {
            let (value, rest) = number_front(limit, bytes)?;
            Some((value as i32, rest))
        }
        Some(digits) => {
            let (value, rest) = number_front(limit, digits)?;
            if value == 0 {
                None
            } else {
                Some((-(value as i32), rest))
            }
        }
    }
}
