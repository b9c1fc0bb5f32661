//! Numbers in the lines of an image.
ghost use Rattle.std.specs.Prelude.{◌≡◌, ◌≤◌, IfSome, option_map};
ghost use Rattle.std.specs.List.{list_all};
ghost use Rattle.text_fields.specs.Fields.{digit_at, digits_front, number_at, is_digit as is_digit_of};
ghost use Rattle.image_text.specs.Lines as spec;

use text_fields::number_front;

/// The greatest stamp.
pub(crate) const MAX_STAMP: u64 = 9_223_372_036_854_775_807;

/// The most nodes of a script.
const MAX_NODE: u32 = 32;

/// A digit's value.
#[tactic(auto, unfolding(text_fields::specs::Fields::digit_at))]
fn digit(bytes: &[u8]) -> Option<(u8, &[u8])>
    ensures value { option_map (λ x. (x.0, x.1.now)) result ≡ digit_at bytes.now }
    ensures small { IfSome result (λ x. x.0 ≤ 9) }
{
    match bytes {
        [byte, rest @ ..] if byte.is_ascii_digit() => Some((*byte - b'0', rest)),
        _ => None,
    }
}

/// The stamp of these digits behind digits of this value.
fn stamp_digits(start: u64, bytes: &[u8]) -> Option<(u64, &[u8])>
    requires { start ≤ 9223372036854775807 }
    ensures value { option_map (λ x. (x.0, x.1.now)) result ≡ digits_front 9223372036854775807 start bytes.now }
    ensures small { IfSome result (λ x. x.0 ≤ 9223372036854775807) }
{
    let mut value = start;
    let mut rest = bytes;
    while let Some((next, after)) = digit(rest) {
        let units = u64::from(next);
        if value > (MAX_STAMP - units) / 10 {
            return None;
        }
        value = value * 10 + units;
        rest = after;
    }
    Some((value, rest))
}

/// A number up to the greatest stamp, without leading zeros, and what follows it.
#[tactic(auto, unfolding(text_fields::specs::Fields::number_at))]
pub(crate) fn stamp_front(bytes: &[u8]) -> Option<(u64, &[u8])>
    ensures value { option_map (λ x. (x.0, x.1.now)) result ≡ number_at 9223372036854775807 bytes.now }
    ensures small { IfSome result (λ x. x.0 ≤ 9223372036854775807) }
{
    let (first, rest) = digit(bytes)?;
    if first == 0 {
        Some((0, rest))
    } else {
        stamp_digits(u64::from(first), rest)
    }
}

fn is_node(nodes: u8, node: u32) -> bool
    ensures { result ≡ spec.is_node nodes node }
{
    0 < node && node <= u32::from(nodes)
}

/// The number of one of so many nodes, and what follows it.
#[tactic(auto, unfolding(crate::specs::Lines::node_at))]
pub(crate) fn node_front(nodes: u8, bytes: &[u8]) -> Option<(u8, &[u8])>
    ensures value { option_map (λ x. (x.0, x.1.now)) result ≡ spec.node_at nodes bytes.now }
    ensures small { IfSome result (λ x. (1 ≤ x.0) × (x.0 ≤ 32)) }
{
    let (number, rest) = number_front(MAX_NODE, bytes)?;
    if is_node(nodes, number) {
        Some((number as u8, rest))
    } else {
        None
    }
}

/// The number of the node that all of these bytes are.
pub(crate) fn whole_node(nodes: u8, bytes: &[u8]) -> Option<u8>
    ensures value { result ≡ spec.whole_number (spec.node_at nodes bytes.now) }
    ensures small { IfSome result (λ x. (1 ≤ x) × (x ≤ 32)) }
{
    let (number, rest) = node_front(nodes, bytes)?;
    if rest.is_empty() { Some(number) } else { None }
}

fn is_digit(byte: u8) -> bool
    ensures { result ≡ is_digit_of byte }
{
    byte.is_ascii_digit()
}

// Each byte is tested, also behind one that is no digit: so the loop has no early end.
fn are_digits(bytes: &[u8]) -> bool
    ensures { result ≡ list_all is_digit_of bytes.now }
{
    let mut all = true;
    for byte in bytes {
        all &= is_digit(*byte);
    }
    all
}

/// Whether these are digits with no zero in front.
fn is_long_number(bytes: &[u8]) -> bool
    ensures { result ≡ spec.is_long_number bytes.now }
{
    match bytes {
        [] => false,
        [first, ..] => *first != b'0' && are_digits(bytes),
    }
}

/// The number up to 4,294,967,295 that all of these bytes are.
fn whole_count(bytes: &[u8]) -> Option<u32>
    ensures { result ≡ spec.whole_number (number_at 4294967295 bytes.now) }
{
    let (number, rest) = number_front(u32::MAX, bytes)?;
    if rest.is_empty() { Some(number) } else { None }
}

/// The count that these bytes are, where one above 4,294,967,295 counts as that.
pub(crate) fn count_of(bytes: &[u8]) -> Option<u32>
    ensures { result ≡ spec.count_of bytes.now }
{
    match whole_count(bytes) {
        Some(count) => Some(count),
        None if is_long_number(bytes) => Some(u32::MAX),
        None => None,
    }
}
