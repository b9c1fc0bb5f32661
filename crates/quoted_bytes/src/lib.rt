//! Bytes read from the front, in scripts and in traces: what follows a prefix, and a byte of a message's text as it
//! stands between quotes.
#![tactic(auto)]

mod front;

ghost use Rattle.std.specs.Prelude.{◌≡◌, ◌≤◌, IfSome, option_map};
ghost use Rattle.kernel_model.specs.Texts.{is_plain};
ghost use Rattle.quoted_bytes.specs.Bytes.{hex_at, escape_at, text_byte_at};

pub use front::strip_front;

/// Whether the byte stands for itself between quotes: it is printable, and neither `"` nor `\`.
pub fn is_plain(byte: u8) -> bool
    ensures { result ≡ is_plain byte }
{
    byte >= b' ' && byte <= b'~' && byte != b'"' && byte != b'\\'
}

/// The value of a lower-case hex digit.
#[tactic(auto, unfolding(crate::specs::Bytes::hex_at))]
fn hex(byte: u8) -> Option<u8>
    ensures value { result ≡ hex_at byte }
    ensures small { IfSome result (λ n. n ≤ 15) }
{
    match byte {
        b'0'..=b'9' => Some(byte - b'0'),
        b'a'..=b'f' => Some(byte - b'a' + 10),
        _ => None,
    }
}

/// The byte of `\xhh` behind its `\`, and what follows.
#[tactic(auto, unfolding(crate::specs::Bytes::escape_at))]
fn escape(bytes: &[u8]) -> Option<(u8, &[u8])>
    ensures { option_map (λ x. (x.0, x.1.now)) result ≡ escape_at bytes.now }
{
    match bytes {
        [x, high, low, rest @ ..] => {
            let high = hex(*high)?;
            let low = hex(*low)?;
            if *x == b'x' {
                Some((16 * high + low, rest))
            } else {
                None
            }
        }
        _ => None,
    }
}

/// One byte of a text between quotes, and what follows; none where no such byte is in front.
#[tactic(auto, unfolding(crate::specs::Bytes::text_byte_at))]
pub fn text_byte(bytes: &[u8]) -> Option<(u8, &[u8])>
    ensures { option_map (λ x. (x.0, x.1.now)) result ≡ text_byte_at bytes.now }
{
    match bytes {
        [] => None,
        [byte, rest @ ..] => {
            if *byte == b'\\' {
                escape(rest)
            } else if is_plain(*byte) {
                Some((*byte, rest))
            } else {
                None
            }
        }
    }
}
