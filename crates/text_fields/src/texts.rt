//! Messages' texts at the front of a text.
ghost use Rattle.std.specs.Prelude.{◌≡◌, ◌≤◌, IfOk, IfSome, IsTrue, length, option_map, take};
ghost use Rattle.std.specs.List.{list_all};
ghost use Rattle.kernel_model.specs.Texts.{is_plain as is_plain_byte};
ghost use Rattle.quoted_bytes.specs.Bytes.{text_byte_at};
ghost use Rattle.text_fields.specs.Fields.{all_at, closed_of, quoted_at, repeated_at, count_at, repetition_at, text_at};

use crate::numbers::number_front;
use pico_base::{Bytes, Memory, Sequence};
use quoted_bytes::{is_plain, strip_front, text_byte};
use std::alloc::Global;

/// The longest text of `rep:N:C`.
const MAX_REPEATED: u32 = 8192;

/// How many bytes are tested together.
const WINDOW: usize = 16;

/// Whether each byte stands for itself between quotes. Each is tested, also behind one that doesn't, so that the loop
/// has no early end and becomes vector code.
fn all_plain(bytes: &[u8]) -> bool
    ensures { result ≡ list_all is_plain_byte bytes.now }
{
    let mut all = true;
    for byte in bytes {
        all &= is_plain(*byte);
    }
    all
}

/// How many bytes stand for themselves in whole windows at the front.
fn plain_windows(bytes: &[u8]) -> usize
    ensures within { result ≤ length bytes.now }
    ensures plain { IsTrue (list_all is_plain_byte (take result bytes.now)) }
{
    let mut count = 0;
    while bytes.len() - count >= WINDOW && all_plain(&bytes[count..count + WINDOW]) {
        count += WINDOW;
    }
    count
}

/// How many bytes at the front stand for themselves.
fn plain_front(bytes: &[u8]) -> usize
    ensures within { result ≤ length bytes.now }
    ensures plain { IsTrue (list_all is_plain_byte (take result bytes.now)) }
{
    let mut count = plain_windows(bytes);
    while count < bytes.len() && is_plain(bytes[count]) {
        count += 1;
    }
    count
}

/// The bytes of a text between quotes, up to what is none. Bytes that stand for themselves are taken together.
fn text_bytes(alloc: Global, bytes: &[u8]) -> Result<(Bytes, &[u8]), Memory>
    ensures { IfOk result (λ x. (x.0, x.1.now) ≡ all_at text_byte_at bytes.now) }
{
    let count = plain_front(bytes);
    let mut text = Vec::from_slice(alloc, &bytes[..count])?;
    let mut rest = &bytes[count..];
    while let Some((byte, after)) = text_byte(rest) {
        text.push(byte)?;
        let count = plain_front(after);
        text.extend_from_slice(&after[..count])?;
        rest = &after[count..];
    }
    Ok((Sequence::from_vec(text), rest))
}

/// The text where its closing quote is next.
fn close_text(text: Bytes, bytes: &[u8]) -> Option<(Bytes, &[u8])>
    ensures { option_map (λ x. (x.0, x.1.now)) result ≡ closed_of (text, bytes.now) }
{
    let rest = strip_front(bytes, b"\"")?;
    Some((text, rest))
}

/// A text behind its opening quote.
#[tactic(auto, unfolding(crate::specs::Fields::quoted_at))]
fn quoted_text(alloc: Global, bytes: &[u8]) -> Result<Option<(Bytes, &[u8])>, Memory>
    ensures { IfOk result (λ text. option_map (λ x. (x.0, x.1.now)) text ≡ quoted_at bytes.now) }
{
    match text_bytes(alloc, bytes) {
        Ok((text, rest)) => Ok(close_text(text, rest)),
        Err(memory) => Err(memory),
    }
}

/// The byte of `rep:N:C`, so many times.
#[tactic(auto, unfolding(crate::specs::Fields::repeated_at))]
fn repeated_text(alloc: Global, count: u32, bytes: &[u8]) -> Result<Option<(Bytes, &[u8])>, Memory>
    ensures { IfOk result (λ text. option_map (λ x. (x.0, x.1.now)) text ≡ repeated_at count bytes.now) }
{
    match bytes {
        [letter, rest @ ..] => {
            let text = vec![in alloc; *letter; count as usize]?;
            Ok(Some((Sequence::from_vec(text), rest)))
        }
        [] => Ok(None),
    }
}

/// The count of `N:C`, and what stands behind the colon.
fn count_front(bytes: &[u8]) -> Option<(u32, &[u8])>
    ensures { option_map (λ x. (x.0, x.1.now)) result ≡ count_at bytes.now }
{
    let (count, rest) = number_front(MAX_REPEATED, bytes)?;
    Some((count, strip_front(rest, b":")?))
}

/// The text of `N:C`.
#[tactic(auto, unfolding(crate::specs::Fields::repetition_at))]
fn repetition(alloc: Global, bytes: &[u8]) -> Result<Option<(Bytes, &[u8])>, Memory>
    ensures { IfOk result (λ text. option_map (λ x. (x.0, x.1.now)) text ≡ repetition_at bytes.now) }
{
    match count_front(bytes) {
        None => Ok(None),
        Some((count, rest)) => repeated_text(alloc, count, rest),
    }
}

/// A text, `rep:N:C` or between quotes.
#[tactic(auto, unfolding(crate::specs::Fields::text_at))]
pub fn text_front(alloc: Global, bytes: &[u8]) -> Result<Option<(Bytes, &[u8])>, Memory>
    ensures { IfOk result (λ text. option_map (λ x. (x.0, x.1.now)) text ≡ text_at bytes.now) }
{
    if let Some(rest) = strip_front(bytes, b"rep:") {
        return repetition(alloc, rest);
    }
    match strip_front(bytes, b"\"") {
        None => Ok(None),
        Some(rest) => quoted_text(alloc, rest),
    }
}
