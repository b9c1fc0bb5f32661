//! The script in an image, and what stands behind it.
ghost use Rattle.std.specs.Prelude.{◌≡◌, ◌<◌, ◌≤◌, ◌+◌, ◌==◌, length, count_by};
ghost use Rattle.script_reader.specs.Words.{lines_of};
ghost use Rattle.script_reader.specs.Fault.{line_behind};
ghost use Rattle.image_text.specs.Parts as spec;

use script_reader::{next_line, next_word};

/// The most bytes of an image.
const MAX_IMAGE: usize = 16_777_216;

/// A text cut before its first line whose first word is `image`.
#[derive(Clone, Copy)]
pub(crate) struct Parts<'a> {
    /// The lines before it, without the line feed of the last one; all bytes where there is no such line.
    pub script: &'a [u8],
    /// The bytes from that line on; none where there is no such line.
    pub behind: &'a [u8],
    /// The number of that line, from 1; the number of lines plus 1 where there is none.
    pub number: u32,
}

/// As many bytes of a text as tell whether it is an image: all of an image, and one more than an image has at most of a
/// text that is too large.
#[tactic(auto, unfolding(crate::specs::Parts::seen))]
pub(crate) fn seen(image: &[u8]) -> &[u8]
    ensures value { result.now ≡ spec.seen image.now }
    ensures small { length result.now ≤ 16777217 }
{
    if image.len() > MAX_IMAGE {
        &image[..MAX_IMAGE + 1]
    } else {
        image
    }
}

/// Whether there are more bytes than an image may have.
pub(crate) fn is_large(bytes: &[u8]) -> bool
    ensures { result ≡ spec.is_large bytes.now }
{
    bytes.len() > MAX_IMAGE
}

/// How many line feeds there are.
fn line_feeds(bytes: &[u8]) -> u32
    requires { length bytes.now ≤ 16777216 }
    ensures value { result ≡ count_by (λ b. b == 10) bytes.now }
    ensures small { result ≤ 16777216 }
{
    bytes.iter().filter(|b| **b == b'\n').count() as u32
}

/// The line of the first byte that is too many.
pub(crate) fn line_of_excess(bytes: &[u8]) -> u32
    requires { 16777216 < length bytes.now }
    ensures { result ≡ line_behind 16777216 bytes.now }
{
    1 + line_feeds(&bytes[..MAX_IMAGE])
}

/// Whether the line's first word is `image`.
#[tactic(auto, unfolding(crate::specs::Parts::ends_script))]
fn ends_script(line: &[u8]) -> bool
    ensures { result ≡ spec.ends_script line.now }
{
    match next_word(line) {
        Some((word, _)) => word == b"image".as_slice(),
        None => false,
    }
}

impl<'a> Parts<'a> {
    /// The parts of a text.
    pub(crate) fn of(bytes: &'a [u8]) -> Parts<'a>
        requires { length bytes.now ≤ 16777217 }
        ensures script { result.script.now ≡ spec.script_of bytes.now }
        ensures lines { lines_of result.behind.now ≡ spec.lines_behind bytes.now }
        ensures number { result.number ≡ spec.number_behind bytes.now }
        ensures small { result.number + length result.behind.now ≤ length bytes.now + 1 }
    {
        let mut rest = bytes;
        let mut size: usize = 0;
        let mut before: u32 = 0;
        while let Some((line, after)) = next_line(rest) {
            if ends_script(line) {
                return Parts {
                    script: &bytes[..size.saturating_sub(1)],
                    behind: rest,
                    number: before + 1,
                };
            }
            size += line.len() + 1;
            before += 1;
            rest = after;
        }
        Parts {
            script: bytes,
            behind: &bytes[bytes.len()..],
            number: before + 1,
        }
    }
}
