//! The lines that begin and end sandboxes.
use explain_base::{Line, Lines, Words};
use explain_calls::text_at;
use std::alloc::{AllocError, Global};

/// Whether a line begins a sandbox, by its first word.
pub fn begins(line: Line<'_>) -> bool {
    text_at(Words::of(line.text), 0) == b"sandbox".as_slice()
}

// Whether a line ends a sandbox: no word stands behind its first one.
fn ends(line: Line<'_>) -> bool {
    let words = Words::of(line.text);
    text_at(words, 0) == b"endsandbox".as_slice() && words.get(1).is_none()
}

/// The last line before that one that begins a sandbox.
pub fn begun<'a>(bytes: &'a [u8], number: usize) -> Option<Line<'a>> {
    let mut last = None;
    for line in Lines::of(bytes) {
        if line.number >= number {
            break;
        }
        if begins(line) {
            last = Some(line);
        }
    }
    last
}

/// The script of the sandbox that this line stands in or ends, in its place: each line before the script is empty, and
/// behind it there is none.
pub fn script_alone(alloc: Global, bytes: &[u8], number: usize) -> Result<Vec<u8>, AllocError> {
    let start = match begun(bytes, number) {
        Some(line) => line.number,
        None => 0,
    };
    let mut alone = Vec::new(alloc);
    for line in Lines::of(bytes) {
        if line.number > start {
            if begins(line) || ends(line) {
                break;
            }
            alone.extend_from_slice(line.text)?;
        }
        if line.is_ended {
            alone.push(b'\n')?;
        }
    }
    Ok(alone)
}
