//! What is told of a refusal.
ghost use Rattle.std.specs.Prelude.{◌≡◌, ◌<◌, ◌↔◌, IfOk, IsTrue, is_some, vec_len};
ghost use Rattle.std.specs.List.{All};
ghost use Rattle.explain_base.specs.Shown.{IsShown};
ghost use Rattle.explain.specs.Refusal.{begins_with, is_refusal};

use explain_base::{Finding, Page, Text, text_of};
use explain_boxes::{explain_boxes, script_alone};
use explain_calls::Queues;
use explain_image::explain_image;
use explain_script::explain_script;
use explain_trace::{explain_trace, trace_line};
use explain_words::{Given, explain_words};
use std::alloc::{AllocError, Global};

// The greatest line of a script, in bytes.
const MAX_LINE: usize = 4096;

// A number at the front, and what stands behind it and these bytes.
fn numbered<'a>(text: &'a [u8], between: &[u8]) -> Option<(usize, &'a [u8])> {
    let size = text.iter().position(|byte| !byte.is_ascii_digit())?;
    let (digits, behind) = text.split_at(size);
    let mut number = 0usize;
    for digit in digits {
        number = number
            .checked_mul(10)?
            .checked_add(usize::from(digit.saturating_sub(b'0')))?;
    }
    let rest = behind.strip_prefix(between)?;
    if digits.is_empty() {
        None
    } else {
        Some((number, rest))
    }
}

// Whether the words ask for this mode.
fn asks_for(words: &[String], mode: &str) -> bool {
    match Given::of(words).first {
        Some(word) => word.text == mode,
        None => false,
    }
}

// The script of a text to check, and whether a line `trace` is behind it. Where that line is longer than a script's may
// be, it is itself part of what is looked at.
fn script_in(bytes: &[u8]) -> (&[u8], bool) {
    match trace_line(bytes) {
        None => (bytes, false),
        Some((script, line, _)) => {
            if line.text.len() <= MAX_LINE {
                return (script, true);
            }
            let end = script.len().saturating_add(line.text.len());
            (bytes.get(..end).unwrap_or(bytes), true)
        }
    }
}

// What is told of a fault of a script or of an image, which is told behind `fault: line `.
fn of_script<'a>(
    alloc: Global,
    told: &'a [u8],
    words: &[String],
    bytes: &'a [u8],
) -> Result<Finding<'a>, AllocError> {
    let Some((number, name)) = numbered(told, b": ") else {
        let what = Text::plain("the script has a fault");
        return Ok(Finding::without_line(alloc, what, Text::none(), None, Page::Faults));
    };
    if asks_for(words, "thaw") {
        return explain_image(alloc, bytes, number, name);
    }
    if asks_for(words, "mq") {
        return explain_script(alloc, bytes, number, name, false, Queues::Posix);
    }
    let (script, ends_at_trace) = if asks_for(words, "check") {
        script_in(bytes)
    } else {
        (bytes, false)
    };
    explain_script(alloc, script, number, name, ends_at_trace, Queues::SystemV)
}

// What is told of a fault of several sandboxes, which is told behind `fault: line `.
fn of_boxes(alloc: Global, told: &[u8], bytes: &[u8]) -> Result<Vec<u8>, AllocError>
    ensures some { IfOk result (λ text. 0 < vec_len text) }
    ensures shown { IfOk result (λ text. All IsShown text.items) }
{
    let Some((number, name)) = numbered(told, b": ") else {
        let what = Text::plain("the sandboxes have a fault");
        let finding = Finding::without_line(alloc, what, Text::none(), None, Page::Sandboxes);
        return text_of(alloc, &finding);
    };
    let alone = script_alone(alloc, bytes, number)?;
    let finding = explain_boxes(alloc, bytes, alone.as_slice(), number, name)?;
    text_of(alloc, &finding)
}

// What is told of a fault of a trace, which is told behind `not legal: `.
fn of_trace<'a>(alloc: Global, told: &'a [u8], bytes: &'a [u8]) -> Result<Finding<'a>, AllocError> {
    let found = match told.strip_prefix(b"line ") {
        Some(rest) => numbered(rest, b": "),
        None => None,
    };
    match found {
        Some((number, why)) => explain_trace(alloc, bytes, number, why),
        None => {
            let what = Text::plain("the trace isn't legal");
            Ok(Finding::without_line(alloc, what, Text::none(), None, Page::Checking))
        }
    }
}

// What stands behind these bytes, where a line begins with them.
fn behind<'a>(line: &'a [u8], front: &[u8]) -> Option<&'a [u8]>
    ensures { is_some result ≡ begins_with front.now line.now }
{
    line.strip_prefix(front)
}

/// What is told where the program answered these words and bytes by this line: something exactly where the line is a
/// refusal, and nothing but printable bytes and line feeds, whatever the bytes are.
#[tactic(auto, unfolding(crate::specs::Refusal::is_refusal))]
pub fn explain<'a>(
    alloc: Global,
    line: &'a [u8],
    words: &[String],
    bytes: &'a [u8],
) -> Result<Vec<u8>, AllocError>
    ensures told { IfOk result (λ text. IsTrue (is_refusal line.now) ↔ (0 < vec_len text)) }
    ensures shown { IfOk result (λ text. All IsShown text.items) }
{
    if let Some(told) = behind(line, b"fault: line ") {
        if asks_for(words, "boxes") {
            return of_boxes(alloc, told, bytes);
        }
        let finding = of_script(alloc, told, words, bytes)?;
        return text_of(alloc, &finding);
    }
    if let Some(told) = behind(line, b"not legal: ") {
        let finding = of_trace(alloc, told, bytes)?;
        return text_of(alloc, &finding);
    }
    if behind(line, b"usage: ").is_some() {
        return explain_words(alloc, words);
    }
    Ok(Vec::new(alloc))
}
