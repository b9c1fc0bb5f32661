//! What a line says of sandboxes.

ghost use Rattle.std.specs.Prelude.{◌≡◌, ◌∷◌, option_copied};
ghost use Rattle.script_reader.specs.Words.{words_of};
ghost use Rattle.sandbox_set.specs.Boxes as spec;

use script_reader::{is_block_name, is_comment, next_word};

/// What a line is in an input of sandboxes, by its words alone.
#[derive(Clone, Copy)]
pub enum Heading {
    /// It has no words, or is a comment.
    Skipped,
    /// Its first word is `sandbox`.
    Sandbox,
    /// Its only word is `endsandbox`.
    EndSandbox,
    /// Its first word is `proc`.
    Proc,
    /// Any other line.
    Other,
}

/// A line by its first word and what follows that.
fn word_heading(word: &[u8], rest: &[u8]) -> Heading
    ensures { result ≡ spec.heading_by (word.now ∷ words_of rest.now) }
{
    if is_comment(word) {
        Heading::Skipped
    } else if word == b"sandbox".as_slice() {
        Heading::Sandbox
    } else if word == b"endsandbox".as_slice() && next_word(rest).is_none() {
        Heading::EndSandbox
    } else if word == b"proc".as_slice() {
        Heading::Proc
    } else {
        Heading::Other
    }
}

/// What a line is.
#[tactic(auto, unfolding(crate::specs::Boxes::heading_of))]
pub(crate) fn heading_in(line: &[u8]) -> Heading
    ensures { result ≡ spec.heading_of line.now }
{
    match next_word(line) {
        None => Heading::Skipped,
        Some((word, rest)) => word_heading(word, rest),
    }
}

/// The name in a line `sandbox NAME`.
#[tactic(auto, unfolding(crate::specs::Boxes::name_in))]
pub(crate) fn name_in(line: &[u8]) -> Option<&[u8]>
    ensures { option_copied result ≡ spec.name_in line.now }
{
    let (head, rest) = next_word(line)?;
    if head != b"sandbox".as_slice() {
        return None;
    }
    let (name, rest) = next_word(rest)?;
    if next_word(rest).is_none() && is_block_name(name) {
        Some(name)
    } else {
        None
    }
}
