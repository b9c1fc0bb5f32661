//! What the forms of calls have in common: things by variable or number, and words that may be missing.

ghost use Rattle.std.specs.Prelude.{◌≡◌, codes};
ghost use Rattle.script_reader.specs.Words.{texts};
ghost use Rattle.script_reader.specs.Forms as forms;

use crate::numbers::{number, positive};
use crate::parts::{is_nowait, variable};
use call_words::is_six;
use pico_base::{Call, Id, Pid, Var};
use quoted_bytes::strip_front;

/// A call, and the variable whose value stands in place of its process number or identifier.
pub type FromCall = (Option<Var>, Call);

/// `$VAR`, or an identifier.
#[inline(always)]
#[tactic(auto, unfolding(crate::specs::Forms::identifier))]
pub fn identifier(word: &[u8]) -> Option<(Option<Var>, Id)>
    ensures { result ≡ forms.identifier word.now }
{
    match strip_front(word, b"$") {
        Some(name) => {
            let variable = variable(name)?;
            Some((Some(variable), Id(0)))
        }
        None => {
            let id = number(u32::MAX, word)?;
            Some((None, Id(id)))
        }
    }
}

/// `$VAR`, or a process number.
#[tactic(auto, unfolding(crate::specs::Forms::process))]
pub(crate) fn process(word: &[u8]) -> Option<(Option<Var>, Pid)>
    ensures { result ≡ forms.process word.now }
{
    match strip_front(word, b"$") {
        Some(name) => {
            let variable = variable(name)?;
            Some((Some(variable), Pid(0)))
        }
        None => {
            let pid = positive(u32::MAX, word)?;
            Some((None, Pid(pid)))
        }
    }
}

/// No word, or this one.
#[tactic(auto, unfolding(crate::specs::Forms::optional))]
pub(crate) fn optional(word: &[u8], words: &[&[u8]]) -> Option<bool>
    ensures { result ≡ forms.optional word.now (texts words.now) }
{
    match words {
        [] => Some(false),
        [only] if *only == word => Some(true),
        _ => None,
    }
}

/// At most `create` and `excl`, in this order.
#[tactic(auto, unfolding(crate::specs::Forms::two_optional))]
pub fn create_excl(words: &[&[u8]]) -> Option<(bool, bool)>
    ensures { result ≡ forms.two_optional (codes "create") (codes "excl") (texts words.now) }
{
    match words {
        [] => Some((false, false)),
        [only] => {
            if is_six(*b"create", only) {
                Some((true, false))
            } else if *only == b"excl".as_slice() {
                Some((false, true))
            } else {
                None
            }
        }
        [one, two] if *one == b"create".as_slice() && *two == b"excl".as_slice() => {
            Some((true, true))
        }
        _ => None,
    }
}

/// No word, or `nowait`.
#[tactic(auto, unfolding(crate::specs::Forms::optional))]
pub(crate) fn optional_nowait(words: &[&[u8]]) -> Option<bool>
    ensures { result ≡ forms.optional (codes "nowait") (texts words.now) }
{
    match words {
        [] => Some(false),
        [only] if is_nowait(only) => Some(true),
        _ => None,
    }
}

/// At most `noerror` and `nowait`, in this order.
#[tactic(auto, unfolding(crate::specs::Forms::two_optional))]
pub(crate) fn noerror_nowait(words: &[&[u8]]) -> Option<(bool, bool)>
    ensures { result ≡ forms.two_optional (codes "noerror") (codes "nowait") (texts words.now) }
{
    match words {
        [] => Some((false, false)),
        [only] => {
            if *only == b"noerror".as_slice() {
                Some((true, false))
            } else if is_nowait(only) {
                Some((false, true))
            } else {
                None
            }
        }
        [one, two] if *one == b"noerror".as_slice() && is_nowait(two) => Some((true, true)),
        _ => None,
    }
}
