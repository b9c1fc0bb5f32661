//! Words that are variables, names or signals.

ghost use Rattle.std.specs.Prelude.{◌≡◌, ◌≤◌, ◌==◌, [], ◌∷◌, false, IfSome, option_map, position, length, ◌<◌, bytes_eq, codes};
ghost use Rattle.std.specs.List.{list_all, find};
ghost use Rattle.pico_base.specs.Signal.{everywhere};
ghost use Rattle.kernel_model.specs.Script.{is_name, is_name_byte};
ghost use Rattle.kernel_model.specs.Trace.{signal_name};
ghost use Rattle.script_reader.specs.Words.{pieces};
ghost use Rattle.script_reader.specs.Parts.{cut as cut_of, letter_index as index_of_letter, variable as variable_of, signal as signal_of, signal_argument as signal_argument_of, action as action_of, how as how_of, signals_with, signal_set as signal_set_of};

use call_words::{action_name, how_name, is_four};
use pico_base::{Act, How, Sig, SigArg, SigSet, Var};

fn first_of(byte: u8, word: &[u8]) -> Option<usize>
    ensures { result ≡ position (λ b. b == byte) word.now }
{
    word.iter().position(|b| *b == byte)
}

/// What stands before the first of these bytes, and what behind it.
#[tactic(auto, unfolding(crate::specs::Parts::cut))]
pub(crate) fn cut(byte: u8, word: &[u8]) -> Option<(&[u8], &[u8])>
    ensures value { option_map (λ x. (x.0.now, x.1.now)) result ≡ cut_of byte word.now }
    ensures shorter { IfSome result (λ x. length x.1.now < length word.now) }
{
    let at = first_of(byte, word)?;
    Some((&word[..at], &word[at + 1..]))
}

/// What a letter adds to a variable's index.
fn letter_index(letter: u8) -> u16
    requires low { 97 ≤ letter }
    requires high { letter ≤ 122 }
    ensures { result ≡ index_of_letter letter }
{
    111 * u16::from(letter - b'a')
}

/// A variable's index: a letter and at most two digits.
#[tactic(auto, unfolding(crate::specs::Parts::variable))]
pub(crate) fn variable(word: &[u8]) -> Option<Var>
    ensures { result ≡ variable_of word.now }
{
    match word {
        [l] if l.is_ascii_lowercase() => Some(Var(letter_index(*l))),
        [l, d] if l.is_ascii_lowercase() && d.is_ascii_digit() => {
            Some(Var(letter_index(*l) + (1 + u16::from(*d - b'0'))))
        }
        [l, d, e] if l.is_ascii_lowercase() && d.is_ascii_digit() && e.is_ascii_digit() => {
            let digits = 10 * u16::from(*d - b'0') + u16::from(*e - b'0');
            Some(Var(letter_index(*l) + (11 + digits)))
        }
        _ => None,
    }
}

fn is_name_part(byte: u8) -> bool
    ensures { result ≡ is_name_byte byte }
{
    byte.is_ascii_lowercase() || byte.is_ascii_digit() || byte == b'_'
}

fn are_name_parts(bytes: &[u8]) -> bool
    ensures { result ≡ list_all is_name_byte bytes.now }
{
    bytes.iter().all(|b| is_name_part(*b))
}

/// Whether the word can be a block's name: a lower-case letter, and behind it at most 31 lower-case letters, digits
/// and `_`.
pub fn is_block_name(word: &[u8]) -> bool
    ensures { result ≡ is_name word.now }
{
    match word {
        [] => false,
        [first, others @ ..] => {
            first.is_ascii_lowercase() && are_name_parts(others) && others.len() <= 31
        }
    }
}

/// Whether a word is `nowait`. Many lines end in it, so its bytes are told one by one, without a call.
#[inline(always)]
pub(crate) fn is_nowait(word: &[u8]) -> bool
    ensures { result ≡ bytes_eq word.now (codes "nowait") }
{
    match word {
        [n, o, w, a, i, t] => {
            (*n == b'n')
                & ((*o == b'o') & ((*w == b'w') & ((*a == b'a') & ((*i == b'i') & (*t == b't')))))
        }
        _ => false,
    }
}

/// The signal of this name. Each name is tried as a constant.
#[tactic(auto, unfolding(crate::specs::Parts::signal))]
pub(crate) fn signal(word: &[u8]) -> Option<Sig>
    ensures { result ≡ signal_of word.now }
{
    if b"HUP".as_slice() == word {
        Some(Sig::Hup)
    } else if b"INT".as_slice() == word {
        Some(Sig::Int)
    } else if is_four(*b"QUIT", word) {
        Some(Sig::Quit)
    } else if is_four(*b"KILL", word) {
        Some(Sig::Kill)
    } else if is_four(*b"USR1", word) {
        Some(Sig::Usr1)
    } else if is_four(*b"USR2", word) {
        Some(Sig::Usr2)
    } else if is_four(*b"PIPE", word) {
        Some(Sig::Pipe)
    } else if is_four(*b"ALRM", word) {
        Some(Sig::Alrm)
    } else if is_four(*b"TERM", word) {
        Some(Sig::Term)
    } else if is_four(*b"CHLD", word) {
        Some(Sig::Chld)
    } else {
        None
    }
}

/// A signal's name, `0` or `badsig`.
#[tactic(auto, unfolding(crate::specs::Parts::signal_argument))]
pub(crate) fn signal_argument(word: &[u8]) -> Option<SigArg>
    ensures { result ≡ signal_argument_of word.now }
{
    if word == b"0".as_slice() {
        return Some(SigArg::Zero);
    }
    if word == b"badsig".as_slice() {
        return Some(SigArg::Bad);
    }
    let sig = signal(word)?;
    Some(SigArg::Is(sig))
}

/// What a signal is to do.
#[tactic(auto, unfolding(crate::specs::Parts::action))]
pub(crate) fn action(word: &[u8]) -> Option<Act>
    ensures { result ≡ action_of word.now }
{
    [Act::Dfl, Act::Ign, Act::Catch]
        .iter()
        .copied()
        .find(|a| action_name(*a) == word)
}

/// How a mask is to change.
#[tactic(auto, unfolding(crate::specs::Parts::how))]
pub(crate) fn how(word: &[u8]) -> Option<How>
    ensures { result ≡ how_of word.now }
{
    [How::Block, How::Unblock, How::SetMask]
        .iter()
        .copied()
        .find(|h| how_name(*h) == word)
}

/// The set with the signal of this name, which isn't in it yet.
#[tactic(auto, unfolding(crate::specs::Parts::signals_with))]
fn with_signal(set: SigSet, name: &[u8]) -> Option<SigSet>
    ensures { result ≡ signals_with set (name.now ∷ []) }
{
    let sig = signal(name)?;
    if set.has(sig) {
        None
    } else {
        Some(set.with(sig))
    }
}

/// The set of the signals whose names are joined by commas, and are to be different.
fn signals(word: &[u8]) -> Option<SigSet>
    ensures { result ≡ signals_with (everywhere false) (pieces 44 word.now) }
{
    let mut set = SigSet::empty();
    let mut rest = word;
    while let Some((name, after)) = cut(b',', rest) {
        let more = with_signal(set, name)?;
        set = more;
        rest = after;
    }
    with_signal(set, rest)
}

/// `none`, or different signals joined by commas.
#[tactic(auto, unfolding(crate::specs::Parts::signal_set))]
pub(crate) fn signal_set(word: &[u8]) -> Option<SigSet>
    ensures { result ≡ signal_set_of word.now }
{
    if word == b"none".as_slice() {
        return Some(SigSet::empty());
    }
    signals(word)
}
