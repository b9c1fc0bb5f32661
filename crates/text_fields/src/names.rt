//! Words and names at the front of a text.
ghost use Rattle.std.specs.Prelude.{◌≡◌, ◌==◌, length, position, codes, option_map};
ghost use Rattle.text_fields.specs.Fields.{word_at, flag_at, named_at, signal_at, argument_at, action_at, how_at, error_at};

use pico_base::{Act, Errno, How, Sig, SigArg};
use quoted_bytes::strip_front;

/// Where the first blank is.
fn blank_at(bytes: &[u8]) -> Option<usize>
    ensures { result ≡ position (λ b. b == 32) bytes.now }
{
    bytes.iter().position(|b| *b == b' ')
}

/// The bytes before the first blank, and from it on.
#[tactic(auto, unfolding(crate::specs::Fields::word_at))]
pub fn word_front(bytes: &[u8]) -> (&[u8], &[u8])
    ensures { (result.0.now, result.1.now) ≡ word_at bytes.now }
{
    match blank_at(bytes) {
        Some(end) => (&bytes[..end], &bytes[end..]),
        None => (bytes, &bytes[bytes.len()..]),
    }
}

/// Whether the word stands at the front, and what follows.
#[tactic(auto, unfolding(crate::specs::Fields::flag_at))]
pub fn flag_front<'a>(bytes: &'a [u8], word: &[u8]) -> (bool, &'a [u8])
    ensures { (result.0, result.1.now) ≡ flag_at word.now bytes.now }
{
    match strip_front(bytes, word) {
        Some(rest) => (true, rest),
        None => (false, bytes),
    }
}

/// A signal by its name.
#[tactic(auto, unfolding(crate::specs::Fields::named_at))]
pub fn signal_front(bytes: &[u8]) -> Option<(Sig, &[u8])>
    ensures { option_map (λ x. (x.0, x.1.now)) result ≡ signal_at bytes.now }
{
    if let Some(rest) = strip_front(bytes, b"HUP") {
        return Some((Sig::Hup, rest));
    }
    if let Some(rest) = strip_front(bytes, b"INT") {
        return Some((Sig::Int, rest));
    }
    if let Some(rest) = strip_front(bytes, b"QUIT") {
        return Some((Sig::Quit, rest));
    }
    if let Some(rest) = strip_front(bytes, b"KILL") {
        return Some((Sig::Kill, rest));
    }
    if let Some(rest) = strip_front(bytes, b"USR1") {
        return Some((Sig::Usr1, rest));
    }
    if let Some(rest) = strip_front(bytes, b"USR2") {
        return Some((Sig::Usr2, rest));
    }
    if let Some(rest) = strip_front(bytes, b"PIPE") {
        return Some((Sig::Pipe, rest));
    }
    if let Some(rest) = strip_front(bytes, b"ALRM") {
        return Some((Sig::Alrm, rest));
    }
    if let Some(rest) = strip_front(bytes, b"TERM") {
        return Some((Sig::Term, rest));
    }
    let rest = strip_front(bytes, b"CHLD")?;
    Some((Sig::Chld, rest))
}

/// What `kill` and `sigaction` take for a signal: `0`, a signal's name, or `badsig`.
#[tactic(auto, unfolding(crate::specs::Fields::argument_at))]
pub fn argument_front(bytes: &[u8]) -> Option<(SigArg, &[u8])>
    ensures { option_map (λ x. (x.0, x.1.now)) result ≡ argument_at bytes.now }
{
    if let Some(rest) = strip_front(bytes, b"0") {
        return Some((SigArg::Zero, rest));
    }
    if let Some(rest) = strip_front(bytes, b"badsig") {
        return Some((SigArg::Bad, rest));
    }
    let (sig, rest) = signal_front(bytes)?;
    Some((SigArg::Is(sig), rest))
}

/// What a signal does at a process: `dfl`, `ign` or `catch`.
#[tactic(auto, unfolding(crate::specs::Fields::named_at))]
pub fn action_front(bytes: &[u8]) -> Option<(Act, &[u8])>
    ensures { option_map (λ x. (x.0, x.1.now)) result ≡ action_at bytes.now }
{
    if let Some(rest) = strip_front(bytes, b"dfl") {
        return Some((Act::Dfl, rest));
    }
    if let Some(rest) = strip_front(bytes, b"ign") {
        return Some((Act::Ign, rest));
    }
    let rest = strip_front(bytes, b"catch")?;
    Some((Act::Catch, rest))
}

/// How `sigprocmask` changes the mask: `block`, `unblock` or `setmask`.
#[tactic(auto, unfolding(crate::specs::Fields::named_at))]
pub fn how_front(bytes: &[u8]) -> Option<(How, &[u8])>
    ensures { option_map (λ x. (x.0, x.1.now)) result ≡ how_at bytes.now }
{
    if let Some(rest) = strip_front(bytes, b"block") {
        return Some((How::Block, rest));
    }
    if let Some(rest) = strip_front(bytes, b"unblock") {
        return Some((How::Unblock, rest));
    }
    let rest = strip_front(bytes, b"setmask")?;
    Some((How::SetMask, rest))
}

/// An error by its name.
#[tactic(auto, unfolding(crate::specs::Fields::named_at))]
pub fn error_front(bytes: &[u8]) -> Option<(Errno, &[u8])>
    ensures { option_map (λ x. (x.0, x.1.now)) result ≡ error_at bytes.now }
{
    if let Some(rest) = strip_front(bytes, b"ESRCH") {
        return Some((Errno::Esrch, rest));
    }
    if let Some(rest) = strip_front(bytes, b"EINVAL") {
        return Some((Errno::Einval, rest));
    }
    if let Some(rest) = strip_front(bytes, b"ECHILD") {
        return Some((Errno::Echild, rest));
    }
    if let Some(rest) = strip_front(bytes, b"ENOENT") {
        return Some((Errno::Enoent, rest));
    }
    if let Some(rest) = strip_front(bytes, b"EEXIST") {
        return Some((Errno::Eexist, rest));
    }
    if let Some(rest) = strip_front(bytes, b"ENOMSG") {
        return Some((Errno::Enomsg, rest));
    }
    if let Some(rest) = strip_front(bytes, b"EAGAIN") {
        return Some((Errno::Eagain, rest));
    }
    if let Some(rest) = strip_front(bytes, b"E2BIG") {
        return Some((Errno::E2big, rest));
    }
    if let Some(rest) = strip_front(bytes, b"EFBIG") {
        return Some((Errno::Efbig, rest));
    }
    if let Some(rest) = strip_front(bytes, b"ERANGE") {
        return Some((Errno::Erange, rest));
    }
    if let Some(rest) = strip_front(bytes, b"EIDRM") {
        return Some((Errno::Eidrm, rest));
    }
    let rest = strip_front(bytes, b"EINTR")?;
    Some((Errno::Eintr, rest))
}
