//! Fields as they are read: a value from the front of the bytes, with the bytes behind it. NotABody: no value of the
//! field stands there.
ghost use Rattle.std.specs.Prelude.{◌≡◌, ◌≤◌, ◌==◌, IfOk, find};
ghost use Rattle.pico_base.specs.ErrorNumber.{all_errors, error_number};
ghost use Rattle.frame_bytes.specs.Readers.{Gives, byte_at};
ghost use Rattle.frame_bytes.specs.Fields.{count_at, errno_at, flag_at, half_at, kind_at, name_at, name_of, node_at, positive_at, sig_at, sigarg_at, signed_at, text_at, word_at};

use byteorder::{BigEndian, ByteOrder};
use pico_base::{Bytes, Errno, Id, Kind, Name, Pid, Sig, SigArg, UnpackFault};
use std::alloc::Global;

/// What a reader answers: a value and the bytes behind it.
pub type Read<'a, T> = Result<(T, &'a [u8]), UnpackFault>;

pub(crate) fn byte(bytes: &[u8]) -> Read<'_, u8>
    ensures { Gives (λ x. (x.0, x.1.now)) result (byte_at bytes.now) }
{
    match bytes {
        [] => Err(UnpackFault::NotABody),
        [byte, rest @ ..] => Ok((*byte, rest)),
    }
}

/// A number of 4 bytes.
pub(crate) fn word(bytes: &[u8]) -> Read<'_, u32>
    ensures { Gives (λ x. (x.0, x.1.now)) result (word_at bytes.now) }
{
    if bytes.len() < 4 {
        return Err(UnpackFault::NotABody);
    }
    let (front, rest) = bytes.split_at(4);
    Ok((BigEndian::read_u32(front), rest))
}

/// A number of 2 bytes.
pub(crate) fn half(bytes: &[u8]) -> Read<'_, u16>
    ensures { Gives (λ x. (x.0, x.1.now)) result (half_at bytes.now) }
{
    if bytes.len() < 2 {
        return Err(UnpackFault::NotABody);
    }
    let (front, rest) = bytes.split_at(2);
    Ok((BigEndian::read_u16(front), rest))
}

/// A number of 4 bytes that is at least 1.
#[tactic(auto, unfolding(crate::specs::Fields::positive_at))]
pub(crate) fn positive(bytes: &[u8]) -> Read<'_, u32>
    ensures { Gives (λ x. (x.0, x.1.now)) result (positive_at bytes.now) }
{
    let (number, rest) = word(bytes)?;
    if number == 0 {
        return Err(UnpackFault::NotABody);
    }
    Ok((number, rest))
}

/// A number of 2 bytes that is at least 1.
#[tactic(auto, unfolding(crate::specs::Fields::count_at))]
pub(crate) fn count(bytes: &[u8]) -> Read<'_, u16>
    ensures { Gives (λ x. (x.0, x.1.now)) result (count_at bytes.now) }
{
    let (count, rest) = half(bytes)?;
    if count == 0 {
        return Err(UnpackFault::NotABody);
    }
    Ok((count, rest))
}

/// A signed number of 4 bytes, in two's complement.
#[tactic(auto, unfolding(crate::specs::Fields::signed_at))]
pub(crate) fn signed(bytes: &[u8]) -> Read<'_, i32>
    ensures { Gives (λ x. (x.0, x.1.now)) result (signed_at bytes.now) }
{
    let (number, rest) = word(bytes)?;
    Ok((number.cast_signed(), rest))
}

/// A node's number, 1 to 32.
#[tactic(auto, unfolding(crate::specs::Fields::node_at))]
pub(crate) fn node(bytes: &[u8]) -> Read<'_, u8>
    ensures read { Gives (λ x. (x.0, x.1.now)) result (node_at bytes.now) }
    ensures least { IfOk result (λ x. 1 ≤ x.0) }
    ensures most { IfOk result (λ x. x.0 ≤ 32) }
{
    let (number, rest) = byte(bytes)?;
    if number < 1 || number > 32 {
        return Err(UnpackFault::NotABody);
    }
    Ok((number, rest))
}

/// A flag: 0 or 1.
#[tactic(auto, unfolding(crate::specs::Fields::flag_at))]
pub(crate) fn flag(bytes: &[u8]) -> Read<'_, bool>
    ensures { Gives (λ x. (x.0, x.1.now)) result (flag_at bytes.now) }
{
    match bytes {
        [0, rest @ ..] => Ok((false, rest)),
        [1, rest @ ..] => Ok((true, rest)),
        _ => Err(UnpackFault::NotABody),
    }
}

/// A signal, 1 to 10.
#[tactic(auto, unfolding(crate::specs::Fields::sig_at))]
pub(crate) fn sig(bytes: &[u8]) -> Read<'_, Sig>
    ensures { Gives (λ x. (x.0, x.1.now)) result (sig_at bytes.now) }
{
    let (number, rest) = byte(bytes)?;
    match Sig::from_number(number) {
        Some(sig) => Ok((sig, rest)),
        None => Err(UnpackFault::NotABody),
    }
}

/// A signal as `kill` takes it: 0, or 1 to 10.
#[tactic(auto, unfolding(crate::specs::Fields::sigarg_at))]
pub(crate) fn sigarg(bytes: &[u8]) -> Read<'_, SigArg>
    ensures { Gives (λ x. (x.0, x.1.now)) result (sigarg_at bytes.now) }
{
    let (code, rest) = byte(bytes)?;
    if code == 0 {
        return Ok((SigArg::Zero, rest));
    }
    match Sig::from_number(code) {
        Some(sig) => Ok((SigArg::Is(sig), rest)),
        None => Err(UnpackFault::NotABody),
    }
}

/// The error with this number.
fn errno_of(byte: u8) -> Option<Errno>
    ensures { result ≡ find (λ e. error_number e == byte) all_errors }
{
    match byte {
        1 => Some(Errno::Esrch),
        2 => Some(Errno::Einval),
        3 => Some(Errno::Echild),
        4 => Some(Errno::Enoent),
        5 => Some(Errno::Eexist),
        6 => Some(Errno::Enomsg),
        7 => Some(Errno::Eagain),
        8 => Some(Errno::E2big),
        9 => Some(Errno::Efbig),
        10 => Some(Errno::Erange),
        11 => Some(Errno::Eidrm),
        12 => Some(Errno::Eintr),
        _ => None,
    }
}

/// An error, 1 to 12.
#[tactic(auto, unfolding(crate::specs::Fields::errno_at))]
pub(crate) fn errno(bytes: &[u8]) -> Read<'_, Errno>
    ensures { Gives (λ x. (x.0, x.1.now)) result (errno_at bytes.now) }
{
    let (number, rest) = byte(bytes)?;
    match errno_of(number) {
        Some(errno) => Ok((errno, rest)),
        None => Err(UnpackFault::NotABody),
    }
}

/// A kind: 1 for a process, 2 for a queue, 3 for a set.
#[tactic(auto, unfolding(crate::specs::Fields::kind_at))]
pub(crate) fn kind(bytes: &[u8]) -> Read<'_, Kind>
    ensures { Gives (λ x. (x.0, x.1.now)) result (kind_at bytes.now) }
{
    match bytes {
        [1, rest @ ..] => Ok((Kind::Proc, rest)),
        [2, rest @ ..] => Ok((Kind::Msg, rest)),
        [3, rest @ ..] => Ok((Kind::Sem, rest)),
        _ => Err(UnpackFault::NotABody),
    }
}

/// The kind and the number of a name. The number is at least 1.
#[tactic(auto, unfolding(crate::specs::Fields::name_at))]
pub(crate) fn named(bytes: &[u8]) -> Read<'_, (Kind, u32)>
    ensures { Gives (λ x. (name_of x.0.0 x.0.1, x.1.now)) result (name_at bytes.now) }
{
    let (kind, rest) = kind(bytes)?;
    let (number, rest) = positive(rest)?;
    Ok(((kind, number), rest))
}

/// The name of this kind with this number.
pub(crate) fn name_of(kind: Kind, number: u32) -> Name
    ensures { result ≡ name_of kind number }
{
    match kind {
        Kind::Proc => Name::Proc(Pid(number)),
        Kind::Msg => Name::Msg(Id(number)),
        Kind::Sem => Name::Sem(Id(number)),
    }
}

/// A text: its length in 4 bytes, and so many bytes.
#[tactic(auto, unfolding(crate::specs::Fields::text_at))]
pub(crate) fn text(alloc: Global, bytes: &[u8]) -> Read<'_, Bytes>
    ensures { Gives (λ x. (x.0, x.1.now)) result (text_at bytes.now) }
{
    let (len, rest) = word(bytes)?;
    let len = len as usize;
    if rest.len() < len {
        return Err(UnpackFault::NotABody);
    }
    let (text, rest) = rest.split_at(len);
    Ok((Bytes::from_slice(alloc, text)?, rest))
}
