//! The fields of a packed queue, read without memory.
ghost use Rattle.std.specs.Prelude.{◌≤◌, IfSome, length};
ghost use Rattle.body_fields.specs.Fields.{Reads};
ghost use Rattle.frame_bytes.specs.Fields.{flag_at, signed_at, text_at, word_at};
ghost use Rattle.frame_bytes.specs.Readers.{five, four};
ghost use Rattle.kernel_model.specs.Queue.{max_text};
ghost use Rattle.pico_base.specs.declared.call.Call.TheVariants as calls;
ghost use Rattle.sysv_msg.specs.Reading.{class_at, message_at, message_of, numbers_at, short_at};

use crate::store::{MAX_BYTES, MAX_TEXT};
use body_fields::{u32_at, u32_upto};

/// The code of a queue among the bodies.
pub(crate) const CODE: u8 = 4;

/// A signed number, and the bytes behind it.
#[tactic(auto, unfolding(frame_bytes::specs::Fields::signed_at))]
fn signed_of(bytes: &[u8]) -> Option<(i32, &[u8])>
    ensures { Reads (λ x. (x.0, x.1.now)) result (signed_at bytes.now) }
{
    let (number, rest) = u32_at(bytes)?;
    Some((number.cast_signed(), rest))
}

/// A flag, and the bytes behind it.
#[tactic(auto, unfolding(frame_bytes::specs::Fields::flag_at))]
fn flag_of(bytes: &[u8]) -> Option<(bool, &[u8])>
    ensures { Reads (λ x. (x.0, x.1.now)) result (flag_at bytes.now) }
{
    match bytes {
        [0, rest @ ..] => Some((false, rest)),
        [1, rest @ ..] => Some((true, rest)),
        _ => None,
    }
}

/// A text, and the bytes behind it.
#[tactic(auto, unfolding(frame_bytes::specs::Fields::text_at))]
fn text_of(bytes: &[u8]) -> Option<(&[u8], &[u8])>
    ensures { Reads (λ x. (x.0.now, x.1.now)) result (text_at bytes.now) }
{
    let (len, rest) = u32_at(bytes)?;
    let len = len as usize;
    if rest.len() < len {
        return None;
    }
    Some(rest.split_at(len))
}

/// A message's type, at least 1, and the bytes behind it.
#[tactic(auto, unfolding(crate::specs::Reading::class_at))]
fn class_of(bytes: &[u8]) -> Option<(i32, &[u8])>
    ensures { Reads (λ x. (x.0, x.1.now)) result (class_at bytes.now) }
{
    let (class, rest) = signed_of(bytes)?;
    if 1 <= class {
        return Some((class, rest));
    }
    None
}

/// A message's text, of at most 4,096 bytes, and the bytes behind it.
#[tactic(auto, unfolding(crate::specs::Reading::short_at))]
fn short_of(bytes: &[u8]) -> Option<(&[u8], &[u8])>
    ensures read { Reads (λ x. (x.0.now, x.1.now)) result (short_at bytes.now) }
    ensures within { IfSome result (λ x. length x.0.now ≤ max_text) }
{
    let (text, rest) = text_of(bytes)?;
    if text.len() <= MAX_TEXT {
        return Some((text, rest));
    }
    None
}

/// The type and the text of a message, and the bytes behind it.
#[tactic(auto, unfolding(crate::specs::Reading::message_at))]
pub(crate) fn message_of(bytes: &[u8]) -> Option<(i32, &[u8], &[u8])>
    ensures read { Reads (λ x. (message_of x.0 x.1.now, x.2.now)) result (message_at bytes.now) }
    ensures within { IfSome result (λ x. length x.1.now ≤ max_text) }
{
    let (class, rest) = class_of(bytes)?;
    let (text, rest) = short_of(rest)?;
    Some((class, text, rest))
}

/// The numbers before a queue's messages: `msg_qbytes`, the last sender and the last receiver; and the bytes behind
/// them.
#[tactic(auto, unfolding(crate::specs::Reading::numbers_at))]
pub(crate) fn numbers_of(bytes: &[u8]) -> Option<(u32, u32, u32, &[u8])>
    ensures { Reads (λ x. ((x.0, x.1, x.2), x.3.now)) result (numbers_at bytes.now) }
{
    let (qbytes, rest) = u32_upto(MAX_BYTES, bytes)?;
    let (sender, rest) = u32_at(rest)?;
    let (receiver, rest) = u32_at(rest)?;
    Some((qbytes, sender, receiver, rest))
}

/// A send behind its code, and the bytes behind it: the queue's number, the type, the text, and whether it never waits.
pub(crate) fn send_of(bytes: &[u8]) -> Option<(u32, i32, &[u8], bool, &[u8])>
    ensures { Reads (λ x. (calls.MsgSnd x.0 x.1 x.2.now x.3, x.4.now)) result
        (four word_at signed_at text_at flag_at calls.MsgSnd bytes.now) }
{
    let (id, rest) = u32_at(bytes)?;
    let (class, rest) = signed_of(rest)?;
    let (text, rest) = text_of(rest)?;
    let (nowait, rest) = flag_of(rest)?;
    Some((id, class, text, nowait, rest))
}

/// A receive behind its code, and the bytes behind it: the queue's number, the type, the size, whether a text may be
/// cut, and whether it never waits.
pub(crate) fn receive_of(bytes: &[u8]) -> Option<(u32, i32, u32, bool, bool, &[u8])>
    ensures { Reads (λ x. (calls.MsgRcv x.0 x.1 x.2 x.3 x.4, x.5.now)) result
        (five word_at signed_at word_at flag_at flag_at calls.MsgRcv bytes.now) }
{
    let (id, rest) = u32_at(bytes)?;
    let (class, rest) = signed_of(rest)?;
    let (size, rest) = u32_at(rest)?;
    let (noerror, rest) = flag_of(rest)?;
    let (nowait, rest) = flag_of(rest)?;
    Some((id, class, size, noerror, nowait, rest))
}
