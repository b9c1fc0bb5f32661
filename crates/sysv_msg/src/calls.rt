//! The calls of those who wait in a packed queue, read with memory and without.
ghost use Rattle.frame_bytes.specs.Fields.{flag_at, signed_at, text_at, word_at};
ghost use Rattle.frame_bytes.specs.Readers.{Gives, five, four};
ghost use Rattle.pico_base.specs.declared.call.Call.TheVariants as calls;

use crate::reading::{receive_of, send_of};
use body_fields::u8_at;
use frame_bytes::Read;
use pico_base::{Bytes, Call, Id, UnpackFault};
use std::alloc::Global;
use waiter_fields::WaitingCalls;

/// The calls that wait at a queue: sends and receives.
pub(crate) struct QueueCalls;

impl WaitingCalls for QueueCalls {
    ghost use Rattle.sysv_msg.specs.Reading.{call_at};

    ghost call_at = { call_at };

    #[tactic(auto, unfolding(crate::specs::Reading::call_at))]
    fn read(alloc: Global, bytes: &[u8]) -> Read<'_, Call> {
        let Some((code, rest)) = u8_at(bytes) else {
            return Err(UnpackFault::NotABody);
        };
        match code {
            3 => sent(alloc, rest),
            4 => received(rest),
            _ => Err(UnpackFault::NotABody),
        }
    }

    #[tactic(auto, unfolding(crate::specs::Reading::call_at))]
    fn skip(bytes: &[u8]) -> Option<&[u8]> {
        let (code, rest) = u8_at(bytes)?;
        match code {
            3 => {
                let (_, _, _, _, rest) = send_of(rest)?;
                Some(rest)
            }
            4 => {
                let (_, _, _, _, _, rest) = receive_of(rest)?;
                Some(rest)
            }
            _ => None,
        }
    }
}

/// A send behind its code.
fn sent(alloc: Global, bytes: &[u8]) -> Read<'_, Call>
    ensures { Gives (λ x. (x.0, x.1.now)) result (four word_at signed_at text_at flag_at calls.MsgSnd bytes.now) }
{
    let Some((id, class, text, nowait, rest)) = send_of(bytes) else {
        return Err(UnpackFault::NotABody);
    };
    let text = Bytes::from_slice(alloc, text)?;
    let id = Id(id);
    let call = Call::MsgSnd {
        id,
        class,
        text,
        nowait,
    };
    Ok((call, rest))
}

/// A receive behind its code.
fn received(bytes: &[u8]) -> Read<'_, Call>
    ensures { Gives (λ x. (x.0, x.1.now)) result
        (five word_at signed_at word_at flag_at flag_at calls.MsgRcv bytes.now) }
{
    let Some((id, class, size, noerror, nowait, rest)) = receive_of(bytes) else {
        return Err(UnpackFault::NotABody);
    };
    let id = Id(id);
    let call = Call::MsgRcv {
        id,
        class,
        size,
        noerror,
        nowait,
    };
    Ok((call, rest))
}
