//! Replies as they are read.
ghost use Rattle.pico_base.specs.declared.reply.Reply.TheVariants as replies;
ghost use Rattle.frame_bytes.specs.Readers.{Gives, two, four};
ghost use Rattle.frame_bytes.specs.Fields.{signed_at, text_at, word_at};
ghost use Rattle.frame_bytes.specs.Replies.{reply_at, values_at};

use crate::fields::{Read, byte, errno, half, signed, text, word};
use crate::many::many;
use pico_base::{Pid, Reply, UnpackFault, Values};
use std::alloc::Global;

#[tactic(auto, unfolding(crate::specs::Replies::values_at))]
fn values(alloc: Global, bytes: &[u8]) -> Read<'_, Values>
    ensures { Gives (λ x. (x.0, x.1.now)) result (values_at bytes.now) }
{
    let (count, rest) = half(bytes)?;
    let (values, rest) = many(alloc, count as usize, rest)?;
    Ok((Values::from_vec(values), rest))
}

fn message(alloc: Global, bytes: &[u8]) -> Read<'_, Reply>
    ensures { Gives (λ x. (x.0, x.1.now)) result (two signed_at text_at replies.Message bytes.now) }
{
    let (class, rest) = signed(bytes)?;
    let (text, rest) = text(alloc, rest)?;
    Ok((Reply::Message { class, text }, rest))
}

fn stat(bytes: &[u8]) -> Read<'_, Reply>
    ensures { Gives (λ x. (x.0, x.1.now)) result (four word_at word_at word_at word_at replies.Stat bytes.now) }
{
    let (qnum, rest) = word(bytes)?;
    let (qbytes, rest) = word(rest)?;
    let (sender, rest) = word(rest)?;
    let (receiver, rest) = word(rest)?;
    let reply = Reply::Stat {
        qnum,
        qbytes,
        lspid: Pid(sender),
        lrpid: Pid(receiver),
    };
    Ok((reply, rest))
}

/// A reply that goes from node to node: codes 1 to 5.
#[tactic(auto, unfolding(crate::specs::Replies::reply_at))]
pub(crate) fn reply(alloc: Global, bytes: &[u8]) -> Read<'_, Reply>
    ensures { Gives (λ x. (x.0, x.1.now)) result (reply_at bytes.now) }
{
    let (code, rest) = byte(bytes)?;
    match code {
        1 => {
            let (number, rest) = word(rest)?;
            Ok((Reply::Num(number), rest))
        }
        2 => message(alloc, rest),
        3 => stat(rest),
        4 => {
            let (values, rest) = values(alloc, rest)?;
            Ok((Reply::All(values), rest))
        }
        5 => {
            let (errno, rest) = errno(rest)?;
            Ok((Reply::Fail(errno), rest))
        }
        _ => Err(UnpackFault::NotABody),
    }
}
