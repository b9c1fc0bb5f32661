//! The calls on POSIX message queues, by the words behind their names.

ghost use Rattle.std.specs.Prelude.{◌≡◌, IfOk};
ghost use Rattle.script_reader.specs.Words.{texts};
ghost use Rattle.mq_model.specs.Reading as reading;

use pico_base::{Call, Key, Memory};
use quoted_bytes::strip_front;
use script_reader::{FromCall, create_excl, identifier, number, positive, text};
use std::alloc::Global;

/// The greatest number in a queue's name.
const MAX_NAME: u32 = 1_000_000;

/// The greatest priority and size that a line may have.
const MAX_NUMBER: u32 = 65_535;

/// The number in a queue's name, `/N`.
#[tactic(auto, unfolding(mq_model::specs::Reading::name_number))]
fn name_number(word: &[u8]) -> Option<u32>
    ensures { result ≡ reading.name_number word.now }
{
    let digits = strip_front(word, b"/")?;
    positive(MAX_NAME, digits)
}

/// `mqopen /N [create] [excl]`.
#[tactic(auto, unfolding(mq_model::specs::Reading::mqopen_of))]
pub(crate) fn mqopen(words: &[&[u8]]) -> Option<FromCall>
    ensures { result ≡ reading.mqopen_of (texts words.now) }
{
    match words {
        [n, more @ ..] => {
            let name = name_number(n)?;
            let (create, excl) = create_excl(more)?;
            let key = Some(Key(name));
            Some((None, Call::MsgGet { key, create, excl }))
        }
        _ => None,
    }
}

/// `mqsend Q P X`.
#[tactic(auto, unfolding(mq_model::specs::Reading::mqsend_of))]
pub(crate) fn mqsend(alloc: Global, words: &[&[u8]]) -> Result<Option<FromCall>, Memory>
    ensures { IfOk result (λ call. call ≡ reading.mqsend_of (texts words.now)) }
{
    match words {
        [q, p, x] => {
            let Some((from, id)) = identifier(q) else {
                return Ok(None);
            };
            let Some(priority) = number(MAX_NUMBER, p) else {
                return Ok(None);
            };
            let Some(text) = text(alloc, x)? else {
                return Ok(None);
            };
            Ok(Some((
                from,
                Call::MsgSnd {
                    id,
                    class: priority as i32,
                    text,
                    nowait: false,
                },
            )))
        }
        _ => Ok(None),
    }
}

/// `mqreceive Q Z`.
#[tactic(auto, unfolding(mq_model::specs::Reading::mqreceive_of))]
pub(crate) fn mqreceive(words: &[&[u8]]) -> Option<FromCall>
    ensures { result ≡ reading.mqreceive_of (texts words.now) }
{
    match words {
        [q, z] => {
            let (from, id) = identifier(q)?;
            let size = number(MAX_NUMBER, z)?;
            Some((
                from,
                Call::MsgRcv {
                    id,
                    class: 0,
                    size,
                    noerror: false,
                    nowait: false,
                },
            ))
        }
        _ => None,
    }
}

/// `mqgetattr Q`.
#[tactic(auto, unfolding(mq_model::specs::Reading::mqgetattr_of))]
pub(crate) fn mqgetattr(words: &[&[u8]]) -> Option<FromCall>
    ensures { result ≡ reading.mqgetattr_of (texts words.now) }
{
    match words {
        [q] => {
            let (from, id) = identifier(q)?;
            Some((from, Call::MsgStat { id }))
        }
        _ => None,
    }
}
