//! What a line says by itself, where its calls on queues are those of POSIX message queues.

ghost use Rattle.std.specs.Prelude.{◌≡◌, OnOk};
ghost use Rattle.script_reader.specs.Words.{texts};
ghost use Rattle.script_reader.specs.Says.{other_said};
ghost use Rattle.mq_model.specs.Reading as reading;

use crate::forms::{mqgetattr, mqopen, mqreceive, mqsend};
use pico_base::{Line, Memory, Var};
use script_reader::{
    FromCall, Front, Names, Said, end_line, is_comment, named_line, proc_line, put_line_words,
    set_front, tries_front,
};
use std::alloc::Global;

/// Whether the word names a call on System V's queues, which these scripts don't have.
fn is_system_v(word: &[u8]) -> bool
    ensures { result ≡ reading.is_system_v word.now }
{
    word == b"msgget".as_slice()
        || (word == b"msgsnd".as_slice()
            || (word == b"msgrcv".as_slice() || word == b"msgctl".as_slice()))
}

/// A line with this call behind `VAR =` and `try N`.
#[tactic(auto, unfolding(script_reader::specs::Says::other_said))]
fn call_with(set: Front<Var>, tries: Front<u32>, call: Option<FromCall>) -> Said
    ensures { result ≡ other_said set tries call }
{
    match (set, tries, call) {
        (Front::Gives(set), Front::Gives(tries), Some((from, call))) => Said::Calls(Line {
            set,
            tries: tries.unwrap_or(1),
            from,
            call,
        }),
        _ => Said::Bad,
    }
}

/// A call whose name this word is, with these words behind it.
#[tactic(auto, unfolding(mq_model::specs::Reading::mq_named_said))]
fn mq_named_line(
    alloc: Global,
    names: &Names,
    set: Front<Var>,
    tries: Front<u32>,
    name: &[u8],
    words: &[&[u8]],
    said: &mut Said,
) -> Result<(), Memory>
    ensures { OnOk result (said.new ≡ reading.mq_named_said names.now set tries name.now (texts words.now)) }
{
    if name == b"mqopen".as_slice() {
        *said = call_with(set, tries, mqopen(words));
    } else if name == b"mqsend".as_slice() {
        *said = call_with(set, tries, mqsend(alloc, words)?);
    } else if name == b"mqreceive".as_slice() {
        *said = call_with(set, tries, mqreceive(words));
    } else if name == b"mqgetattr".as_slice() {
        *said = call_with(set, tries, mqgetattr(words));
    } else if is_system_v(name) {
        *said = Said::Unknown;
    } else {
        named_line(alloc, names, set, tries, name, words, said)?;
    }
    Ok(())
}

/// The call behind `VAR =` and `try N`.
#[tactic(auto, unfolding(mq_model::specs::Reading::mq_call_said))]
fn mq_call_line(
    alloc: Global,
    names: &Names,
    set: Front<Var>,
    tries: Front<u32>,
    words: &[&[u8]],
    said: &mut Said,
) -> Result<(), Memory>
    ensures { OnOk result (said.new ≡ reading.mq_call_said names.now set tries (texts words.now)) }
{
    match words {
        [] => *said = Said::Bad,
        [name, words @ ..] => mq_named_line(alloc, names, set, tries, name, words, said)?,
    }
    Ok(())
}

/// A call line.
#[tactic(auto, unfolding(mq_model::specs::Reading::mq_line_said))]
fn mq_line(alloc: Global, names: &Names, words: &[&[u8]], said: &mut Said) -> Result<(), Memory>
    ensures { OnOk result (said.new ≡ reading.mq_line_said names.now (texts words.now)) }
{
    let (set, words) = set_front(words);
    let (tries, words) = tries_front(words);
    mq_call_line(alloc, names, set, tries, words, said)
}

/// A line by its words.
#[tactic(auto, unfolding(mq_model::specs::Reading::mq_words_said))]
fn mq_words_line(
    alloc: Global,
    names: &Names,
    words: &[&[u8]],
    said: &mut Said,
) -> Result<(), Memory>
    ensures { OnOk result (said.new ≡ reading.mq_words_said names.now (texts words.now)) }
{
    match words {
        [] => *said = Said::Skipped,
        [first, rest @ ..] => {
            if is_comment(first) {
                *said = Said::Skipped;
            } else if *first == b"proc".as_slice() {
                proc_line(alloc, names, rest, said)?;
            } else if *first == b"end".as_slice() {
                *said = end_line(rest);
            } else {
                mq_line(alloc, names, words, said)?;
            }
        }
    }
    Ok(())
}

/// Puts what the line says, in a text whose blocks have these names, in the place of what another said, and its words
/// where those of the other were.
pub(crate) fn read_mq_line<'a>(
    alloc: Global,
    names: &Names,
    words: &mut Vec<&'a [u8]>,
    bytes: &'a [u8],
    said: &mut Said,
) -> Result<(), Memory>
    ensures { OnOk result (said.new ≡ reading.mq_said_of names.now bytes.now) }
{
    put_line_words(words, bytes)?;
    mq_words_line(alloc, names, words.as_slice(), said)
}
