//! What a line says by itself, wherever it stands.

ghost use Rattle.std.specs.Prelude.{◌≡◌, ◌≤◌, ◌==◌, ◌||◌, false, true, Some, None, OnOk, IfSome, option_copied};
ghost use Rattle.script_reader.specs.Words.{PartWords, is_blank as is_blank_of, texts};
ghost use Rattle.call_words.specs.Verbs.{verb_of};
ghost use Rattle.script_reader.specs.Says as says;
ghost use Rattle.script_reader.specs.Forms as forms;

use crate::form_parts::FromCall;
use crate::forms::put_call;
use crate::numbers::positive;
use crate::parts::{is_block_name, variable};
use crate::process_forms::put_exit;
use crate::tables::Names;
use crate::words::{Stops, is_blank, next_word, put_words};
use call_words::Verb;
use pico_base::{Bytes, Line, Memory, Var};
use std::alloc::Global;

/// How often a line may try its call.
const MAX_TRIES: u32 = 20_000;

/// What a line says. A block goes by its number among the names of the text.
#[derive(Drop)]
pub enum Said {
    /// Nothing: it has no words, or is a comment.
    Skipped,
    /// `proc NAME`.
    Opens(Bytes, usize),
    /// Headed by `proc`, with other words behind it.
    BadProc,
    /// `end`.
    Ends,
    /// The word where a call's name is due names no call.
    Unknown,
    /// The words aren't those of a line.
    Bad,
    /// `fork NAME` with the variable that it sets, and the block of that name, where there is one.
    Forks(Option<Var>, Option<usize>),
    /// A line with another call.
    Calls(Line),
}

/// What may stand in front of a call.
#[derive(Clone, Copy)]
pub enum Front<T> {
    /// It stands there, and is wrong.
    Wrong,
    /// What it gives, or nothing where it doesn't stand there.
    Gives(Option<T>),
}

/// `VAR =` in front of a call, and the words behind it.
#[tactic(auto, unfolding(crate::specs::Says::set_at))]
pub fn set_front<'a, 'b>(words: &'b [&'a [u8]]) -> (Front<Var>, &'b [&'a [u8]])
    ensures { (result.0, texts result.1.now) ≡ says.set_at (texts words.now) }
{
    match words {
        [v, e, rest @ ..] if *e == b"=".as_slice() => match variable(v) {
            None => (Front::Wrong, rest),
            Some(variable) => (Front::Gives(Some(variable)), rest),
        },
        _ => (Front::Gives(None), words),
    }
}

/// `try N` in front of a call, and the words behind it.
#[tactic(auto, unfolding(crate::specs::Says::tries_at))]
pub fn tries_front<'a, 'b>(words: &'b [&'a [u8]]) -> (Front<u32>, &'b [&'a [u8]])
    ensures { (result.0, texts result.1.now) ≡ says.tries_at (texts words.now) }
{
    match words {
        [t, n, rest @ ..] if *t == b"try".as_slice() => match positive(MAX_TRIES, n) {
            None => (Front::Wrong, rest),
            Some(tries) => (Front::Gives(Some(tries)), rest),
        },
        [t] if *t == b"try".as_slice() => (Front::Wrong, &[]),
        _ => (Front::Gives(None), words),
    }
}

/// `fork NAME`.
#[tactic(auto, unfolding(crate::specs::Says::fork_said))]
fn fork(names: &Names, set: Front<Var>, tries: Front<u32>, words: &[&[u8]]) -> Said
    ensures { result ≡ says.fork_said names.now set tries (texts words.now) }
{
    match (set, tries, words) {
        (Front::Gives(set), Front::Gives(None), [name]) if is_block_name(name) => {
            Said::Forks(set, names.number(name))
        }
        _ => Said::Bad,
    }
}

/// What stands in front of a call: the variable that it sets, and how often it's tried. It is handed on by reference,
/// as a word.
#[derive(Clone, Copy)]
pub(crate) struct CallFront {
    pub(crate) set: Option<Var>,
    pub(crate) tries: Option<u32>,
}

/// Puts a line with this call in the place of what another line said.
#[inline(always)]
pub(crate) fn put_from(front: &CallFront, call: Option<FromCall>, said: &mut Said)
    ensures { said.new ≡ says.said_from front.now.set front.now.tries call }
{
    match call {
        None => *said = Said::Bad,
        Some((from, call)) => {
            *said = Said::Calls(Line {
                set: front.set,
                tries: front.tries.unwrap_or(1),
                from,
                call,
            });
        }
    }
}

/// `exit N`.
#[tactic(auto, unfolding(crate::specs::Says::exit_said))]
fn exit_line(set: Front<Var>, tries: Front<u32>, words: &[&[u8]], said: &mut Said)
    ensures { said.new ≡ says.exit_said set tries (forms.exit_of (texts words.now)) }
{
    match (set, tries) {
        (Front::Gives(None), Front::Gives(None)) => {
            let front = CallFront {
                set: None,
                tries: None,
            };
            put_exit(&front, words, said);
        }
        _ => *said = Said::Bad,
    }
}

/// Another call.
#[inline(always)]
#[tactic(auto, unfolding(crate::specs::Says::other_said))]
fn other_line(
    alloc: Global,
    set: Front<Var>,
    tries: Front<u32>,
    verb: Verb,
    words: &[&[u8]],
    said: &mut Said,
) -> Result<(), Memory>
    ensures { OnOk result (said.new ≡ says.other_said set tries (forms.call_of verb (texts words.now))) }
{
    match (set, tries) {
        (Front::Gives(set), Front::Gives(tries)) => {
            let front = CallFront { set, tries };
            put_call(alloc, &front, verb, words, said)?;
        }
        _ => *said = Said::Bad,
    }
    Ok(())
}

/// A call of this name.
#[inline(always)]
#[tactic(auto, unfolding(crate::specs::Says::verb_said))]
fn verb_line(
    alloc: Global,
    names: &Names,
    set: Front<Var>,
    tries: Front<u32>,
    verb: Verb,
    words: &[&[u8]],
    said: &mut Said,
) -> Result<(), Memory>
    ensures { OnOk result (said.new ≡ says.verb_said names.now set tries verb (texts words.now)) }
{
    match verb {
        Verb::Fork => *said = fork(names, set, tries, words),
        Verb::Exit => exit_line(set, tries, words, said),
        _ => other_line(alloc, set, tries, verb, words, said)?,
    }
    Ok(())
}

/// A call whose name this word is, with these words behind it.
#[inline(always)]
pub fn named_line(
    alloc: Global,
    names: &Names,
    set: Front<Var>,
    tries: Front<u32>,
    name: &[u8],
    words: &[&[u8]],
    said: &mut Said,
) -> Result<(), Memory>
    ensures { OnOk result (said.new ≡ says.named_said names.now set tries (verb_of name.now) (texts words.now)) }
{
    match Verb::named(name) {
        None => *said = Said::Unknown,
        Some(verb) => verb_line(alloc, names, set, tries, verb, words, said)?,
    }
    Ok(())
}

/// The call behind `VAR =` and `try N`. It is compiled once for what stands there and once for nothing.
#[inline(always)]
#[tactic(auto, unfolding(crate::specs::Says::call_said))]
fn call_line(
    alloc: Global,
    names: &Names,
    set: Front<Var>,
    tries: Front<u32>,
    words: &[&[u8]],
    said: &mut Said,
) -> Result<(), Memory>
    ensures { OnOk result (said.new ≡ says.call_said names.now set tries (texts words.now)) }
{
    match words {
        [] => *said = Said::Bad,
        [name, words @ ..] => named_line(alloc, names, set, tries, name, words, said)?,
    }
    Ok(())
}

/// A call line with `VAR =` or `try N` in front of its call.
#[inline(never)]
#[tactic(auto, unfolding(crate::specs::Says::line_said))]
fn fronted_line(
    alloc: Global,
    names: &Names,
    words: &[&[u8]],
    said: &mut Said,
) -> Result<(), Memory>
    ensures { OnOk result (said.new ≡ says.line_said names.now (texts words.now)) }
{
    let (set, words) = set_front(words);
    let (tries, words) = tries_front(words);
    call_line(alloc, names, set, tries, words, said)
}

/// Whether neither `VAR =` nor `try N` stands in front of the call.
#[tactic(auto, unfolding(crate::specs::Says::set_at, crate::specs::Says::tries_at))]
fn is_bare(words: &[&[u8]]) -> bool
    ensures set { result ≡ true → says.set_at (texts words.now) ≡ (says.nothing, texts words.now) }
    ensures tries { result ≡ true → says.tries_at (texts words.now) ≡ (says.nothing, texts words.now) }
{
    match words {
        [] => true,
        [t] => *t != b"try".as_slice(),
        [t, e, ..] => *t != b"try".as_slice() && *e != b"=".as_slice(),
    }
}

/// A call line. Most have nothing in front of the call.
#[tactic(auto, unfolding(crate::specs::Says::line_said))]
fn line(alloc: Global, names: &Names, words: &[&[u8]], said: &mut Said) -> Result<(), Memory>
    ensures { OnOk result (said.new ≡ says.line_said names.now (texts words.now)) }
{
    if is_bare(words) {
        call_line(
            alloc,
            names,
            Front::Gives(None),
            Front::Gives(None),
            words,
            said,
        )
    } else {
        fronted_line(alloc, names, words, said)
    }
}

/// `proc NAME`, by the words behind `proc`, in a text whose blocks have these names.
#[tactic(auto, unfolding(crate::specs::Says::proc_said))]
pub fn proc_line(
    alloc: Global,
    names: &Names,
    words: &[&[u8]],
    said: &mut Said,
) -> Result<(), Memory>
    ensures { OnOk result (said.new ≡ says.proc_said names.now (texts words.now)) }
{
    match words {
        [name] if is_block_name(name) => match names.number(name) {
            None => *said = Said::BadProc,
            Some(number) => *said = Said::Opens(Bytes::from_slice(alloc, name)?, number),
        },
        _ => *said = Said::BadProc,
    }
    Ok(())
}

/// `end`, by the words behind it, of which there may be none.
#[tactic(auto, unfolding(crate::specs::Says::end_said))]
pub fn end_line(words: &[&[u8]]) -> Said
    ensures { result ≡ says.end_said (texts words.now) }
{
    match words {
        [] => Said::Ends,
        _ => Said::Bad,
    }
}

/// Whether the first word of a line makes it a comment: it begins with `#`.
#[tactic(auto, unfolding(crate::specs::Says::is_comment))]
pub fn is_comment(word: &[u8]) -> bool
    ensures { result ≡ says.is_comment word.now }
{
    match word {
        [] => false,
        [first, ..] => *first == b'#',
    }
}

/// A line by its words.
#[tactic(auto, unfolding(crate::specs::Says::words_said))]
fn words_line(alloc: Global, names: &Names, words: &[&[u8]], said: &mut Said) -> Result<(), Memory>
    ensures { OnOk result (said.new ≡ says.words_said names.now (texts words.now)) }
{
    match words {
        [] => *said = Said::Skipped,
        [first, rest @ ..] => {
            if is_comment(first) {
                *said = Said::Skipped;
            } else if *first == b"proc".as_slice() {
                proc_line(alloc, names, rest, said)?;
            } else if *first == b"end".as_slice() {
                *said = end_line(rest);
            } else {
                line(alloc, names, words, said)?;
            }
        }
    }
    Ok(())
}

/// Puts what the line says, in a text whose blocks have these names, in the place of what another said, and its words
/// where those of the other were. A long value is dear to hand on, so it is made where it stays.
pub(crate) fn read_line<'a>(
    alloc: Global,
    names: &Names,
    words: &mut Vec<&'a [u8]>,
    bytes: &'a [u8],
    stops: Option<Stops>,
    said: &mut Said,
) -> Result<(), Memory>
    requires { IfSome stops (λ s. PartWords bytes.now s.ends s.solids) }
    ensures { OnOk result (said.new ≡ says.said_of names.now bytes.now) }
{
    put_words(words, bytes, stops)?;
    words_line(alloc, names, words.as_slice(), said)
}

/// Whether a line `proc NAME` may begin with the byte.
fn is_opener(byte: u8) -> bool
    ensures { result ≡ (byte == 112 || is_blank_of byte) }
{
    byte == b'p' || is_blank(byte)
}

/// Whether the first byte leaves it open that this is a line `proc NAME`. Most lines are told by it.
fn may_open(bytes: &[u8]) -> bool
    ensures { result ≡ false → says.opening_at bytes.now ≡ None }
{
    match bytes.split_first() {
        None => true,
        Some((first, _)) => is_opener(*first),
    }
}

/// The name in a line `proc NAME`.
#[tactic(auto, unfolding(crate::specs::Says::opened_by))]
pub(crate) fn opening(bytes: &[u8]) -> Option<&[u8]>
    ensures { option_copied result ≡ says.opening_at bytes.now }
{
    if !may_open(bytes) {
        return None;
    }
    let (head, rest) = next_word(bytes)?;
    if head != b"proc".as_slice() {
        return None;
    }
    let (name, rest) = next_word(rest)?;
    if next_word(rest).is_none() && is_block_name(name) {
        Some(name)
    } else {
        None
    }
}
