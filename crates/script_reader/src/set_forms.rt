//! The calls on semaphore sets, by their words.

ghost use Rattle.std.specs.Prelude.{◌≡◌, IfOk, OnOk};
ghost use Rattle.script_reader.specs.Words.{texts};
ghost use Rattle.script_reader.specs.Says.{said_from};
ghost use Rattle.script_reader.specs.Forms as forms;

use crate::form_parts::{FromCall, create_excl, identifier};
use crate::numbers::{MAX_NUMBER, index, number, positive};
use crate::says::{CallFront, Said, put_from};
use crate::texts::{steps, values};
use pico_base::{Call, Id, Key, Memory};
use std::alloc::Global;

#[tactic(auto, unfolding(crate::specs::Forms::keyed_set))]
fn keyed_set(k: &[u8], n: &[u8], more: &[&[u8]]) -> Option<FromCall>
    ensures { result ≡ forms.keyed_set k.now n.now (texts more.now) }
{
    let key = positive(u32::MAX, k)?;
    let count = number(MAX_NUMBER, n)?;
    let (create, excl) = create_excl(more)?;
    let key = Some(Key(key));
    Some((
        None,
        Call::SemGet {
            key,
            count,
            create,
            excl,
        },
    ))
}

#[tactic(auto, unfolding(crate::specs::Forms::private_set))]
fn private_set(n: &[u8], more: &[&[u8]]) -> Option<FromCall>
    ensures { result ≡ forms.private_set n.now (texts more.now) }
{
    match more {
        [] => {
            let count = number(MAX_NUMBER, n)?;
            Some((
                None,
                Call::SemGet {
                    key: None,
                    count,
                    create: false,
                    excl: false,
                },
            ))
        }
        _ => None,
    }
}

/// `semget private N`, `semget K N [create] [excl]`.
#[tactic(auto, unfolding(crate::specs::Forms::semget_of))]
fn semget(words: &[&[u8]]) -> Option<FromCall>
    ensures { result ≡ forms.semget_of (texts words.now) }
{
    match words {
        [k, n, more @ ..] => {
            if *k == b"private".as_slice() {
                private_set(n, more)
            } else {
                keyed_set(k, n, more)
            }
        }
        _ => None,
    }
}

/// `semop S OPS`.
#[tactic(auto, unfolding(crate::specs::Forms::semop_of))]
fn semop(alloc: Global, words: &[&[u8]]) -> Result<Option<FromCall>, Memory>
    ensures { IfOk result (λ call. call ≡ forms.semop_of (texts words.now)) }
{
    match words {
        [] => Ok(None),
        [s, operations @ ..] => {
            if operations.is_empty() {
                return Ok(None);
            }
            let Some((from, id)) = identifier(s) else {
                return Ok(None);
            };
            let Some(steps) = steps(alloc, operations)? else {
                return Ok(None);
            };
            Ok(Some((from, Call::SemOp { id, steps })))
        }
    }
}

/// `getall` and `rmid`, behind the set.
#[tactic(auto, unfolding(crate::specs::Forms::whole_set))]
fn whole_set(id: Id, c: &[u8]) -> Option<Call>
    ensures { result ≡ forms.whole_set id c.now }
{
    if c == b"getall".as_slice() {
        Some(Call::SemGetAll { id })
    } else if c == b"rmid".as_slice() {
        Some(Call::SemRmid { id })
    } else {
        None
    }
}

/// `getval I`, `getpid I`, `getncnt I` and `getzcnt I`, behind the set.
#[tactic(auto, unfolding(crate::specs::Forms::semaphore_of))]
fn semaphore(id: Id, c: &[u8], num: u16) -> Option<Call>
    ensures { result ≡ forms.semaphore_of id c.now num }
{
    if c == b"getval".as_slice() {
        Some(Call::SemGetVal { id, num })
    } else if c == b"getpid".as_slice() {
        Some(Call::SemGetPid { id, num })
    } else if c == b"getncnt".as_slice() {
        Some(Call::SemGetNcnt { id, num })
    } else if c == b"getzcnt".as_slice() {
        Some(Call::SemGetZcnt { id, num })
    } else {
        None
    }
}

/// `setall VALUES`, and those with an index alone.
#[tactic(auto, unfolding(crate::specs::Forms::one_argument))]
fn one_argument(alloc: Global, id: Id, c: &[u8], i: &[u8]) -> Result<Option<Call>, Memory>
    ensures { IfOk result (λ call. call ≡ forms.one_argument id c.now i.now) }
{
    if c == b"setall".as_slice() {
        let Some(values) = values(alloc, i)? else {
            return Ok(None);
        };
        return Ok(Some(Call::SemSetAll { id, values }));
    }
    match index(i) {
        None => Ok(None),
        Some(num) => Ok(semaphore(id, c, num)),
    }
}

/// `setval I V`, behind the set.
#[tactic(auto, unfolding(crate::specs::Forms::set_value))]
fn set_value(id: Id, c: &[u8], i: &[u8], v: &[u8]) -> Option<Call>
    ensures { result ≡ forms.set_value id c.now i.now v.now }
{
    let num = index(i)?;
    let value = number(MAX_NUMBER, v)?;
    if c == b"setval".as_slice() {
        Some(Call::SemSetVal { id, num, value })
    } else {
        None
    }
}

/// What stands behind the set.
#[tactic(auto, unfolding(crate::specs::Forms::set_command))]
fn set_command(alloc: Global, id: Id, words: &[&[u8]]) -> Result<Option<Call>, Memory>
    ensures { IfOk result (λ call. call ≡ forms.set_command id (texts words.now)) }
{
    match words {
        [c] => Ok(whole_set(id, c)),
        [c, i] => one_argument(alloc, id, c, i),
        [c, i, v] => Ok(set_value(id, c, i, v)),
        _ => Ok(None),
    }
}

/// `semctl S ..`.
#[tactic(auto, unfolding(crate::specs::Forms::semctl_of))]
fn semctl(alloc: Global, words: &[&[u8]]) -> Result<Option<FromCall>, Memory>
    ensures { IfOk result (λ call. call ≡ forms.semctl_of (texts words.now)) }
{
    match words {
        [] => Ok(None),
        [s, more @ ..] => {
            let Some((from, id)) = identifier(s) else {
                return Ok(None);
            };
            let Some(call) = set_command(alloc, id, more)? else {
                return Ok(None);
            };
            Ok(Some((from, call)))
        }
    }
}

// Each of these puts a line with its call in the place of what another line said. They stay apart where they are
// compiled, so that the long value is made where it stays.

#[inline(never)]
pub(crate) fn put_semget(front: &CallFront, words: &[&[u8]], said: &mut Said)
    ensures { said.new ≡ said_from front.now.set front.now.tries (forms.semget_of (texts words.now)) }
{
    put_from(front, semget(words), said);
}

#[inline(never)]
pub(crate) fn put_semop(
    alloc: Global,
    front: &CallFront,
    words: &[&[u8]],
    said: &mut Said,
) -> Result<(), Memory>
    ensures { OnOk result (said.new ≡ said_from front.now.set front.now.tries (forms.semop_of (texts words.now))) }
{
    put_from(front, semop(alloc, words)?, said);
    Ok(())
}

#[inline(never)]
pub(crate) fn put_semctl(
    alloc: Global,
    front: &CallFront,
    words: &[&[u8]],
    said: &mut Said,
) -> Result<(), Memory>
    ensures { OnOk result (said.new ≡ said_from front.now.set front.now.tries (forms.semctl_of (texts words.now))) }
{
    put_from(front, semctl(alloc, words)?, said);
    Ok(())
}
