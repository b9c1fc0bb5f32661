//! Calls as they are read.
ghost use Rattle.std.specs.Prelude.{ℕ, List, Option};
ghost use Rattle.pico_base.specs.declared.call.Call.TheVariants as calls;
ghost use Rattle.frame_bytes.specs.Readers.{Gives, pick, two, three, four, five};
ghost use Rattle.frame_bytes.specs.Fields.{flag_at, half_at, positive_at, sigarg_at, signed_at, text_at, word_at};
ghost use Rattle.frame_bytes.specs.Calls.{asked_call_at, asked_rows, last_call_at, set_at, step_at, steps_at, withdrawal_at};

use crate::fields::{
    Read, byte, count, flag, half, kind, positive, sig, sigarg, signed, text, word,
};
use crate::many::{Item, many};
use crate::writing::{put_flag, put_signed, put_word};
use pico_base::{Call, Id, Key, Kind, Memory, Name, Pid, SemStep, Steps, UnpackFault, Values};
use std::alloc::Global;

impl Item for SemStep {
    ghost use Rattle.frame_bytes.specs.Calls.{step_at, step_field};
    ghost use Rattle.frame_bytes.specs.Ranges.{HasStepRanges};

    ghost reader = { step_at };

    ghost spelling = { step_field };

    ghost fits = { λ s. HasStepRanges s };

    ghost within = { λ _. Unit {0} };

    #[tactic(auto, unfolding(crate::specs::Calls::step_at))]
    fn read(_alloc: Global, bytes: &[u8]) -> Read<'_, SemStep> {
        let (num, rest) = half(bytes)?;
        let (add, rest) = signed(rest)?;
        let (nowait, rest) = flag(rest)?;
        Ok((SemStep { num, add, nowait }, rest))
    }

    fn put(&self, out: &mut Vec<u8>) -> Result<(), Memory> {
        out.extend_from_slice(&self.num.to_be_bytes())?;
        put_signed(out, self.add)?;
        put_flag(out, self.nowait)?;
        Ok(())
    }
}

impl Item for u32 {
    ghost use Rattle.frame_bytes.specs.Fields.{IsWord, word, word_at};

    ghost reader = { word_at };

    ghost spelling = { word };

    ghost fits = { IsWord };

    ghost within = { λ _. Unit {0} };

    fn read(_alloc: Global, bytes: &[u8]) -> Read<'_, u32> {
        word(bytes)
    }

    fn put(&self, out: &mut Vec<u8>) -> Result<(), Memory> {
        put_word(out, *self)
    }
}

#[tactic(auto, unfolding(crate::specs::Calls::steps_at))]
fn steps(alloc: Global, bytes: &[u8]) -> Read<'_, Steps>
    ensures { Gives (λ x. (x.0, x.1.now)) result (steps_at bytes.now) }
{
    let (count, rest) = count(bytes)?;
    let (steps, rest) = many(alloc, count as usize, rest)?;
    Ok((Steps::from_vec(steps), rest))
}

#[tactic(auto, unfolding(crate::specs::Calls::set_at))]
fn set(alloc: Global, bytes: &[u8]) -> Read<'_, Values>
    ensures { Gives (λ x. (x.0, x.1.now)) result (set_at bytes.now) }
{
    let (count, rest) = count(bytes)?;
    let (values, rest) = many(alloc, count as usize, rest)?;
    Ok((Values::from_vec(values), rest))
}

fn kill(bytes: &[u8]) -> Read<'_, Call>
    ensures { Gives (λ x. (x.0, x.1.now)) result (two word_at sigarg_at calls.Kill bytes.now) }
{
    let (pid, rest) = word(bytes)?;
    let (sig, rest) = sigarg(rest)?;
    let call = Call::Kill { pid: Pid(pid), sig };
    Ok((call, rest))
}

fn msg_get(bytes: &[u8]) -> Read<'_, Call>
    ensures { Gives (λ x. (x.0, x.1.now)) result
        (three positive_at flag_at flag_at (λ key. calls.MsgGet (Some key)) bytes.now) }
{
    let (key, rest) = positive(bytes)?;
    let (create, rest) = flag(rest)?;
    let (excl, rest) = flag(rest)?;
    let call = Call::MsgGet {
        key: Some(Key(key)),
        create,
        excl,
    };
    Ok((call, rest))
}

fn msg_snd(alloc: Global, bytes: &[u8]) -> Read<'_, Call>
    ensures { Gives (λ x. (x.0, x.1.now)) result (four word_at signed_at text_at flag_at calls.MsgSnd bytes.now) }
{
    let (id, rest) = word(bytes)?;
    let (class, rest) = signed(rest)?;
    let (text, rest) = text(alloc, rest)?;
    let (nowait, rest) = flag(rest)?;
    let call = Call::MsgSnd {
        id: Id(id),
        class,
        text,
        nowait,
    };
    Ok((call, rest))
}

fn msg_rcv(bytes: &[u8]) -> Read<'_, Call>
    ensures { Gives (λ x. (x.0, x.1.now)) result
        (five word_at signed_at word_at flag_at flag_at calls.MsgRcv bytes.now) }
{
    let (id, rest) = word(bytes)?;
    let (class, rest) = signed(rest)?;
    let (size, rest) = word(rest)?;
    let (noerror, rest) = flag(rest)?;
    let (nowait, rest) = flag(rest)?;
    let call = Call::MsgRcv {
        id: Id(id),
        class,
        size,
        noerror,
        nowait,
    };
    Ok((call, rest))
}

fn msg_set(bytes: &[u8]) -> Read<'_, Call>
    ensures { Gives (λ x. (x.0, x.1.now)) result (two word_at word_at calls.MsgSet bytes.now) }
{
    let (id, rest) = word(bytes)?;
    let (qbytes, rest) = word(rest)?;
    let call = Call::MsgSet { id: Id(id), qbytes };
    Ok((call, rest))
}

fn sem_get(bytes: &[u8]) -> Read<'_, Call>
    ensures { Gives (λ x. (x.0, x.1.now)) result
        (four positive_at word_at flag_at flag_at (λ key. calls.SemGet (Some key)) bytes.now) }
{
    let (key, rest) = positive(bytes)?;
    let (count, rest) = word(rest)?;
    let (create, rest) = flag(rest)?;
    let (excl, rest) = flag(rest)?;
    let call = Call::SemGet {
        key: Some(Key(key)),
        count,
        create,
        excl,
    };
    Ok((call, rest))
}

fn sem_op(alloc: Global, bytes: &[u8]) -> Read<'_, Call>
    ensures { Gives (λ x. (x.0, x.1.now)) result (two word_at steps_at calls.SemOp bytes.now) }
{
    let (id, rest) = word(bytes)?;
    let (steps, rest) = steps(alloc, rest)?;
    let call = Call::SemOp { id: Id(id), steps };
    Ok((call, rest))
}

fn sem_set_val(bytes: &[u8]) -> Read<'_, Call>
    ensures { Gives (λ x. (x.0, x.1.now)) result (three word_at half_at word_at calls.SemSetVal bytes.now) }
{
    let (id, rest) = word(bytes)?;
    let (num, rest) = half(rest)?;
    let (value, rest) = word(rest)?;
    let call = Call::SemSetVal {
        id: Id(id),
        num,
        value,
    };
    Ok((call, rest))
}

fn sem_set_all(alloc: Global, bytes: &[u8]) -> Read<'_, Call>
    ensures { Gives (λ x. (x.0, x.1.now)) result (two word_at set_at calls.SemSetAll bytes.now) }
{
    let (id, rest) = word(bytes)?;
    let (values, rest) = set(alloc, rest)?;
    let call = Call::SemSetAll { id: Id(id), values };
    Ok((call, rest))
}

/// The fields of a call on a queue, or of a kill, behind the code.
fn asked_fields(alloc: Global, code: u8, bytes: &[u8]) -> Read<'_, Call>
    ensures { Gives (λ x. (x.0, x.1.now)) result (pick asked_rows code bytes.now) }
{
    match code {
        1 => kill(bytes),
        2 => msg_get(bytes),
        3 => msg_snd(alloc, bytes),
        4 => msg_rcv(bytes),
        6 => msg_set(bytes),
        8 => sem_get(bytes),
        9 => sem_op(alloc, bytes),
        11 => sem_set_val(bytes),
        13 => sem_set_all(alloc, bytes),
        5 | 7 | 12 | 17 => {
            let (id, rest) = word(bytes)?;
            let id = Id(id);
            let call = match code {
                5 => Call::MsgStat { id },
                7 => Call::MsgRmid { id },
                12 => Call::SemGetAll { id },
                _ => Call::SemRmid { id },
            };
            Ok((call, rest))
        }
        10 | 14 | 15 | 16 => {
            let (id, rest) = word(bytes)?;
            let id = Id(id);
            let (num, rest) = half(rest)?;
            let call = match code {
                10 => Call::SemGetVal { id, num },
                14 => Call::SemGetPid { id, num },
                15 => Call::SemGetNcnt { id, num },
                _ => Call::SemGetZcnt { id, num },
            };
            Ok((call, rest))
        }
        _ => Err(UnpackFault::NotABody),
    }
}

/// A call that one node asks another to carry out: codes 1 to 17.
#[tactic(auto, unfolding(crate::specs::Calls::asked_call_at))]
pub(crate) fn asked_call(alloc: Global, bytes: &[u8]) -> Read<'_, Call>
    ensures { Gives (λ x. (x.0, x.1.now)) result (asked_call_at bytes.now) }
{
    let (code, rest) = byte(bytes)?;
    asked_fields(alloc, code, rest)
}

/// A call that ends a process: codes 18 and 19.
#[tactic(auto, unfolding(crate::specs::Calls::last_call_at))]
pub(crate) fn last_call(bytes: &[u8]) -> Read<'_, Call>
    ensures { Gives (λ x. (x.0, x.1.now)) result (last_call_at bytes.now) }
{
    let (code, rest) = byte(bytes)?;
    match code {
        18 => {
            let (status, rest) = half(rest)?;
            Ok((Call::Exit { status }, rest))
        }
        19 => {
            let (sig, rest) = sig(rest)?;
            Ok((Call::Killed { sig }, rest))
        }
        _ => Err(UnpackFault::NotABody),
    }
}

/// A call that ends a wait at a queue or a set: code 20, and the name where it waits.
#[tactic(auto, unfolding(crate::specs::Calls::withdrawal_at, crate::specs::Calls::object_at))]
pub(crate) fn withdrawal(bytes: &[u8]) -> Read<'_, Call>
    ensures { Gives (λ x. (x.0, x.1.now)) result (withdrawal_at bytes.now) }
{
    let (code, rest) = byte(bytes)?;
    if code != 20 {
        return Err(UnpackFault::NotABody);
    }
    let (kind, rest) = kind(rest)?;
    let (number, rest) = word(rest)?;
    let name = match kind {
        Kind::Proc => return Err(UnpackFault::NotABody),
        Kind::Msg => Name::Msg(Id(number)),
        Kind::Sem => Name::Sem(Id(number)),
    };
    Ok((Call::Withdraw { name }, rest))
}
