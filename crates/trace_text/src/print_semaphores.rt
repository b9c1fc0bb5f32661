//! The text of a call on a semaphore set.
ghost use Rattle.std.specs.Prelude.{◌≡◌, ◌<◌, ◌≤◌, ◌∷◌, ◌++◌, codes, OnOk};
ghost use Rattle.std.specs.List.{flat_map};
ghost use Rattle.std.specs.Fmt.{decimal, signed_decimal};
ghost use Rattle.kernel_model.specs.Trace as trace;

use crate::fields::{push_create_words, push_id, push_labelled, push_values};
use crate::text::{
    digit_less, digit_of, has_room, push, push_byte, push_growing, push_number, push_signed,
};
use pico_base::{Id, Key, Memory, SemStep};

// A semaphore's number and what is added, of one digit each.
fn push_short_add(out: &mut Vec<u8>, num: u8, add: u8) -> Result<(), Memory>
    requires { (num < 10) × (add < 10) }
    ensures { OnOk result (out.new.items ≡ out.old.items ++ (32 ∷ (decimal num ++ 58 ∷ decimal add))) }
{
    push(out, &[b' ', b'0' + num, b':', b'0' + add])
}

// The same where it is taken away.
fn push_short_less(out: &mut Vec<u8>, num: u8, less: u8) -> Result<(), Memory>
    requires { (num < 10) × (less < 10) }
    ensures { OnOk result (out.new.items ≡ out.old.items ++ (32 ∷ (decimal num ++ 58 ∷ 45 ∷ decimal less))) }
{
    push(out, &[b' ', b'0' + num, b':', b'-', b'0' + less])
}

// The same of any numbers.
#[inline(never)]
fn push_long_add(out: &mut Vec<u8>, num: u16, add: i32) -> Result<(), Memory>
    ensures { OnOk result (out.new.items ≡ out.old.items ++ (32 ∷ (decimal num ++ 58 ∷ signed_decimal add))) }
{
    push_byte(out, b' ')?;
    push_number(out, u64::from(num))?;
    push_byte(out, b':')?;
    push_signed(out, add)
}

// The same of a semaphore whose number has two digits.
fn push_longer_add(out: &mut Vec<u8>, num: u8, add: u8) -> Result<(), Memory>
    requires { (10 ≤ num) × (num < 100) × (add < 10) }
    ensures { OnOk result (out.new.items ≡ out.old.items ++ (32 ∷ (decimal num ++ 58 ∷ decimal add))) }
{
    push(
        out,
        &[b' ', b'0' + num / 10, b'0' + num % 10, b':', b'0' + add],
    )
}

// The same where it is taken away.
fn push_longer_less(out: &mut Vec<u8>, num: u8, less: u8) -> Result<(), Memory>
    requires { (10 ≤ num) × (num < 100) × (less < 10) }
    ensures { OnOk result (out.new.items ≡ out.old.items ++ (32 ∷ (decimal num ++ 58 ∷ 45 ∷ decimal less))) }
{
    push(
        out,
        &[
            b' ',
            b'0' + num / 10,
            b'0' + num % 10,
            b':',
            b'-',
            b'0' + less,
        ],
    )
}

// What is added, of one digit, where there is room.
fn push_digit_add(out: &mut Vec<u8>, num: u8, add: u8) -> Result<(), Memory>
    requires { (num < 100) × (add < 10) }
    ensures { OnOk result (out.new.items ≡ out.old.items ++ (32 ∷ (decimal num ++ 58 ∷ decimal add))) }
{
    if num < 10 {
        return push_short_add(out, num, add);
    }
    push_longer_add(out, num, add)
}

// The same where it is taken away.
fn push_digit_less(out: &mut Vec<u8>, num: u8, less: u8) -> Result<(), Memory>
    requires { (num < 100) × (less < 10) }
    ensures { OnOk result (out.new.items ≡ out.old.items ++ (32 ∷ (decimal num ++ 58 ∷ 45 ∷ decimal less))) }
{
    if num < 10 {
        return push_short_less(out, num, less);
    }
    push_longer_less(out, num, less)
}

// The same of a semaphore whose number has one or two digits.
fn push_add_to_few(out: &mut Vec<u8>, num: u8, add: i32) -> Result<(), Memory>
    requires { num < 100 }
    ensures { OnOk result (out.new.items ≡ out.old.items ++ (32 ∷ (decimal num ++ 58 ∷ signed_decimal add))) }
{
    if let Some(add) = digit_of(add) {
        return push_digit_add(out, num, add);
    }
    if let Some(less) = digit_less(add) {
        return push_digit_less(out, num, less);
    }
    push_long_add(out, u16::from(num), add)
}

fn push_add(out: &mut Vec<u8>, num: u16, add: i32) -> Result<(), Memory>
    ensures { OnOk result (out.new.items ≡ out.old.items ++ (32 ∷ (decimal num ++ 58 ∷ signed_decimal add))) }
{
    if num < 100 && has_room(out, 6) {
        return push_add_to_few(out, num as u8, add);
    }
    push_long_add(out, num, add)
}

// The word `nowait` behind an operation.
#[inline(always)]
fn push_step_nowait(out: &mut Vec<u8>) -> Result<(), Memory>
    ensures { OnOk result (out.new.items ≡ out.old.items ++ codes ":nowait") }
{
    if has_room(out, 7) {
        return push(out, &[b':', b'n', b'o', b'w', b'a', b'i', b't']);
    }
    push_growing(out, b":nowait")
}

fn push_step(out: &mut Vec<u8>, step: SemStep) -> Result<(), Memory>
    ensures { OnOk result (out.new.items ≡ out.old.items ++ trace.step_text step) }
{
    push_add(out, step.num, step.add)?;
    if step.nowait {
        push_step_nowait(out)
    } else {
        Ok(())
    }
}

// The call's name and a set whose number has one digit.
fn push_short_semop(out: &mut Vec<u8>, id: u8) -> Result<(), Memory>
    requires { id < 10 }
    ensures { OnOk result (out.new.items ≡ out.old.items ++ (codes "semop " ++ decimal id)) }
{
    push(out, &[b's', b'e', b'm', b'o', b'p', b' ', b'0' + id])
}

fn push_semop_words(out: &mut Vec<u8>, id: Id) -> Result<(), Memory>
    ensures { OnOk result (out.new.items ≡ out.old.items ++ codes "semop " ++ decimal id) }
{
    if id.0 < 10 && has_room(out, 7) {
        return push_short_semop(out, id.0 as u8);
    }
    push_long_semop(out, id)
}

// The call's name and any set.
#[inline(never)]
fn push_long_semop(out: &mut Vec<u8>, id: Id) -> Result<(), Memory>
    ensures { OnOk result (out.new.items ≡ out.old.items ++ codes "semop " ++ decimal id) }
{
    push(out, b"semop ")?;
    push_id(out, id)
}

#[inline(never)]
pub(crate) fn push_semop(out: &mut Vec<u8>, id: Id, steps: &[SemStep]) -> Result<(), Memory>
    ensures { OnOk result
        (out.new.items ≡ out.old.items ++ codes "semop " ++ decimal id ++ flat_map trace.step_text steps.now) }
{
    push_semop_words(out, id)?;
    for step in steps {
        push_step(out, *step)?;
    }
    Ok(())
}

#[inline(never)]
pub(crate) fn push_semctl(out: &mut Vec<u8>, id: Id, command: &[u8]) -> Result<(), Memory>
    ensures { OnOk result (out.new.items ≡ out.old.items ++ codes "semctl " ++ decimal id ++ command.now) }
{
    push(out, b"semctl ")?;
    push_id(out, id)?;
    push(out, command)
}

#[inline(never)]
pub(crate) fn push_semctl_at(
    out: &mut Vec<u8>,
    id: Id,
    command: &[u8],
    num: u16,
) -> Result<(), Memory>
    ensures { OnOk result (out.new.items ≡ out.old.items ++ trace.semctl_at id command.now num) }
{
    push_semctl(out, id, command)?;
    push_number(out, u64::from(num))
}

#[inline(never)]
pub(crate) fn push_semget(
    out: &mut Vec<u8>,
    key: Option<Key>,
    count: u32,
    create: bool,
    excl: bool,
) -> Result<(), Memory>
    ensures { OnOk result (out.new.items ≡ out.old.items ++ trace.semget_text key count create excl) }
{
    let Some(key) = key else {
        return push_labelled(out, b"semget private ", u64::from(count));
    };
    push_labelled(out, b"semget ", u64::from(key.0))?;
    push_labelled(out, b" ", u64::from(count))?;
    push_create_words(out, create, excl)
}

#[inline(never)]
pub(crate) fn push_setval(out: &mut Vec<u8>, id: Id, num: u16, value: u32) -> Result<(), Memory>
    ensures { OnOk result
        (out.new.items ≡ out.old.items ++ trace.semctl_at id (codes " setval ") num ++ 32 ∷ decimal value) }
{
    push_semctl_at(out, id, b" setval ", num)?;
    push_byte(out, b' ')?;
    push_number(out, u64::from(value))
}

#[inline(never)]
pub(crate) fn push_setall(out: &mut Vec<u8>, id: Id, values: &[u32]) -> Result<(), Memory>
    ensures { OnOk result
        (out.new.items ≡ out.old.items ++ codes "semctl " ++ decimal id ++ codes " setall "
        ++ trace.values_text values.now) }
{
    push_semctl(out, id, b" setall ")?;
    push_values(out, values)
}
