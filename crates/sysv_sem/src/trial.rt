//! The trial of a `semop`: its operations in order, on a copy of the values.
ghost use Rattle.std.specs.Prelude.{◌≡◌, Ok, Err, MatchResult, vec_len};
ghost use Rattle.kernel_model.specs.SemaphoreSet as definition;
ghost use Rattle.kernel_model.specs.Waiting.{may_wait};
ghost use Rattle.sysv_sem.specs.Trial.{answer_of, moved, tried_of, stopped_by, IsInside};

use pico_base::{Errno, SemStep};

/// The greatest value of a semaphore (profile).
pub(crate) const MAX_VALUE: u32 = 32767;

/// How a trial ends: all operations can go on, the one at this place can't, or a value would be above 32,767.
#[derive(Clone, Copy)]
pub(crate) enum Trial {
    Done,
    StopsAt(usize),
    OutOfRange,
}

/// The value after an operation. EAGAIN: it would have to wait. ERANGE: the value would be above 32,767.
pub(crate) fn value_after(step: &SemStep, value: u32) -> Result<u32, Errno>
    ensures { result ≡ answer_of (definition.move_by step.now.add value) }
{
    let add = step.add;
    if add == 0 {
        return if value == 0 {
            Ok(0)
        } else {
            Err(Errno::Eagain)
        };
    }
    let size = add.unsigned_abs();
    if add > 0 {
        if size <= MAX_VALUE && value <= MAX_VALUE - size {
            Ok(value + size)
        } else {
            Err(Errno::Erange)
        }
    } else if size <= value {
        Ok(value - size)
    } else {
        Err(Errno::Eagain)
    }
}

/// One operation on the values. EAGAIN and ERANGE: it can't go on, and the values stay.
fn move_one(values: &mut Vec<u32>, step: &SemStep) -> Result<(), Errno>
    ensures as_many { vec_len values.new ≡ vec_len values.old }
    ensures moved { MatchResult result (λ _. moved values.old.items step.now ≡ Ok values.new.items)
        (λ e. (moved values.old.items step.now ≡ Err e) × (values.new.items ≡ values.old.items)) }
{
    let num = usize::from(step.num);
    if num >= values.len() {
        return Err(Errno::Eagain);
    }
    match value_after(step, values[num]) {
        Ok(value) => values[num] = value,
        Err(errno) => return Err(errno),
    }
    Ok(())
}

/// How a trial ends at an operation that can't go on.
fn stopped(errno: Errno, place: usize) -> Trial
    ensures { result ≡ stopped_by errno place }
{
    match errno {
        Errno::Erange => Trial::OutOfRange,
        _ => Trial::StopsAt(place),
    }
}

/// The operations in order, on a copy of the values, up to the first that can't go on.
pub(crate) fn try_in_order(values: &mut Vec<u32>, steps: &[SemStep]) -> Trial
    ensures as_many { vec_len values.new ≡ vec_len values.old }
    ensures tried { definition.try_ops values.old.items steps.now ≡ tried_of result values.new.items }
    ensures inside { IsInside result steps.now }
{
    for place in 0..steps.len() {
        match move_one(values, &steps[place]) {
            Ok(()) => (),
            Err(errno) => return stopped(errno, place),
        }
    }
    Trial::Done
}

/// Whether an operation may have to wait: it isn't positive, and has no IPC_NOWAIT.
pub(crate) fn may_wait(step: &SemStep) -> bool
    ensures { result ≡ may_wait step.now }
{
    step.add <= 0 && !step.nowait
}
