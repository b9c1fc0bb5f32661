//! A `semop` without a trial beforehand: its operations in order, each undone again where a later one can't go on.
ghost use Rattle.std.specs.Prelude.{◌≡◌, ℕ, ◌<◌, ◌∷◌, [], None, length, All, Ok, Err, IfErr, IsTrue, OnOk, OnErr};
ghost use Rattle.kernel_model.specs.SemaphoreSet as definition;
ghost use Rattle.waiting_model.specs.SemaphoreSet.{try_op};
ghost use Rattle.sysv_sem.specs.OneByOne.{carried, told_of};
ghost use Rattle.sysv_sem.specs.Trial.{TriesTo};

use crate::semaphore::Semaphore;
use crate::trial::{may_wait, value_after};
use pico_base::{Errno, Pid, Reply, SemStep};

/// Carries out operations in order, or none, and makes the process the last one of each semaphore that they name.
/// EAGAIN: the first that can't go on would have to wait. ERANGE: it would make a value above 32,767. Only the
/// semaphores that they name are read and written.
pub(crate) fn carry_out(set: &mut [Semaphore], pid: Pid, steps: &[SemStep]) -> Result<(), Errno>
    requires { All (λ step. step.num < length set.old) steps.now }
    ensures done { OnOk result (carried pid set.old steps.now ≡ Ok set.new) }
    ensures refused { IfErr result (λ e. carried pid set.old steps.now ≡ Err e) }
    ensures err { OnErr result (set.new ≡ set.old) }
{
    let Some((step, rest)) = steps.split_first() else {
        return Ok(());
    };
    let place = step.num as usize;
    let before = set[place];
    let value = value_after(step, before.value)?;
    set[place] = Semaphore { value, last: pid };
    if rest.is_empty() {
        return Ok(());
    }
    let done = carry_out(set, pid, rest);
    if done.is_err() {
        set[place] = before;
    }
    done
}

/// The reply to a single operation that can't go on. None: it has to wait.
fn told_of(errno: Errno, step: &SemStep) -> Option<Reply>
    ensures { result ≡ told_of errno step.now }
{
    match errno {
        Errno::Erange => Some(Reply::Fail(Errno::Erange)),
        _ if may_wait(step) => None,
        _ => Some(Reply::Fail(Errno::Eagain)),
    }
}

/// A `semop` of one operation. EFBIG: it names a semaphore that isn't there. EAGAIN: it stops, with IPC_NOWAIT. ERANGE:
/// it would make a value above 32,767. None: it has to wait.
pub(crate) fn try_one(set: &mut [Semaphore], pid: Pid, step: &SemStep) -> Option<Reply>
    ensures { TriesTo (try_op (definition.set_of set.old) pid (step.now ∷ [])) (definition.set_of set.old)
        (definition.set_of set.new) result }
{
    let place = step.num as usize;
    if place >= set.len() {
        return Some(Reply::Fail(Errno::Efbig));
    }
    let before = set[place].value();
    match value_after(step, before) {
        Ok(value) => {
            set[place] = Semaphore { value, last: pid };
            Some(Reply::Num(0))
        }
        Err(errno) => told_of(errno, step),
    }
}

/// Whether a `semop` of this one operation has to wait.
#[inline(always)]
fn stops_at(set: &[Semaphore], step: &SemStep) -> bool
    ensures { IsTrue result → (pid : ℕ) → try_op (definition.set_of set.now) pid (step.now ∷ []) ≡ None }
{
    let place = step.num as usize;
    if place >= set.len() || !may_wait(step) {
        return false;
    }
    let before = set[place].value();
    match value_after(step, before) {
        Err(Errno::Eagain) => true,
        _ => false,
    }
}

/// Whether a `semop` is of one operation, at which it has to wait.
#[inline(always)]
pub(crate) fn is_stopped(set: &[Semaphore], steps: &[SemStep]) -> bool
    ensures { IsTrue result → (pid : ℕ) → try_op (definition.set_of set.now) pid steps.now ≡ None }
{
    match steps {
        [step] => stops_at(set, step),
        _ => false,
    }
}
