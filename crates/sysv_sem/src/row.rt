//! The semaphores of a set, with the values of a trial beside them.
ghost use Rattle.std.specs.Prelude.{◌≡◌, ℕ, ◌<◌, None, IsTrue, length, replicate, fold, MatchResult, Ok, Err, IfOk, false, nat_le, nat_lt, vec_len};
ghost use Rattle.std.specs.Bool.{OnFalse};
ghost use Rattle.std.specs.List.{All, list_any};
ghost use Rattle.answer_laws.specs.Answers.{done_reply};
ghost use Rattle.kernel_model.specs.SemaphoreSet as definition;
ghost use Rattle.waiting_model.specs.SemaphoreSet.{stop_of, try_op, try_set};
ghost use Rattle.sysv_sem.specs.Calls.{is_look};
ghost use Rattle.sysv_sem.specs.Trial.{TriesTo};

use crate::one_by_one::{carry_out, is_stopped, try_one};
use crate::semaphore::Semaphore;
use crate::trial::{MAX_VALUE, Trial, may_wait, try_in_order};
use pico_base::{Call, Errno, Memory, Pid, Reply, SemStep, Values};
use std::alloc::{AllocError, Global};
use std::marker::Model;

// The profile's limits: a set's semaphores, and the operations of a `semop`.
pub(crate) const MAX_SEMAPHORES: u32 = 64;

pub(crate) const MAX_OPERATIONS: usize = 32;

/// The semaphores of a set. The values of a trial stand in a row of their own, so that a `semop` takes no memory.
#[derive(Debug, Drop)]
pub(crate) struct Row {
    pub(crate) semaphores: Vec<Semaphore>,
    pub(crate) tried: Vec<u32>,
}

impl Model for Row {
    ghost use Rattle.std.specs.Prelude.{◌≡◌};
    ghost use Rattle.std.specs.Vec.{vec_len};
    ghost use Rattle.kernel_model.specs.SemaphoreSet.{SemaphoreSet};

    ghost Value = { SemaphoreSet };

    ghost view = { λ r. record { semaphores = r.semaphores.items } };

    ghost invariant = { λ r. vec_len r.tried ≡ vec_len r.semaphores };
}

/// Copies the semaphores' values.
pub(crate) fn copy_values(values: &mut Vec<u32>, semaphores: &[Semaphore])
    requires { vec_len values.old ≡ length semaphores.now }
    ensures copied { values.new.items ≡ definition.values_of semaphores.now }
    ensures as_many { vec_len values.new ≡ vec_len values.old }
{
    for place in 0..semaphores.len() {
        values[place] = semaphores[place].value();
    }
}

/// Gives the semaphores these values.
fn write_values(semaphores: &mut Vec<Semaphore>, values: &[u32])
    requires { length values.now ≡ vec_len semaphores.old }
    ensures written { semaphores.new.items ≡ definition.with_values semaphores.old.items values.now }
    ensures as_many { vec_len semaphores.new ≡ vec_len semaphores.old }
{
    for place in 0..values.len() {
        let old = semaphores[place];
        semaphores[place] = Semaphore {
            value: values[place],
            ..old
        };
    }
}

/// Notes the process at each semaphore that an operation names.
fn mark(semaphores: &mut Vec<Semaphore>, pid: Pid, steps: &[SemStep])
    requires { All (λ step. step.num < vec_len semaphores.old) steps.now }
    ensures marked { semaphores.new.items ≡ fold (definition.mark pid) semaphores.old.items steps.now }
    ensures as_many { vec_len semaphores.new ≡ vec_len semaphores.old }
{
    for step in steps {
        let num = usize::from(step.num);
        let old = semaphores[num];
        semaphores[num] = Semaphore { last: pid, ..old };
    }
}

/// The reply to a change.
fn answer(outcome: Result<(), Errno>) -> Reply
    ensures { result ≡ done_reply outcome }
{
    match outcome {
        Ok(()) => Reply::Num(0),
        Err(errno) => Reply::Fail(errno),
    }
}

/// Whether an operation names no semaphore of a set of this size.
fn names_outside(size: usize, steps: &[SemStep]) -> bool
    ensures value { result ≡ list_any (λ step. nat_le size step.num) steps.now }
    ensures inside { OnFalse result (All (λ step. step.num < size) steps.now) }
{
    steps.iter().any(|step| size <= usize::from(step.num))
}

/// Carries out all operations in order, or none. E2BIG: there are more than 32. EFBIG: one names a semaphore that
/// isn't there. EAGAIN and ERANGE: the first that can't go on would have to wait, or make too great a value.
fn operate(set: &mut [Semaphore], pid: Pid, steps: &[SemStep]) -> Result<(), Errno>
    ensures { MatchResult result
        (λ _. definition.op (definition.set_of set.old) pid steps.now ≡ Ok (definition.set_of set.new))
        (λ e. (definition.op (definition.set_of set.old) pid steps.now ≡ Err e) × (set.new ≡ set.old)) }
{
    if steps.len() > MAX_OPERATIONS {
        return Err(Errno::E2big);
    }
    if names_outside(set.len(), steps) {
        return Err(Errno::Efbig);
    }
    carry_out(set, pid, steps)
}

/// Whether a value is above 32,767.
fn is_above(values: &[u32]) -> bool
    ensures { result ≡ list_any (nat_lt definition.max_value) values.now }
{
    values.iter().any(|value| MAX_VALUE < *value)
}

impl Row {
    /// So many semaphores, each with the value 0 and no last process.
    pub(crate) fn new(alloc: Global, count: u32) -> Result<Row, AllocError>
        ensures { IfOk result (λ row. row ≡ definition.set_of (replicate count definition.new_semaphore)) }
    {
        let new = Semaphore {
            value: 0,
            last: Pid(0),
        };
        let semaphores = vec![in alloc; new; count as usize]?;
        let tried = vec![in alloc; 0u32; count as usize]?;
        Ok(Row { semaphores, tried })
    }

    /// How many semaphores there are.
    pub(crate) fn size(&self) -> usize
        ensures { result ≡ length self.now.semaphores }
    {
        self.semaphores.len()
    }

    /// What the semaphores take their memory from.
    pub(crate) fn allocator(&self) -> Global {
        *self.semaphores.allocator()
    }

    /// `semctl` with GETVAL. EINVAL: the semaphore isn't there.
    pub(crate) fn value(&self, num: u16) -> Result<u32, Errno>
        ensures { result ≡ definition.value_at self.now num }
    {
        match self.semaphores.get(usize::from(num)) {
            Some(semaphore) => Ok(semaphore.value),
            None => Err(Errno::Einval),
        }
    }

    /// `semctl` with GETPID. EINVAL: the semaphore isn't there.
    pub(crate) fn last(&self, num: u16) -> Result<Pid, Errno>
        ensures { result ≡ definition.last_at self.now num }
    {
        match self.semaphores.get(usize::from(num)) {
            Some(semaphore) => Ok(semaphore.last),
            None => Err(Errno::Einval),
        }
    }

    /// `semctl` with SETVAL. EINVAL: the semaphore isn't there. ERANGE: the value is above 32,767.
    pub(crate) fn set_value(&mut self, num: u16, value: u32) -> Result<(), Errno>
        ensures { MatchResult result (λ _. definition.set_value self.old num value ≡ Ok self.new)
            (λ e. (definition.set_value self.old num value ≡ Err e) × (self.new ≡ self.old)) }
    {
        let place = usize::from(num);
        if place >= self.semaphores.len() {
            return Err(Errno::Einval);
        }
        if value > MAX_VALUE {
            return Err(Errno::Erange);
        }
        let old = self.semaphores[place];
        self.semaphores[place] = Semaphore { value, ..old };
        Ok(())
    }

    /// `semctl` with SETALL. EINVAL: there are more or fewer values than semaphores (profile). ERANGE: a value is above
    /// 32,767.
    pub(crate) fn set_all(&mut self, values: &[u32]) -> Result<(), Errno>
        ensures { MatchResult result (λ _. definition.set_all self.old values.now ≡ Ok self.new)
            (λ e. (definition.set_all self.old values.now ≡ Err e) × (self.new ≡ self.old)) }
    {
        if values.len() != self.semaphores.len() {
            return Err(Errno::Einval);
        }
        if is_above(values) {
            return Err(Errno::Erange);
        }
        write_values(&mut self.semaphores, values);
        Ok(())
    }

    /// `semctl` with GETALL: the values, in order.
    pub(crate) fn all(&self, alloc: Global) -> Result<Values, Memory>
        ensures { IfOk result (λ values. values ≡ definition.values_of self.now.semaphores) }
    {
        Ok(Values::from_vec(self.semaphores.iter().map(|s| s.value()).collect(alloc)?))
    }

    /// The operation at which the trial of a `semop` stops, where it does.
    pub(crate) fn stop(&mut self, steps: &[SemStep]) -> Option<SemStep>
        ensures same { self.new ≡ self.old }
        ensures stop { result ≡ stop_of self.old steps.now }
    {
        copy_values(&mut self.tried, self.semaphores.as_slice());
        match try_in_order(&mut self.tried, steps) {
            Trial::StopsAt(place) => Some(steps[place]),
            Trial::Done | Trial::OutOfRange => None,
        }
    }

    /// A `semop` of any number of operations, as `try_op` has it.
    #[inline(never)]
    fn try_all(&mut self, pid: Pid, steps: &[SemStep]) -> Option<Reply>
        ensures { TriesTo (try_op self.old pid steps.now) self.old self.new result }
    {
        if steps.len() > MAX_OPERATIONS {
            return Some(Reply::Fail(Errno::E2big));
        }
        if names_outside(self.semaphores.len(), steps) {
            return Some(Reply::Fail(Errno::Efbig));
        }
        copy_values(&mut self.tried, self.semaphores.as_slice());
        match try_in_order(&mut self.tried, steps) {
            Trial::Done => {
                write_values(&mut self.semaphores, self.tried.as_slice());
                mark(&mut self.semaphores, pid, steps);
                Some(Reply::Num(0))
            }
            Trial::StopsAt(place) if may_wait(&steps[place]) => None,
            Trial::StopsAt(_) => Some(Reply::Fail(Errno::Eagain)),
            Trial::OutOfRange => Some(Reply::Fail(Errno::Erange)),
        }
    }

    /// Whether a `semop` is of one operation, at which it has to wait.
    #[inline(always)]
    pub(crate) fn is_stopped(&self, steps: &[SemStep]) -> bool
        ensures { IsTrue result → (pid : ℕ) → try_op self.now pid steps.now ≡ None }
    {
        is_stopped(&self.semaphores, steps)
    }

    /// `semop`: all operations are carried out in order, or none. E2BIG: there are more than 32. EFBIG: one names a
    /// semaphore that isn't there. Then the trial: EAGAIN where it stops at an operation with IPC_NOWAIT, ERANGE where
    /// a value would be above 32,767; None where it stops at another operation, since the caller then has to wait.
    pub(crate) fn try_op(&mut self, pid: Pid, steps: &[SemStep]) -> Option<Reply>
        ensures { TriesTo (try_op self.old pid steps.now) self.old self.new result }
    {
        match steps {
            [step] => try_one(&mut self.semaphores, pid, step),
            _ => self.try_all(pid, steps),
        }
    }

    /// `semop`, carried out at once or not at all: EAGAIN where an operation would have to wait. E2BIG: there are more
    /// than 32. EFBIG: one names a semaphore that isn't there. ERANGE: a value would be above 32,767.
    pub(crate) fn op(&mut self, pid: Pid, steps: &[SemStep]) -> Result<(), Errno>
        ensures { MatchResult result (λ _. definition.op self.old pid steps.now ≡ Ok self.new)
            (λ e. (definition.op self.old pid steps.now ≡ Err e) × (self.new ≡ self.old)) }
    {
        operate(&mut self.semaphores, pid, steps)
    }

    /// Tries a call that changes the set, or is refused. None: it has to wait. It takes no memory.
    pub(crate) fn try_change(&mut self, pid: Pid, call: &Call) -> Option<Reply>
        requires { is_look call.now ≡ false }
        ensures { TriesTo (try_set self.old pid call.now) self.old self.new result }
    {
        match call {
            Call::SemOp { steps, .. } => self.try_op(pid, steps.as_slice()),
            Call::SemSetVal { num, value, .. } => Some(answer(self.set_value(*num, *value))),
            Call::SemSetAll { values, .. } => Some(answer(self.set_all(values.as_slice()))),
            _ => Some(Reply::Fail(Errno::Einval)),
        }
    }
}
