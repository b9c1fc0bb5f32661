//! One semaphore set: its values, the trial of a semop, and last processes.
ghost use Rattle.std.specs.Prelude.{◌≡◌, ◌<◌, length, map, replicate, fold, MatchResult, Ok, Err, Some, IfOk, OnErr, nat_le, nat_lt, vec_len};
ghost use Rattle.std.specs.List.{All, list_any};
ghost use Rattle.kernel_model.specs.SemaphoreSet.{max_value, is_bad_count, new_semaphore, values_of, move_by, try_ops, with_values, mark, value_at, last_at, set_of, set_value, set_all};
ghost use Rattle.kernel_model.specs.Waiting.{may_wait};
ghost use Rattle.answer_laws.specs.Answers.{done_reply, reply_to};
ghost use Rattle.waiting_model.specs.SemaphoreSet.{stop_of, try_op, try_set};
ghost use Rattle.mono_kernel.specs.Trial.{answer_of, moved, tried_of, stopped_by, IsInside, TriesTo};

use pico_base::{Call, Errno, Memory, Pid, Reply, SemStep, Values};
use std::alloc::Global;
use std::marker::Model;

/// The profile's limits.
const MAX_SEMAPHORES: u32 = 64;

const MAX_VALUE: u32 = 32767;

const MAX_OPERATIONS: usize = 32;

/// A semaphore: its value and the process of the last `semop` on it, 0 for none yet.
#[derive(Clone, Copy)]
struct OneSemaphore {
    value: u32,
    last: Pid,
}

impl Model for OneSemaphore {
    ghost use Rattle.kernel_model.specs.SemaphoreSet.{Semaphore};

    ghost Value = { Semaphore };

    ghost view = { λ s. record { value = s.value; last = s.last } };

    ghost inverse = { λ s. record { value = s.value; last = s.last } };
}

impl OneSemaphore {
    /// The value.
    fn value(&self) -> u32
        ensures { result ≡ self.now.value }
    {
        self.value
    }
}

/// A semaphore set. The values of a trial stand beside it, so that a `semop` takes no memory.
#[derive(Drop)]
pub(crate) struct SemaphoreSet {
    semaphores: Vec<OneSemaphore>,
    tried: Vec<u32>,
}

impl Model for SemaphoreSet {
    ghost use Rattle.std.specs.Prelude.{◌≡◌};
    ghost use Rattle.std.specs.Vec.{vec_len};
    ghost use Rattle.kernel_model.specs.SemaphoreSet.{SemaphoreSet as PlainSet};

    ghost Value = { PlainSet };

    ghost view = { λ s. record { semaphores = s.semaphores.items } };

    ghost invariant = { λ s. vec_len s.tried ≡ vec_len s.semaphores };
}

/// How a trial ends: all operations can go on, the one at this place can't, or a value would be above
/// the limit.
#[derive(Clone, Copy)]
enum Trial {
    Done,
    StopsAt(usize),
    OutOfRange,
}

/// Whether no set has this many semaphores.
pub(crate) fn is_bad_size(count: u32) -> bool
    ensures { result ≡ is_bad_count count }
{
    count == 0 || count > MAX_SEMAPHORES
}

/// The value after an operation: EAGAIN where it would have to wait, ERANGE for a value above the
/// limit.
fn value_after(step: &SemStep, value: u32) -> Result<u32, Errno>
    ensures { result ≡ answer_of (move_by step.now.add value) }
{
    let add = step.add;
    if add == 0 {
        return if value == 0 {
            Ok(0)
        } else {
            Err(Errno::Eagain)
        };
    }
    let size = add.unsigned_abs();
    if add > 0 {
        if size <= MAX_VALUE && value <= MAX_VALUE - size {
            Ok(value + size)
        } else {
            Err(Errno::Erange)
        }
    } else if size <= value {
        Ok(value - size)
    } else {
        Err(Errno::Eagain)
    }
}

/// One operation on the values: EAGAIN where it would have to wait, ERANGE for a value above the
/// limit.
fn move_one(values: &mut Vec<u32>, step: &SemStep) -> Result<(), Errno>
    ensures as_many { vec_len values.new ≡ vec_len values.old }
    ensures moved { MatchResult result (λ _. moved values.old.items step.now ≡ Ok values.new.items)
        (λ e. (moved values.old.items step.now ≡ Err e) × (values.new.items ≡ values.old.items)) }
{
    let num = usize::from(step.num);
    if num >= values.len() {
        return Err(Errno::Eagain);
    }
    match value_after(step, values[num]) {
        Ok(value) => values[num] = value,
        Err(errno) => return Err(errno),
    }
    Ok(())
}

/// The operations in order, on a copy of the values, up to the first that can't go on.
fn try_in_order(values: &mut Vec<u32>, steps: &[SemStep]) -> Trial
    ensures as_many { vec_len values.new ≡ vec_len values.old }
    ensures tried { try_ops values.old.items steps.now ≡ tried_of result values.new.items }
    ensures inside { IsInside result steps.now }
{
    for place in 0..steps.len() {
        match move_one(values, &steps[place]) {
            Ok(()) => (),
            Err(errno) => return stopped(errno, place),
        }
    }
    Trial::Done
}

/// How a trial ends at an operation that can't go on.
fn stopped(errno: Errno, place: usize) -> Trial
    ensures { result ≡ stopped_by errno place }
{
    match errno {
        Errno::Erange => Trial::OutOfRange,
        _ => Trial::StopsAt(place),
    }
}

/// Copies the semaphores' values.
fn copy_values(values: &mut Vec<u32>, semaphores: &[OneSemaphore])
    requires { vec_len values.old ≡ length semaphores.now }
    ensures copied { values.new.items ≡ values_of semaphores.now }
    ensures as_many { vec_len values.new ≡ vec_len values.old }
{
    for place in 0..semaphores.len() {
        values[place] = semaphores[place].value();
    }
}

/// Whether an operation may have to wait.
fn may_wait(step: &SemStep) -> bool
    ensures { result ≡ may_wait step.now }
{
    step.add <= 0 && !step.nowait
}

/// The reply to a change.
fn answer(outcome: Result<(), Errno>) -> Reply
    ensures { result ≡ done_reply outcome }
{
    match outcome {
        Ok(()) => Reply::Num(0),
        Err(errno) => Reply::Fail(errno),
    }
}

/// The reply of a look at a set.
pub(crate) fn looked_up(found: Result<u32, Errno>) -> Reply
    ensures { result ≡ reply_to found }
{
    match found {
        Ok(number) => Reply::Num(number),
        Err(errno) => Reply::Fail(errno),
    }
}

/// Whether an operation names no semaphore of a set of this size.
fn names_another(size: usize, steps: &[SemStep]) -> bool
    ensures { result ≡ list_any (λ step. nat_le size step.num) steps.now }
{
    steps.iter().any(|step| size <= usize::from(step.num))
}

/// Whether a value is above the limit.
fn has_too_high(values: &[u32]) -> bool
    ensures { result ≡ list_any (nat_lt max_value) values.now }
{
    values.iter().any(|value| MAX_VALUE < *value)
}

/// Gives the semaphores these values.
fn write_values(semaphores: &mut Vec<OneSemaphore>, values: &[u32])
    requires { length values.now ≡ vec_len semaphores.old }
    ensures written { semaphores.new.items ≡ with_values semaphores.old.items values.now }
    ensures as_many { vec_len semaphores.new ≡ vec_len semaphores.old }
{
    for place in 0..values.len() {
        let old = semaphores[place];
        semaphores[place] = OneSemaphore {
            value: values[place],
            ..old
        };
    }
}

/// Notes the process at each semaphore that an operation names.
fn mark(semaphores: &mut Vec<OneSemaphore>, pid: Pid, steps: &[SemStep])
    requires { All (λ step. step.num < vec_len semaphores.old) steps.now }
    ensures marked { semaphores.new.items ≡ fold (mark pid) semaphores.old.items steps.now }
    ensures as_many { vec_len semaphores.new ≡ vec_len semaphores.old }
{
    for step in steps {
        let num = usize::from(step.num);
        let old = semaphores[num];
        semaphores[num] = OneSemaphore { last: pid, ..old };
    }
}

impl SemaphoreSet {
    /// A set of this many semaphores, each with the value 0.
    pub(crate) fn new(alloc: Global, count: u32) -> Result<SemaphoreSet, Memory>
        ensures { IfOk result (λ set. set ≡ set_of (replicate count new_semaphore)) }
    {
        let semaphores = vec![in alloc; OneSemaphore {
            value: 0,
            last: Pid(0)
        }; count as usize]?;
        let tried = vec![in alloc; 0u32; count as usize]?;
        Ok(SemaphoreSet { semaphores, tried })
    }

    /// How many semaphores there are.
    pub(crate) fn size(&self) -> usize
        ensures { result ≡ length self.now.semaphores }
    {
        self.semaphores.len()
    }

    /// semctl with GETVAL: EINVAL for a number that is no semaphore's.
    fn value(&self, num: u16) -> Result<u32, Errno>
        ensures { result ≡ value_at self.now num }
    {
        match self.semaphores.get(usize::from(num)) {
            Some(semaphore) => Ok(semaphore.value),
            None => Err(Errno::Einval),
        }
    }

    /// semctl with GETPID, refused likewise.
    fn last(&self, num: u16) -> Result<u32, Errno>
        ensures { result ≡ last_at self.now num }
    {
        match self.semaphores.get(usize::from(num)) {
            Some(semaphore) => Ok(semaphore.last.0),
            None => Err(Errno::Einval),
        }
    }

    /// semctl with SETVAL: EINVAL likewise, then ERANGE for a value above the limit.
    fn set_value(&mut self, num: u16, value: u32) -> Result<(), Errno>
        ensures { MatchResult result (λ _. set_value self.old num value ≡ Ok self.new)
            (λ e. (set_value self.old num value ≡ Err e) × (self.new ≡ self.old)) }
    {
        let place = usize::from(num);
        if place >= self.semaphores.len() {
            return Err(Errno::Einval);
        }
        if value > MAX_VALUE {
            return Err(Errno::Erange);
        }
        let old = self.semaphores[place];
        self.semaphores[place] = OneSemaphore { value, ..old };
        Ok(())
    }

    /// semctl with GETALL.
    fn all(&self, alloc: Global) -> Result<Values, Memory>
        ensures { IfOk result (λ values. values ≡ values_of self.now.semaphores) }
    {
        Ok(Values::from_vec(self.semaphores.iter().map(|s| s.value()).collect(alloc)?))
    }

    /// The operation at which the trial of a `semop` stops, where it does.
    pub(crate) fn stop(&mut self, steps: &[SemStep]) -> Option<SemStep>
        ensures same { self.new ≡ self.old }
        ensures stop { result ≡ stop_of self.old steps.now }
    {
        copy_values(&mut self.tried, self.semaphores.as_slice());
        match try_in_order(&mut self.tried, steps) {
            Trial::StopsAt(place) => Some(steps[place]),
            Trial::Done | Trial::OutOfRange => None,
        }
    }

    /// semop: E2BIG for too many operations, EFBIG for a number that is no semaphore's, and then the
    /// trial. None where it has to wait.
    pub(crate) fn try_op(&mut self, pid: Pid, steps: &[SemStep]) -> Option<Reply>
        ensures { TriesTo (try_op self.old pid steps.now) self.old self.new result }
    {
        if steps.len() > MAX_OPERATIONS {
            return Some(Reply::Fail(Errno::E2big));
        }
        if names_another(self.semaphores.len(), steps) {
            return Some(Reply::Fail(Errno::Efbig));
        }
        copy_values(&mut self.tried, self.semaphores.as_slice());
        match try_in_order(&mut self.tried, steps) {
            Trial::Done => {
                write_values(&mut self.semaphores, self.tried.as_slice());
                mark(&mut self.semaphores, pid, steps);
                Some(Reply::Num(0))
            }
            Trial::StopsAt(place) if may_wait(&steps[place]) => None,
            Trial::StopsAt(_) => Some(Reply::Fail(Errno::Eagain)),
            Trial::OutOfRange => Some(Reply::Fail(Errno::Erange)),
        }
    }

    /// semctl with SETALL: EINVAL for another count of values than the set's size, then ERANGE for a
    /// value above the limit.
    fn set_all(&mut self, values: &[u32]) -> Result<(), Errno>
        ensures { MatchResult result (λ _. set_all self.old values.now ≡ Ok self.new)
            (λ e. (set_all self.old values.now ≡ Err e) × (self.new ≡ self.old)) }
    {
        if values.len() != self.semaphores.len() {
            return Err(Errno::Einval);
        }
        if has_too_high(values) {
            return Err(Errno::Erange);
        }
        write_values(&mut self.semaphores, values);
        Ok(())
    }

    /// Tries a call. None where it has to wait. A refusal of memory changes nothing.
    pub(crate) fn try_call(
        &mut self,
        alloc: Global,
        pid: Pid,
        call: &Call,
    ) -> Result<Option<Reply>, Memory>
        ensures ok { IfOk result (λ reply. TriesTo (try_set self.old pid call.now) self.old self.new reply) }
        ensures err { OnErr result (self.new ≡ self.old) }
    {
        Ok(match call {
            Call::SemOp { steps, .. } => self.try_op(pid, steps.as_slice()),
            Call::SemGetVal { num, .. } => Some(looked_up(self.value(*num))),
            Call::SemGetPid { num, .. } => Some(looked_up(self.last(*num))),
            Call::SemSetVal { num, value, .. } => Some(answer(self.set_value(*num, *value))),
            Call::SemGetAll { .. } => Some(Reply::All(self.all(alloc)?)),
            Call::SemSetAll { values, .. } => Some(answer(self.set_all(values.as_slice()))),
            _ => Some(Reply::Fail(Errno::Einval)),
        })
    }
}
