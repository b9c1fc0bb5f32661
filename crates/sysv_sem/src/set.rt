//! A semaphore set as its node holds it, with those who wait at it.
ghost use Rattle.std.specs.Prelude.{◌≡◌, ◌↔◌, [], Ok, Err, IfOk, IfErr, OnOk, OnErr, MatchOption, IsTrue, false, find, length, map, option_map};
ghost use Rattle.std.specs.List.{list_any};
ghost use Rattle.sysv_sem.specs.declared.fault.NewFault.TheVariants.{BadCount};
ghost use Rattle.kernel_model.specs.SemaphoreSet as definition;
ghost use Rattle.kernel_model.specs.Waiting.{may_wait};
ghost use Rattle.waiting_model.specs.Waiters.{unawaited, waits_here, wakes_at_removal, without_waiter};
ghost use Rattle.sysv_sem.specs.Waiters.{is_asked, IsAtRest};

use crate::NewFault;
use crate::room::Room;
use crate::row::{MAX_SEMAPHORES, Row};
use crate::waiters::{callers, refuse_all, slot_of, waits};
use index_links::Links;
use pico_base::{Errno, Memory, Node, Pid, SemStep, Values};
use std::alloc::Global;
use std::marker::Model;
use waiting_model::{Waiting, Wakes};

/// A semaphore set, and those who wait at it in the order in which they parked; so contracts see it. It has 1 to 64
/// semaphores with values up to 32,767. At most 32 wait, of different processes, under tickets of at least 1, each in a
/// `semop` of at most 32 operations. Between calls nobody waits who could go on.
#[derive(Drop)]
pub struct SemSet {
    pub(crate) row: Row,
    pub(crate) waiters: Links<Waiting>,
    // where a change writes whom it wakes, once somebody has waited
    pub(crate) room: Option<Box<Room>>,
}

impl Model for SemSet {
    ghost use Rattle.kernel_model.specs.SemaphoreSet.{SemaphoreSet};
    ghost use Rattle.waiting_model.specs.Waiters.{Awaited};
    ghost use Rattle.sysv_sem.specs.Waiters.{held, IsAtRest};

    ghost Value = { Awaited SemaphoreSet };

    ghost view = { λ s. held s.row s.waiters.nodes };

    ghost invariant = { λ s. IsAtRest (held s.row s.waiters.nodes) };
}

impl SemSet {
    /// A set of `count` semaphores with the value 0 and no last process (profile), at which nobody waits. BadCount:
    /// `count` is 0 or above 64.
    pub fn new(alloc: Global, count: u32) -> Result<SemSet, NewFault>
        ensures made { IfOk result (λ set. definition.new_set count ≡ Ok set.state) }
        ensures nobody { IfOk result (λ set. set.waiters ≡ []) }
        ensures bad { (result ≡ Err BadCount) ↔ IsTrue (definition.is_bad_count count) }
    {
        if count == 0 || count > MAX_SEMAPHORES {
            return Err(NewFault::BadCount);
        }
        let row = Row::new(alloc, count)?;
        Ok(SemSet {
            row,
            waiters: Links::new(alloc),
            room: None,
        })
    }

    /// `semop`, where it has its reply at once: all operations are carried out in order, or none. The process is then
    /// the last one of each semaphore that an operation names. E2BIG: there are more than 32 operations. EFBIG: an
    /// operation names a semaphore that isn't there. EAGAIN: the first operation that can't go on would have to wait.
    /// ERANGE: the first that can't go on would make a value above 32,767. A refusal changes nothing. It takes no
    /// memory.
    pub fn op(&mut self, pid: Pid, steps: &[SemStep]) -> Result<(), Errno>
        requires nobody { self.old.waiters ≡ [] }
        requires at_once { list_any may_wait steps.now ≡ false }
        ensures done { IfOk result (λ _. definition.op self.old.state pid steps.now ≡ Ok self.new.state) }
        ensures refused { IfErr result (λ e. definition.op self.old.state pid steps.now ≡ Err e) }
        ensures err { OnErr result (self.new ≡ self.old) }
        ensures still_nobody { self.new.waiters ≡ [] }
    {
        self.row.op(pid, steps)
    }

    /// `semctl` with GETVAL. EINVAL: the semaphore isn't there.
    pub fn value(&self, num: u16) -> Result<u32, Errno>
        ensures { result ≡ definition.value_at self.now.state num }
    {
        self.row.value(num)
    }

    /// `semctl` with GETPID: the process of the last successful `semop` on the semaphore, 0 for none yet. EINVAL:
    /// the semaphore isn't there.
    pub fn last(&self, num: u16) -> Result<Pid, Errno>
        ensures { result ≡ definition.last_at self.now.state num }
    {
        self.row.last(num)
    }

    /// `semctl` with SETVAL, where nobody waits. The last process stays (profile). EINVAL: the semaphore isn't there.
    /// ERANGE: the value is above 32,767. A refusal changes nothing.
    pub fn set_value(&mut self, num: u16, value: u32) -> Result<(), Errno>
        requires nobody { self.old.waiters ≡ [] }
        ensures set { IfOk result (λ _. definition.set_value self.old.state num value ≡ Ok self.new.state) }
        ensures refused { IfErr result (λ e. definition.set_value self.old.state num value ≡ Err e) }
        ensures err { OnErr result (self.new ≡ self.old) }
        ensures still_nobody { self.new.waiters ≡ [] }
    {
        self.row.set_value(num, value)
    }

    /// `semctl` with SETALL, where nobody waits. The last processes stay (profile). EINVAL: there are more or fewer
    /// values than semaphores (profile). ERANGE: a value is above 32,767. A refusal changes nothing.
    pub fn set_all(&mut self, values: &[u32]) -> Result<(), Errno>
        requires nobody { self.old.waiters ≡ [] }
        ensures set { IfOk result (λ _. definition.set_all self.old.state values.now ≡ Ok self.new.state) }
        ensures refused { IfErr result (λ e. definition.set_all self.old.state values.now ≡ Err e) }
        ensures err { OnErr result (self.new ≡ self.old) }
        ensures still_nobody { self.new.waiters ≡ [] }
    {
        self.row.set_all(values)
    }

    /// `semctl` with GETALL: the values, in order.
    pub fn all(&self) -> Result<Values, Memory>
        ensures { IfOk result (λ values. values ≡ definition.values_of self.now.state.semaphores) }
    {
        self.row.all(self.row.allocator())
    }

    /// How many semaphores there are.
    pub fn size(&self) -> u32
        ensures { result ≡ length self.now.state.semaphores }
    {
        self.row.size() as u32
    }

    /// `semctl` with IPC_RMID: what each who waits is told, EIDRM, in order. Then nobody waits. Memory: an allocation
    /// was refused, and all stays.
    pub fn remove(&mut self) -> Result<Wakes, Memory>
        ensures wakes { IfOk result (λ wakes. wakes ≡ wakes_at_removal self.old) }
        ensures nobody { OnOk result (self.new ≡ unawaited self.old.state) }
        ensures err { OnErr result (self.new ≡ self.old) }
    {
        let room = Vec::with_capacity(self.row.allocator(), self.waiters.len() as usize)?;
        Ok(Wakes::from_vec(refuse_all(&mut self.waiters, room)))
    }

    /// Takes out the waiter of this process and this ticket, and nothing else. None: there is none. It takes no memory.
    pub fn cancel(&mut self, pid: Pid, ticket: u32) -> Option<Waiting>
        ensures found { result ≡ find (is_asked pid ticket) self.old.waiters }
        ensures left { MatchOption result (self.new ≡ self.old) (λ _. self.new ≡ without_waiter pid self.old) }
    {
        let slot = slot_of(&self.waiters, pid, ticket)?;
        Some(self.waiters.unlink(slot))
    }

    /// How many wait. It takes no memory.
    pub fn waiting(&self) -> u32
        ensures { result ≡ length self.now.waiters }
    {
        self.waiters.len()
    }

    /// Whether a process waits here. It takes no memory.
    pub fn waits(&self, pid: Pid) -> bool
        ensures { result ≡ waits_here pid self.now }
    {
        waits(&self.waiters, pid)
    }

    /// The set is within its limits, and so are those who wait: each in a `semop`, no two of one process, and none who
    /// could go on.
    pub fn is_at_rest(&self)
        ensures { IsAtRest self.now }
    {
        let _ = &self.row;
    }

    /// The nodes of those who wait, in order. Memory: the list of them was refused.
    pub fn callers(&self) -> Result<Vec<Node>, Memory>
        ensures { IfOk result (λ nodes. nodes.items ≡ map (λ w. w.caller) self.now.waiters) }
    {
        callers(self.row.allocator(), &self.waiters)
    }
}
