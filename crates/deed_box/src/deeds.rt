//! The deeds that a node holds, by name.
ghost use Rattle.std.specs.Prelude.{◌≡◌, ◌≤◌, ◌<◌, ◌+◌, ◌-◌, None, Some, Ok, IsTrue, IsOk, IfSome, IfOk, IfErr, OnOk, OnErr, MatchOption, is_some, if◌then◌else◌, length, min};
ghost use Rattle.std.specs.Borrow.{sem};
ghost use Rattle.std.specs.List.{IsDistinct};
ghost use Rattle.std.specs.Option.{option_copied, option_copied_mut, option_map};
ghost use Rattle.node_model.specs.Kinds.{get_named, none_named, put_named, without_named};
ghost use Rattle.deed_box.specs.Deeds.{AreRising};
ghost use Rattle.deed_box.specs.Standing.{StandsNamed};

use crate::{Deed, Shared};
use number_table::Table;
use pico_base::{Memory, Name};
use std::alloc::Global;
use std::marker::Model;

/// The deeds that a node holds, by name. It may be dropped with what it holds, when its node ends.
///
/// Contracts see the bodies as a finite map from names, and `spare`, the number of deeds that can be put without asking
/// for memory.
#[derive(Drop)]
pub struct Deeds<B> {
    alloc: Global,
    processes: Table<B>,
    queues: Table<B>,
    sets: Table<B>,
}

impl<B> Model for Deeds<B> {
    ghost use Rattle.std.specs.Prelude.{◌≤◌};
    ghost use Rattle.deed_box.specs.Deeds.{Holdings, holdings_code};

    ghost Value = { Holdings B };

    ghost coded = { holdings_code B.code };

    ghost use Rattle.deed_box.specs.Room.{bodies_of, capacity_of, count_of, spare_of};

    ghost view = { λ d. record { bodies = bodies_of d; spare = spare_of d } };

    ghost invariant = { λ d. count_of d ≤ capacity_of d };
}

impl<B> Deeds<B> {
    ghost use Rattle.deed_box.specs.Lending.{lends_body, lends_body_if};

    /// No deeds.
    pub fn new(alloc: Global) -> Result<Deeds<B>, Memory>
        ensures { IfOk result (λ deeds. deeds.bodies ≡ none_named) }
    {
        Ok(Deeds {
            alloc,
            processes: Table::new(alloc),
            queues: Table::new(alloc),
            sets: Table::new(alloc),
        })
    }

    /// How many deeds there are, where that is a `usize`.
    fn count(&self) -> Option<usize>
        ensures { IfSome result (λ n.
            n ≡ length self.now.bodies.processes + length self.now.bodies.queues + length self.now.bodies.sets) }
    {
        self.processes
            .len()
            .checked_add(self.queues.len())?
            .checked_add(self.sets.len())
    }

    /// Takes room for so many more deeds, unless it is there. Memory: an allocation was refused. The deeds stay.
    pub fn reserve(&mut self, more: u32) -> Result<(), Memory>
        ensures room { OnOk result (more ≤ self.new.spare) }
        ensures keeps { self.old.spare ≤ self.new.spare }
        ensures same { self.new.bodies ≡ self.old.bodies }
    {
        if more as usize <= self.spare() {
            return Ok(());
        }
        self.reserve_many(more as usize)
    }

    /// For how many more deeds there is room.
    fn spare(&self) -> usize
        ensures { result ≡ self.now.spare }
    {
        let capacity = self
            .processes
            .capacity()
            .min(self.queues.capacity().min(self.sets.capacity()));
        capacity
            .saturating_sub(self.processes.len())
            .saturating_sub(self.queues.len())
            .saturating_sub(self.sets.len())
    }

    /// Puts a deed of a name that isn't there. A refusal for want of memory changes nothing and hands it back; with
    /// room to spare there is none.
    pub fn put(&mut self, deed: Deed<B>) -> Result<(), (Memory, Deed<B>)>
        requires { get_named self.old.bodies deed.0 ≡ None }
        ensures ok { OnOk result (self.new.bodies ≡ put_named self.old.bodies deed.0 deed.1) }
        ensures err { OnErr result (self.new.bodies ≡ self.old.bodies) }
        ensures back { IfErr result (λ back. back.1 ≡ deed) }
        ensures room { 0 < self.old.spare → IsOk result }
        ensures spare { self.old.spare ≤ self.new.spare + 1 }
    {
        if self.spare() == 0 && self.reserve(1).is_err() {
            return Err((Memory, deed));
        }
        self.put_reserved(deed);
        Ok(())
    }

    /// Puts a deed for which there is room.
    fn put_reserved(&mut self, deed: Deed<B>)
        requires absent { get_named self.old.bodies deed.0 ≡ None }
        requires room { 0 < self.old.spare }
        ensures bodies { self.new.bodies ≡ put_named self.old.bodies deed.0 deed.1 }
        ensures spare { self.new.spare + 1 ≡ self.old.spare }
    {
        let Deed { name, body } = deed;
        match name {
            Name::Proc(pid) => self.processes.put(pid.0, body),
            Name::Msg(id) => self.queues.put(id.0, body),
            Name::Sem(id) => self.sets.put(id.0, body),
        }
    }

    /// Takes the name's deed out, where it is there. Its room stays.
    pub fn take(&mut self, name: Name) -> Option<Deed<B>>
        ensures deed { result ≡ option_map (λ body. (name, body)) (get_named self.old.bodies name) }
        ensures bodies { self.new.bodies ≡ without_named self.old.bodies name }
        ensures spare { self.new.spare ≡ self.old.spare + (if is_some result then 1 else 0) }
    {
        let body = match name {
            Name::Proc(pid) => self.processes.take(pid.0),
            Name::Msg(id) => self.queues.take(id.0),
            Name::Sem(id) => self.sets.take(id.0),
        }?;
        Some(Deed { name, body })
    }

    /// Within each kind the numbers of the deeds rise.
    #[inline(always)]
    pub fn rise(&self)
        ensures { AreRising self.now.bodies }
    {
        self.processes.rise();
        self.queues.rise();
        self.sets.rise();
    }

    /// Whether the name's deed is there.
    #[inline(always)]
    pub fn has(&self, name: Name) -> bool
        ensures { result ≡ is_some (get_named self.now.bodies name) }
    {
        self.holds(&name)
    }

    /// The body of the name, where its deed is there.
    #[inline(always)]
    pub fn get(&self, name: Name) -> Option<&B>
        ensures { option_copied result ≡ get_named self.now.bodies name }
    {
        match name {
            Name::Proc(pid) => self.processes.get(pid.0),
            Name::Msg(id) => self.queues.get(id.0),
            Name::Sem(id) => self.sets.get(id.0),
        }
    }

    /// The body of the name, to be changed, where its deed is there.
    #[inline(always)]
    pub fn get_mut(&mut self, name: Name) -> Option<&mut B>
        ensures* writes_back { sem 𝓛 (lends_body_if B.row self.entry name result) }
        ensures value { option_copied_mut result ≡ get_named self.old.bodies name }
    {
        match self.place(&name) {
            Some(place) => Some(self.body_at(&name, place)),
            None => None,
        }
    }

    /// Where the name's deed stands among those of its kind, where it is there.
    #[inline(always)]
    fn place(&self, name: &Name) -> Option<usize>
        ensures { MatchOption result
            (get_named self.now.bodies name.now ≡ None) (StandsNamed self.now.bodies name.now) }
    {
        match name {
            Name::Proc(pid) => self.processes.find(pid.0),
            Name::Msg(id) => self.queues.find(id.0),
            Name::Sem(id) => self.sets.find(id.0),
        }
    }

    #[inline(always)]
    fn holds(&self, name: &Name) -> bool
        ensures { result ≡ is_some (get_named self.now.bodies name.now) }
    {
        match name {
            Name::Proc(pid) => self.processes.has(pid.0),
            Name::Msg(id) => self.queues.has(id.0),
            Name::Sem(id) => self.sets.has(id.0),
        }
    }

    /// The body of the name whose deed stands at this place, to be changed.
    #[inline]
    fn body_at(&mut self, name: &Name, place: usize) -> &mut B
        requires { StandsNamed self.old.bodies name.now place }
        ensures* writes_back { sem 𝓛 (lends_body B.row self.entry name.now result) }
        ensures value { get_named self.old.bodies name.now ≡ Some result.now }
    {
        match name {
            Name::Proc(pid) => self.processes.value_mut(pid.0, place),
            Name::Msg(id) => self.queues.value_mut(id.0, place),
            Name::Sem(id) => self.sets.value_mut(id.0, place),
        }
    }

    /// Takes room for so many more deeds.
    pub(crate) fn reserve_many(&mut self, more: usize) -> Result<(), Memory>
        ensures room { OnOk result (more ≤ self.new.spare) }
        ensures keeps { self.old.spare ≤ self.new.spare }
        ensures same { self.new.bodies ≡ self.old.bodies }
    {
        let count = self
            .count()
            .and_then(|count| count.checked_add(more))
            .ok_or(Memory)?;
        self.processes.reserve_for(count)?;
        self.queues.reserve_for(count)?;
        self.sets.reserve_for(count)
    }

    /// Puts a deed for which there is room, in place of one that is there.
    pub(crate) fn set(&mut self, name: Name, body: B)
    where
        B: Drop,
        requires { 0 < self.old.spare }
        ensures bodies { self.new.bodies ≡ put_named self.old.bodies name body }
        ensures spare { self.old.spare ≤ self.new.spare + 1 }
    {
        match name {
            Name::Proc(pid) => self.processes.set(pid.0, body),
            Name::Msg(id) => self.queues.set(id.0, body),
            Name::Sem(id) => self.sets.set(id.0, body),
        }
    }

    /// Drops all deeds, and keeps the room.
    pub(crate) fn clear(&mut self)
    where
        B: Drop,
        ensures { self.new.bodies ≡ none_named }
    {
        self.processes.clear();
        self.queues.clear();
        self.sets.clear();
    }

    pub(crate) fn allocator(&self) -> Global {
        self.alloc
    }

    /// The bodies of the processes that are there, by rising number.
    pub fn processes(&self) -> &[(u32, B)]
        ensures { result.now ≡ self.now.bodies.processes }
    {
        self.processes.as_slice()
    }

    /// The bodies of the queues that are there, by rising number.
    pub fn queues(&self) -> &[(u32, B)]
        ensures { result.now ≡ self.now.bodies.queues }
    {
        self.queues.as_slice()
    }

    /// The bodies of the semaphore sets that are there, by rising number.
    pub fn sets(&self) -> &[(u32, B)]
        ensures { result.now ≡ self.now.bodies.sets }
    {
        self.sets.as_slice()
    }
}
