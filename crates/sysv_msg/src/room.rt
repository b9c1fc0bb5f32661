//! Where a change of a queue writes whom it wakes, without asking for memory.
ghost use Rattle.std.specs.Prelude.{◌≡◌, ◌≤◌, [], IfOk, OnOk, length, vec_capacity};

use pico_base::Memory;
use std::alloc::Global;
use std::mem;
use waiting_model::{Wake, Wakes};

/// Room for whom a change wakes. It stays with the queue, so that a change that wakes nobody takes no memory.
#[derive(Drop)]
pub(crate) struct Room {
    /// For all who wait.
    pub(crate) all: Vec<Wake>,
    /// For one who is woken alone, so that the room for all stays then.
    one: Vec<Wake>,
}

impl Room {
    /// No room. It takes no memory.
    fn new(alloc: Global) -> Room {
        Room {
            all: Vec::new(alloc),
            one: Vec::new(alloc),
        }
    }

    /// Both lists are empty, the first with room for so many, the second for one.
    fn make(&mut self, count: usize) -> Result<(), Memory>
        ensures all { OnOk result (self.new.all.items ≡ []) }
        ensures one { OnOk result (self.new.one.items ≡ []) }
        ensures all_room { OnOk result (count ≤ vec_capacity self.new.all) }
        ensures one_room { OnOk result (1 ≤ vec_capacity self.new.one) }
    {
        self.all.clear();
        self.one.clear();
        self.all.reserve(count)?;
        self.one.reserve(1)?;
        Ok(())
    }

    /// Room for so many and for one alone, with nobody in it: the one that was kept, or one that is made. Memory: an
    /// allocation was refused.
    pub(crate) fn of(
        alloc: Global,
        kept: Option<Box<Room>>,
        count: usize,
    ) -> Result<Box<Room>, Memory>
        ensures all { IfOk result (λ room. room.value.all.items ≡ []) }
        ensures one { IfOk result (λ room. room.value.one.items ≡ []) }
        ensures all_room { IfOk result (λ room. count ≤ vec_capacity room.value.all) }
        ensures one_room { IfOk result (λ room. 1 ≤ vec_capacity room.value.one) }
    {
        let mut room = match kept {
            Some(room) => room,
            None => Box::new(alloc, Room::new(alloc))?,
        };
        room.make(count)?;
        Ok(room)
    }

    /// Those in the room for all, who are woken. One alone leaves that room where it is.
    pub(crate) fn take(&mut self, alloc: Global) -> Wakes
        requires nobody { self.old.one.items ≡ [] }
        requires room { 1 ≤ vec_capacity self.old.one }
        ensures { result ≡ self.old.all.items }
    {
        match self.all.len() {
            0 => Wakes::new(alloc),
            1 => self.take_one(alloc),
            _ => Wakes::from_vec(mem::replace(&mut self.all, Vec::new(alloc))),
        }
    }

    /// The only one in the room for all.
    fn take_one(&mut self, alloc: Global) -> Wakes
        requires nobody { self.old.one.items ≡ [] }
        requires room { 1 ≤ vec_capacity self.old.one }
        requires only { length self.old.all.items ≡ 1 }
        ensures { result ≡ self.old.all.items }
    {
        let mut one = mem::replace(&mut self.one, Vec::new(alloc));
        if let Some(wake) = self.all.pop() {
            one.push_reserved(wake);
        }
        Wakes::from_vec(one)
    }
}
