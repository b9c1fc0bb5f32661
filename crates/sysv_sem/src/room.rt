//! Where a change of a set writes whom it wakes, without asking for memory.
ghost use Rattle.std.specs.Prelude.{◌≡◌, ◌≤◌, [], IfOk, OnOk, vec_capacity};

use pico_base::{Memory, Pid};
use std::alloc::Global;
use waiting_model::Wake;

/// Room for whom a change wakes, and for the processes of those who take away. It stays with the set, so that a change
/// that wakes nobody takes no memory.
#[derive(Drop)]
pub(crate) struct Room {
    pub(crate) wakes: Vec<Wake>,
    pub(crate) takers: Vec<Pid>,
}

impl Room {
    /// No room. It takes no memory.
    fn new(alloc: Global) -> Room {
        Room {
            wakes: Vec::new(alloc),
            takers: Vec::new(alloc),
        }
    }

    /// Both lists are empty, with room for so many.
    fn make(&mut self, count: usize) -> Result<(), Memory>
        ensures wakes { OnOk result (self.new.wakes.items ≡ []) }
        ensures takers { OnOk result (self.new.takers.items ≡ []) }
        ensures wakes_room { OnOk result (count ≤ vec_capacity self.new.wakes) }
        ensures takers_room { OnOk result (count ≤ vec_capacity self.new.takers) }
    {
        self.wakes.clear();
        self.takers.clear();
        self.wakes.reserve(count)?;
        self.takers.reserve(count)?;
        Ok(())
    }

    /// Room for so many, with nobody in it: the one that was kept, or one that is made. Memory: an allocation was
    /// refused.
    pub(crate) fn of(
        alloc: Global,
        kept: Option<Box<Room>>,
        count: usize,
    ) -> Result<Box<Room>, Memory>
        ensures wakes { IfOk result (λ room. room.value.wakes.items ≡ []) }
        ensures takers { IfOk result (λ room. room.value.takers.items ≡ []) }
        ensures wakes_room { IfOk result (λ room. count ≤ vec_capacity room.value.wakes) }
        ensures takers_room { IfOk result (λ room. count ≤ vec_capacity room.value.takers) }
    {
        let mut room = match kept {
            Some(room) => room,
            None => Box::new(alloc, Room::new(alloc))?,
        };
        room.make(count)?;
        Ok(room)
    }
}
