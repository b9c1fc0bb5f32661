//! Values of a class each, in the order in which they came.
ghost use Rattle.std.specs.Prelude.{◌≡◌, ℕ, ◌+◌, ◌<◌, ◌≤◌, ◌∷◌, ◌++◌, [], Some, None, IsOk, IfSome, IfOk, IfErr, OnOk, OnErr, length, option_map};
ghost use Rattle.index_links.specs.Chains.{slot_or_none, HaveOwnSlots};
ghost use Rattle.index_links.specs.Nodes.{IsThere, node_at, without, first_slot, first_slot_of, slot_after, least_upto};

use crate::kept::{Kept, first_filled, place_at, row_of};
use crate::keys::{class_of, key_of};
use crate::places::NOWHERE;
use pico_base::Memory;
use std::alloc::Global;
use std::marker::Model;

/// What names a value as long as it is there.
#[derive(Clone, Copy, Debug, PartialEq, Eq)]
pub struct Slot(u32);

impl Model for Slot {
    ghost Value = { ℕ };

    ghost view = { λ s. s.0 };

    ghost inverse = { λ n. record { 0 = n } };
}

/// Values of a class each, in the order in which they came. Each is named by its slot as long as it is there.
///
/// Contracts see the nodes, the oldest first, each with its slot, its class and its value; and `spare`, how many more
/// there can be before memory is asked for.
#[derive(Drop)]
pub struct Links<T> {
    kept: Kept<T>,
}

impl<T> Model for Links<T> {
    ghost use Rattle.std.specs.Prelude.{length, vec_capacity};
    ghost use Rattle.index_links.specs.Chains.{walk, IsKept, spare_of};
    ghost use Rattle.index_links.specs.Nodes.{Listed, listed_code};

    ghost Value = { Listed T };

    ghost coded = { listed_code T.code };

    ghost view = { λ l. record {
      nodes = walk l.kept.len l.kept.places.items l.kept.ends.next;
      spare = spare_of (length l.kept.places.items) (vec_capacity l.kept.places) (length l.kept.rows.entries)
          l.kept.rows.capacity;
    } };

    ghost invariant = { λ l. IsKept l.kept.places.items l.kept.rows.entries l.kept.ends l.kept.len };
}

/// The slot at a place, unless it is the number of none.
fn slot_at(place: u32) -> Option<Slot>
    ensures { result ≡ slot_or_none place }
{
    if place == NOWHERE {
        None
    } else {
        Some(Slot(place))
    }
}

impl<T> Links<T> {
    /// No values. It takes no memory.
    pub fn new(alloc: Global) -> Links<T>
        ensures nodes { result.nodes ≡ [] }
        ensures spare { result.spare ≡ 0 }
    {
        Links {
            kept: Kept::new(alloc),
        }
    }

    /// No values, with room for so many: quick to be filled with values of the same classes as these.
    pub fn emptied(&self, alloc: Global, room: u32) -> Result<Links<T>, Memory>
    where
        T: Drop,
        ensures nodes { IfOk result (λ links. links.nodes ≡ []) }
        ensures spare { IfOk result (λ links. room ≤ links.spare) }
    {
        let mut links = Links {
            kept: self.kept.emptied(alloc)?,
        };
        links.reserve(room)?;
        Ok(links)
    }

    /// Takes room for so many more values, unless it is there. Memory: an allocation was refused, or there would be
    /// more than 4,294,967,295 places. The values stay.
    pub fn reserve(&mut self, more: u32) -> Result<(), Memory>
        ensures ok { OnOk result (more ≤ self.new.spare) }
        ensures there { more ≤ self.old.spare → IsOk result }
        ensures nodes { self.new.nodes ≡ self.old.nodes }
        ensures spare { self.old.spare ≤ self.new.spare }
    {
        self.kept.reserve(more)
    }

    /// Adds a value behind the others, in a slot that none of them has. Memory: an allocation was refused, which comes
    /// only where none is spare; the value comes back, and the others stay.
    pub fn push_back(&mut self, class: i32, value: T) -> Result<Slot, (Memory, T)>
    where
        T: Drop,
        ensures pushed { IfOk result (λ slot. (node_at slot self.old.nodes ≡ None)
            × (self.new.nodes ≡ self.old.nodes ++ record { slot = slot; class = class; value = value } ∷ [])) }
        ensures given_back { IfErr result (λ e. e.1 ≡ value) }
        ensures err { OnErr result (self.new.nodes ≡ self.old.nodes) }
        ensures there { 0 < self.old.spare → IsOk result }
        ensures spare { self.old.spare ≤ self.new.spare + 1 }
    {
        match self.kept.reserve(1) {
            Ok(()) => Ok(Slot(self.kept.add(key_of(class), value))),
            Err(memory) => Err((memory, value)),
        }
    }

    /// Adds a value behind the others, for which there is room, in a slot that none of them has. It takes no memory.
    pub fn push_reserved(&mut self, class: i32, value: T) -> Slot
    where
        T: Drop,
        requires { 0 < self.old.spare }
        ensures new { node_at result self.old.nodes ≡ None }
        ensures nodes { self.new.nodes
            ≡ self.old.nodes ++ record { slot = result; class = class; value = value } ∷ [] }
        ensures spare { self.old.spare ≤ self.new.spare + 1 }
    {
        Slot(self.kept.add(key_of(class), value))
    }

    /// Takes the value in a slot out. The others keep their order and their slots. It takes no memory.
    pub fn unlink(&mut self, slot: Slot) -> T
        requires { IsThere slot self.old.nodes }
        ensures value { option_map (λ n. n.value) (node_at slot self.old.nodes) ≡ Some result }
        ensures nodes { self.new.nodes ≡ without slot self.old.nodes }
        ensures spare { self.old.spare ≤ self.new.spare }
    {
        self.kept.cut(slot.0)
    }

    /// The slot of the oldest value. It takes no memory.
    pub fn first(&self) -> Option<Slot>
        ensures slot { result ≡ first_slot self.now.nodes }
        ensures there { IfSome result (λ slot. IsThere slot self.now.nodes) }
    {
        slot_at(self.kept.ends.next)
    }

    /// The slot of the oldest value of a class. It takes no memory.
    pub fn first_of(&self, class: i32) -> Option<Slot>
        ensures slot { result ≡ first_slot_of class self.now.nodes }
        ensures there { IfSome result (λ slot. IsThere slot self.now.nodes) }
    {
        slot_at(row_of(&self.kept.rows, key_of(class)).next)
    }

    /// The slot of the next value after one. It takes no memory.
    pub fn next(&self, slot: Slot) -> Option<Slot>
        requires { IsThere slot self.now.nodes }
        ensures slot { result ≡ slot_after slot self.now.nodes }
        ensures there { IfSome result (λ slot. IsThere slot self.now.nodes) }
    {
        slot_at(place_at(&self.kept.places, slot.0).arrival.next)
    }

    /// The lowest class of a value that isn't above a bound. It takes no memory, and doesn't walk over the values.
    pub fn least_class_upto(&self, class: i32) -> Option<i32>
        ensures { result ≡ least_upto class self.now.nodes }
    {
        self.kept.rows.rise();
        let least = class_of(first_filled(self.kept.rows.as_slice())?);
        if least <= class { Some(least) } else { None }
    }

    /// The value in a slot.
    pub fn value(&self, slot: Slot) -> &T
        requires { IsThere slot self.now.nodes }
        ensures { option_map (λ n. n.value) (node_at slot self.now.nodes) ≡ Some result.now }
    {
        match &place_at(&self.kept.places, slot.0).value {
            Some(value) => value,
            None => unreachable!(),
        }
    }

    /// The class of the value in a slot.
    pub fn class(&self, slot: Slot) -> i32
        requires { IsThere slot self.now.nodes }
        ensures { option_map (λ n. n.class) (node_at slot self.now.nodes) ≡ Some result }
    {
        class_of(place_at(&self.kept.places, slot.0).key)
    }

    /// No two values have one slot.
    pub fn have_own_slots(&self)
        ensures { HaveOwnSlots self.now.nodes }
    {
        let _ = &self.kept;
    }

    /// How many values there are.
    pub fn len(&self) -> u32
        ensures { result ≡ length self.now.nodes }
    {
        self.kept.len
    }
}
