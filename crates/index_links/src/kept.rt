//! Nodes in their places, with the chains that lead over them.
ghost use Rattle.std.specs.Prelude.{◌≡◌, ◌≢◌, ℕ, ◌+◌, ◌<◌, ◌≤◌, ◌∷◌, ◌++◌, [], Some, None, IsOk, IsSome, IfOk, IfSome, OnOk, length, nat_eq, if◌then◌else◌, option_map, slice_get, vec_capacity};
ghost use Rattle.number_maps.specs.Maps.{get, put};
ghost use Rattle.index_links.specs.Chains.{nowhere, blank, or_blank, stays, joined, added, row_at, row_of as kept_row, first_filled, AreRelinked, IsKept, Shrunk, spare_of, walk};
ghost use Rattle.index_links.specs.Keys.{class_of as class, key_of as key_number};
ghost use Rattle.index_links.specs.Nodes.{IsThere, node_at, without, first_slot, first_slot_of, slot_after, least_upto};

use crate::keys::{class_of, key_of};
use crate::places::{
    BLANK, Link, NOWHERE, Place, add, add_alike, join, join_alike, put_new, take_out,
};
use number_table::Table;
use pico_base::Memory;
use std::alloc::Global;

/// Nodes in places. What holds of them is asked and left by each function.
#[derive(Drop)]
pub(crate) struct Kept<T> {
    pub(crate) places: Vec<Place<T>>,
    // where the chain of each class that is there begins and ends; a class that was there may have a row, too
    pub(crate) rows: Table<Link>,
    // where the chain of all begins and ends
    pub(crate) ends: Link,
    // where the chain of free places begins
    pub(crate) free: u32,
    pub(crate) len: u32,
}

/// What is in a place.
pub(crate) fn place_at<T>(places: &[Place<T>], at: u32) -> &Place<T>
    requires { at < length places.now }
    ensures { slice_get places.now at ≡ Some result.now }
{
    &places[at as usize]
}

/// Where the chain of a class begins and ends.
pub(crate) fn row_of(rows: &Table<Link>, key: u32) -> Link
    ensures { result ≡ row_at rows.now.entries key }
{
    match rows.get(key) {
        Some(row) => *row,
        None => BLANK,
    }
}

/// The number of the first row that leads somewhere.
pub(crate) fn first_filled(rows: &[(u32, Link)]) -> Option<u32>
    ensures { result ≡ first_filled rows.now }
{
    for row in rows {
        if row.1.next != NOWHERE {
            return Some(row.0);
        }
    }
    None
}

/// A row that leads nowhere for each class of some rows, so that it needn't be put in again.
fn blank_rows(alloc: Global, rows: &[(u32, Link)]) -> Result<Table<Link>, Memory>
    ensures { IfOk result (λ fresh. (q : ℕ) → row_at fresh.entries q ≡ blank) }
{
    let mut fresh = Table::new(alloc);
    fresh.reserve_for(rows.len())?;
    for row in rows {
        fresh.insert(row.0, BLANK)?;
    }
    Ok(fresh)
}

/// Takes room for so many more nodes, unless it is there.
fn make_room<T>(places: &mut Vec<Place<T>>, rows: &mut Table<Link>, more: u32) -> Result<(), Memory>
    requires { length places.old.items ≤ nowhere }
    ensures ok { OnOk result (more ≤ spare_of (length places.new.items) (vec_capacity places.new)
        (length rows.new.entries) rows.new.capacity) }
    ensures there { more ≤ spare_of (length places.old.items) (vec_capacity places.old)
        (length rows.old.entries) rows.old.capacity → IsOk result }
    ensures places { places.new.items ≡ places.old.items }
    ensures rows { rows.new.entries ≡ rows.old.entries }
    ensures room { vec_capacity places.old ≤ vec_capacity places.new }
    ensures rows_room { rows.old.capacity ≤ rows.new.capacity }
{
    if NOWHERE as usize - places.len() < more as usize {
        return Err(Memory);
    }
    places.reserve(more as usize)?;
    if rows.capacity().saturating_sub(rows.len()) < more as usize {
        let Some(count) = rows.len().checked_add(more as usize) else {
            return Err(Memory);
        };
        rows.reserve_for(count)?;
    }
    Ok(())
}

/// Adds a place behind the last of its class, for whose row there is room.
fn add_to_class<T>(places: &mut [Place<T>], rows: &mut Table<Link>, key: u32, at: u32)
    requires few { length places.old ≤ nowhere }
    requires last { (row_at rows.old.entries key).back ≢ nowhere
        → (row_at rows.old.entries key).back < length places.old }
    requires at { at < length places.old }
    requires room { length rows.old.entries < rows.old.capacity }
    ensures places { AreRelinked stays (added (row_at rows.old.entries key).back at) places.old places.new }
    ensures rows { rows.new.entries ≡ put rows.old.entries key
        (added (row_at rows.old.entries key).back at nowhere (row_at rows.old.entries key)) }
    ensures len { length rows.new.entries ≤ length rows.old.entries + 1 }
    ensures capacity { rows.new.capacity ≡ rows.old.capacity }
{
    match rows.find(key) {
        Some(place) => add_alike(places, rows.value_mut(key, place), at),
        None => {
            let mut row = BLANK;
            add_alike(places, &mut row, at);
            rows.put(key, row);
        }
    }
}

/// How many rows more than two for each node there may be: so a row mostly stays where its class will come again, and
/// those that lead nowhere are few.
const MORE_ROWS: usize = 64;

/// Writes the row of a class. Where it leads nowhere it is taken out if there are many rows for so many nodes.
#[inline(always)]
fn write_row(rows: &mut Table<Link>, key: u32, row: Link, len: u32)
    requires { IsSome (get rows.old.entries key) }
    ensures rows { (q : ℕ) → row_at rows.new.entries q
        ≡ (if nat_eq q key then or_blank (kept_row row) else row_at rows.old.entries q) }
    ensures len { length rows.new.entries ≤ length rows.old.entries }
    ensures capacity { rows.new.capacity ≡ rows.old.capacity }
{
    if row.next != NOWHERE {
        *rows.entry_mut(key) = row;
    } else if rows.len().saturating_sub(MORE_ROWS) / 2 > len as usize {
        let _ = rows.take(key);
    } else {
        *rows.entry_mut(key) = BLANK;
    }
}

/// Joins those beside a place that was taken out of its class, of so many nodes.
fn take_from_class<T>(
    places: &mut [Place<T>],
    rows: &mut Table<Link>,
    key: u32,
    link: Link,
    len: u32,
)
    requires few { length places.old ≤ nowhere }
    requires back { link.back ≢ nowhere → link.back < length places.old }
    requires next { link.next ≢ nowhere → link.next < length places.old }
    requires there { IsSome (get rows.old.entries key) }
    ensures places { AreRelinked stays (joined link.back link.next) places.old places.new }
    ensures rows { (q : ℕ) → row_at rows.new.entries q
        ≡ (if nat_eq q key then or_blank (kept_row (joined link.back link.next nowhere (row_at rows.old.entries key)))
        else row_at rows.old.entries q) }
    ensures len { length rows.new.entries ≤ length rows.old.entries }
    ensures capacity { rows.new.capacity ≡ rows.old.capacity }
{
    let mut row = row_of(rows, key);
    join_alike(places, &mut row, link.back, link.next);
    write_row(rows, key, row, len);
}

/// Links a node in a place behind all others, and behind the last of its class.
fn link_new<T>(places: &mut [Place<T>], rows: &mut Table<Link>, ends: &mut Link, key: u32, at: u32)
    requires few { length places.old ≤ nowhere }
    requires last { ends.old.back ≢ nowhere → ends.old.back < length places.old }
    requires row { (row_at rows.old.entries key).back ≢ nowhere
        → (row_at rows.old.entries key).back < length places.old }
    requires at { at < length places.old }
    requires room { length rows.old.entries < rows.old.capacity }
    ensures places { AreRelinked (added ends.old.back at) (added (row_at rows.old.entries key).back at)
        places.old places.new }
    ensures ends { ends.new ≡ added ends.old.back at nowhere ends.old }
    ensures rows { rows.new.entries ≡ put rows.old.entries key
        (added (row_at rows.old.entries key).back at nowhere (row_at rows.old.entries key)) }
    ensures len { length rows.new.entries ≤ length rows.old.entries + 1 }
    ensures capacity { rows.new.capacity ≡ rows.old.capacity }
{
    add(places, ends, at);
    add_to_class(places, rows, key, at);
}

/// Takes a node's place out of both of its chains. Of so many nodes it is one.
fn cut_at<T>(
    places: &mut [Place<T>],
    rows: &mut Table<Link>,
    ends: &mut Link,
    len: u32,
    at: u32,
    free: u32,
) -> Place<T>
    requires kept { IsKept places.old rows.old.entries ends.old len }
    requires there { IsThere at (walk len places.old ends.old.next) }
    ensures shrunk { Shrunk places.old places.new rows.new.entries ends.old ends.new len at result }
    ensures some { 0 < len }
    ensures len { length rows.new.entries ≤ length rows.old.entries }
    ensures capacity { rows.new.capacity ≡ rows.old.capacity }
{
    let place = take_out(places, at, free);
    let link = place.arrival;
    join(places, ends, link.back, link.next);
    take_from_class(places, rows, place.key, place.alike, len);
    place
}

impl<T> Kept<T> {
    /// No nodes.
    pub(crate) fn new(alloc: Global) -> Kept<T>
        ensures kept { IsKept result.places.items result.rows.entries result.ends result.len }
        ensures none { walk result.len result.places.items result.ends.next ≡ [] }
        ensures spare { spare_of (length result.places.items) (vec_capacity result.places) (length result.rows.entries)
            result.rows.capacity ≡ 0 }
    {
        Kept {
            places: Vec::new(alloc),
            rows: Table::new(alloc),
            ends: BLANK,
            free: NOWHERE,
            len: 0,
        }
    }

    /// No nodes, with a row for each class of these.
    pub(crate) fn emptied(&self, alloc: Global) -> Result<Kept<T>, Memory>
        ensures kept { IfOk result (λ k. IsKept k.places.items k.rows.entries k.ends k.len) }
        ensures none { IfOk result (λ k. walk k.len k.places.items k.ends.next ≡ []) }
    {
        let rows = blank_rows(alloc, self.rows.as_slice())?;
        Ok(Kept {
            places: Vec::new(alloc),
            rows,
            ends: BLANK,
            free: NOWHERE,
            len: 0,
        })
    }

    /// Takes room for so many more nodes, unless it is there.
    pub(crate) fn reserve(&mut self, more: u32) -> Result<(), Memory>
        requires { IsKept self.old.places.items self.old.rows.entries self.old.ends self.old.len }
        ensures kept { IsKept self.new.places.items self.new.rows.entries self.new.ends self.new.len }
        ensures nodes { walk self.new.len self.new.places.items self.new.ends.next
            ≡ walk self.old.len self.old.places.items self.old.ends.next }
        ensures ok { OnOk result (more ≤ spare_of (length self.new.places.items) (vec_capacity self.new.places)
            (length self.new.rows.entries) self.new.rows.capacity) }
        ensures there { more ≤ spare_of (length self.old.places.items) (vec_capacity self.old.places)
            (length self.old.rows.entries) self.old.rows.capacity → IsOk result }
        ensures room { spare_of (length self.old.places.items) (vec_capacity self.old.places)
            (length self.old.rows.entries) self.old.rows.capacity
            ≤ spare_of (length self.new.places.items) (vec_capacity self.new.places)
            (length self.new.rows.entries) self.new.rows.capacity }
    {
        make_room(&mut self.places, &mut self.rows, more)
    }

    /// Adds a node behind the others, for which there is room.
    pub(crate) fn add(&mut self, key: u32, value: T) -> u32
    where
        T: Drop,
        requires kept { IsKept self.old.places.items self.old.rows.entries self.old.ends self.old.len }
        requires room { 1 ≤ spare_of (length self.old.places.items) (vec_capacity self.old.places)
            (length self.old.rows.entries) self.old.rows.capacity }
        requires fits { key ≡ key_number (class key) }
        ensures kept { IsKept self.new.places.items self.new.rows.entries self.new.ends self.new.len }
        ensures new { node_at result (walk self.old.len self.old.places.items self.old.ends.next) ≡ None }
        ensures nodes { walk self.new.len self.new.places.items self.new.ends.next
            ≡ walk self.old.len self.old.places.items self.old.ends.next
            ++ record { slot = result; class = class key; value = value } ∷ [] }
        ensures room { spare_of (length self.old.places.items) (vec_capacity self.old.places)
            (length self.old.rows.entries) self.old.rows.capacity
            ≤ spare_of (length self.new.places.items) (vec_capacity self.new.places)
            (length self.new.rows.entries) self.new.rows.capacity + 1 }
    {
        let at = put_new(&mut self.places, &mut self.free, key, value);
        link_new(&mut self.places, &mut self.rows, &mut self.ends, key, at);
        self.len += 1;
        at
    }

    /// Takes the value of a node out. The others keep their order and their slots.
    pub(crate) fn cut(&mut self, at: u32) -> T
        requires kept { IsKept self.old.places.items self.old.rows.entries self.old.ends self.old.len }
        requires there { IsThere at (walk self.old.len self.old.places.items self.old.ends.next) }
        ensures kept { IsKept self.new.places.items self.new.rows.entries self.new.ends self.new.len }
        ensures value { option_map (λ n. n.value) (node_at at
            (walk self.old.len self.old.places.items self.old.ends.next)) ≡ Some result }
        ensures nodes { walk self.new.len self.new.places.items self.new.ends.next
            ≡ without at (walk self.old.len self.old.places.items self.old.ends.next) }
        ensures room { spare_of (length self.old.places.items) (vec_capacity self.old.places)
            (length self.old.rows.entries) self.old.rows.capacity
            ≤ spare_of (length self.new.places.items) (vec_capacity self.new.places)
            (length self.new.rows.entries) self.new.rows.capacity }
    {
        let place = cut_at(
            &mut self.places,
            &mut self.rows,
            &mut self.ends,
            self.len,
            at,
            self.free,
        );
        self.free = at;
        self.len -= 1;
        place.value.unwrap()
    }
}
