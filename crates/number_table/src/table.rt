//! Values by rising number: a new one mostly has the greatest number, so it goes at the end.
ghost use Rattle.std.specs.Prelude.{◌≡◌, ◌↔◌, ℕ, ◌≤◌, ◌<◌, ◌+◌, ◌∷◌, [], None, Some, IsTrue, IsSome, IfSome, IfOk, IfErr, OnOk, OnErr, MatchOption, MatchResult, is_some, if◌then◌else◌, length};
ghost use Rattle.std.specs.Borrow.{sem};
ghost use Rattle.std.specs.FinMap.{is_sorted};
ghost use Rattle.std.specs.Option.{option_copied};
ghost use Rattle.std.specs.Ordering.{nat_cmp};
ghost use Rattle.number_maps.specs.Maps.{get, put, without};
ghost use Rattle.number_maps.specs.Rising.{IsRising};
ghost use Rattle.number_table.specs.Placing.{BelongsAt, StandsAt};

use pico_base::Memory;
use std::alloc::Global;
use std::marker::Model;

/// Values by number. It may be dropped with what it holds.
///
/// Contracts see the entries as a finite map from numbers, by rising number, and `capacity`, the number of entries that
/// there can be before memory is asked for.
#[derive(Drop)]
pub struct Table<V> {
    entries: Vec<(u32, V)>,
}

impl<V> Model for Table<V> {
    ghost use Rattle.std.specs.Prelude.{IsTrue, vec_capacity};
    ghost use Rattle.std.specs.FinMap.{is_sorted};
    ghost use Rattle.std.specs.Ordering.{nat_cmp};
    ghost use Rattle.number_maps.specs.Rising.{IsRising};
    ghost use Rattle.number_table.specs.Placing.{Shelf, shelf_code};

    ghost Value = { Shelf V };

    ghost coded = { shelf_code V.code };

    ghost view = { λ t. record { entries = t.entries.items; capacity = vec_capacity t.entries } };

    ghost invariant = { λ t. IsTrue (is_sorted nat_cmp t.entries.items) };
}

/// Where the number stands if each number from the first one up to it has an entry.
#[inline]
fn place_with_no_gap<V>(entries: &[(u32, V)], number: u32) -> Option<usize>
    requires { IsTrue (is_sorted nat_cmp entries.now) }
    ensures { IfSome result (StandsAt entries.now number) }
{
    let place = number.checked_sub(entries.first()?.0)? as usize;
    if entries.get(place)?.0 == number {
        Some(place)
    } else {
        None
    }
}

/// Whether the number is above all that have an entry.
fn is_above<V>(entries: &[(u32, V)], number: u32) -> bool
    requires { IsTrue (is_sorted nat_cmp entries.now) }
    ensures behind { IsTrue result → BelongsAt entries.now number (length entries.now) }
    ensures exact { IsTrue result ↔ ((q : ℕ) → number ≤ q → get entries.now q ≡ None) }
{
    match entries.last() {
        Some(last) => last.0 < number,
        None => true,
    }
}

/// Where the number stands among the entries, or else where it belongs, by a search. A new one is mostly above all
/// others, which takes none.
#[inline(never)]
fn search<V>(entries: &[(u32, V)], number: u32) -> Result<usize, usize>
    requires { IsTrue (is_sorted nat_cmp entries.now) }
    ensures { MatchResult result (StandsAt entries.now number) (BelongsAt entries.now number) }
{
    if is_above(entries, number) {
        return Err(entries.len());
    }
    entries.binary_search_by(|entry| entry.0.cmp(&number))
}

/// Where the number stands among the entries, or else where it belongs. Most have no gap before them, which takes no
/// search.
#[inline]
fn place_of<V>(entries: &[(u32, V)], number: u32) -> Result<usize, usize>
    requires { IsTrue (is_sorted nat_cmp entries.now) }
    ensures { MatchResult result (StandsAt entries.now number) (BelongsAt entries.now number) }
{
    match place_with_no_gap(entries, number) {
        Some(place) => Ok(place),
        None => search(entries, number),
    }
}

impl<V> Table<V> {
    ghost use Rattle.number_table.specs.Lending.{lends_entry};

    /// No entries. It takes no memory.
    pub fn new(alloc: Global) -> Table<V>
        ensures { result.entries ≡ [] }
    {
        Table {
            entries: Vec::new(alloc),
        }
    }

    /// How many entries there are.
    pub fn len(&self) -> usize
        ensures { result ≡ length self.now.entries }
    {
        self.entries.len()
    }

    /// How many entries there can be before memory is asked for.
    pub fn capacity(&self) -> usize
        ensures { result ≡ self.now.capacity }
    {
        self.entries.capacity()
    }

    /// The entries, by rising number.
    pub fn as_slice(&self) -> &[(u32, V)]
        ensures { result.now ≡ self.now.entries }
    {
        self.entries.as_slice()
    }

    /// Takes room for so many entries in all. Memory: an allocation was refused. The entries stay.
    pub fn reserve_for(&mut self, count: usize) -> Result<(), Memory>
        ensures ok { OnOk result (count ≤ self.new.capacity) }
        ensures same { self.new.entries ≡ self.old.entries }
        ensures keeps { self.old.capacity ≤ self.new.capacity }
    {
        let more = count.saturating_sub(self.entries.len());
        self.entries.reserve(more)?;
        Ok(())
    }

    /// The entries are by rising number.
    pub fn rise(&self)
        ensures { IsRising self.now.entries }
    {
        let _ = &self.entries;
    }

    /// Whether each number that has an entry is below this one.
    pub fn are_below(&self, number: u32) -> bool
        ensures { IsTrue result ↔ ((q : ℕ) → number ≤ q → get self.now.entries q ≡ None) }
    {
        is_above(self.entries.as_slice(), number)
    }

    /// Whether the number has an entry.
    pub fn has(&self, number: u32) -> bool
        ensures { result ≡ is_some (get self.now.entries number) }
    {
        place_of(self.entries.as_slice(), number).is_ok()
    }

    /// The value of the number, where it has an entry.
    pub fn get(&self, number: u32) -> Option<&V>
        ensures { option_copied result ≡ get self.now.entries number }
    {
        match place_of(self.entries.as_slice(), number) {
            Ok(place) => Some(&self.entries[place].1),
            Err(_) => None,
        }
    }

    /// Adds an entry, for which there is room.
    pub fn put(&mut self, number: u32, value: V)
        requires absent { get self.old.entries number ≡ None }
        requires room { length self.old.entries < self.old.capacity }
        ensures entries { self.new.entries ≡ put self.old.entries number value }
        ensures len { length self.new.entries ≡ length self.old.entries + 1 }
        ensures capacity { self.new.capacity ≡ self.old.capacity }
    {
        match place_of(self.entries.as_slice(), number) {
            Ok(_) => unreachable!(),
            Err(place) => self.entries.insert(place, (number, value)).unwrap(),
        }
    }

    /// The value at the number's place, to be changed. A change leaves as many entries.
    #[inline]
    pub fn value_mut(&mut self, number: u32, place: usize) -> &mut V
        requires { StandsAt self.old.entries number place }
        ensures* writes_back { sem 𝓛 (lends_entry V.row self.entry number result) }
        ensures value { get self.old.entries number ≡ Some result.now }
        ensures len { (value : V) → length (put self.old.entries number value) ≡ length self.old.entries }
    {
        &mut self.entries[place].1
    }

    /// The value of a number that has one, to be changed. A change leaves as many entries.
    pub fn entry_mut(&mut self, number: u32) -> &mut V
        requires { IsSome (get self.old.entries number) }
        ensures* writes_back { sem 𝓛 (lends_entry V.row self.entry number result) }
        ensures value { get self.old.entries number ≡ Some result.now }
        ensures len { (value : V) → length (put self.old.entries number value) ≡ length self.old.entries }
    {
        match self.place(number) {
            Ok(place) => self.value_mut(number, place),
            Err(_) => unreachable!(),
        }
    }

    /// Where the number's entry stands, where it has one.
    #[inline]
    pub fn find(&self, number: u32) -> Option<usize>
        ensures { MatchOption result (get self.now.entries number ≡ None) (StandsAt self.now.entries number) }
    {
        match self.place(number) {
            Ok(place) => Some(place),
            Err(_) => None,
        }
    }

    #[inline]
    fn place(&self, number: u32) -> Result<usize, usize>
        ensures { MatchResult result (StandsAt self.now.entries number) (BelongsAt self.now.entries number) }
    {
        place_of(self.entries.as_slice(), number)
    }

    /// Adds an entry, for which there is room, or takes the place of one.
    pub fn set(&mut self, number: u32, value: V)
    where
        V: Drop,
        requires room { length self.old.entries < self.old.capacity }
        ensures entries { self.new.entries ≡ put self.old.entries number value }
        ensures len { length self.new.entries ≤ length self.old.entries + 1 }
        ensures capacity { self.new.capacity ≡ self.old.capacity }
    {
        match self.place(number) {
            Ok(place) => *self.value_mut(number, place) = value,
            Err(_) => self.put(number, value),
        }
    }

    /// Puts a value at the number, in place of one that is there. A refusal for want of memory changes nothing.
    pub fn insert(&mut self, number: u32, value: V) -> Result<(), Memory>
    where
        V: Drop,
        ensures ok { OnOk result (self.new.entries ≡ put self.old.entries number value) }
        ensures err { OnErr result (self.new.entries ≡ self.old.entries) }
    {
        self.make_room()?;
        self.set(number, value);
        Ok(())
    }

    /// Takes room for one more entry, unless it is there.
    fn make_room(&mut self) -> Result<(), Memory>
        ensures room { OnOk result (length self.new.entries < self.new.capacity) }
        ensures same { self.new.entries ≡ self.old.entries }
    {
        self.entries.reserve(1)?;
        Ok(())
    }

    /// Takes the number's entry out, where there is one. Its room stays.
    pub fn take(&mut self, number: u32) -> Option<V>
        ensures value { result ≡ get self.old.entries number }
        ensures entries { self.new.entries ≡ without self.old.entries number }
        ensures len { length self.new.entries + (if is_some result then 1 else 0) ≡ length self.old.entries }
        ensures capacity { self.new.capacity ≡ self.old.capacity }
    {
        match place_of(self.entries.as_slice(), number) {
            Ok(place) => Some(self.entries.remove(place).1),
            Err(_) => None,
        }
    }

    /// Drops all entries, and keeps the room.
    pub fn clear(&mut self)
    where
        V: Drop,
        ensures entries { self.new.entries ≡ [] }
        ensures capacity { self.new.capacity ≡ self.old.capacity }
    {
        self.entries.clear();
    }
}
