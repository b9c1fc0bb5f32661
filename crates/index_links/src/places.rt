//! Places, as they are written and joined.
ghost use Rattle.std.specs.Prelude.{◌≡◌, ◌≢◌, ℕ, ◌<◌, ◌≤◌, ◌+◌, Some, None, IfSome, length, slice_get, slice_set, slice_index_or, nat_eq, if◌then◌else◌, vec_capacity};
ghost use Rattle.index_links.specs.Chains.{nowhere, blank, stays, on, back_to, joined, added, AreRelinked, IsFree, IsPlaced, fresh};

use std::mem;

/// The number of no place.
pub(crate) const NOWHERE: u32 = u32::MAX;

/// Where a chain leads from a place, on and back.
#[derive(Clone, Copy, Debug)]
pub(crate) struct Link {
    pub(crate) next: u32,
    pub(crate) back: u32,
}

/// What leads nowhere.
pub(crate) const BLANK: Link = Link {
    next: NOWHERE,
    back: NOWHERE,
};

/// A place: its node's links among all nodes and among those of its class, the class and the value. A free place has no
/// value, and leads to another free one.
#[derive(Debug, Drop)]
pub(crate) struct Place<T> {
    pub(crate) arrival: Link,
    pub(crate) alike: Link,
    pub(crate) key: u32,
    pub(crate) value: Option<T>,
}

// ---- joining places; a chain's own links stand for the number of no place

fn lead_on<T>(places: &mut [Place<T>], ends: &mut Link, at: u32, next: u32)
    requires few { length places.old ≤ nowhere }
    requires at { at ≢ nowhere → at < length places.old }
    ensures places { AreRelinked (on at next) stays places.old places.new }
    ensures ends { ends.new ≡ on at next nowhere ends.old }
{
    if at == NOWHERE {
        ends.next = next;
    } else {
        places[at as usize].arrival.next = next;
    }
}

fn lead_back<T>(places: &mut [Place<T>], ends: &mut Link, at: u32, back: u32)
    requires few { length places.old ≤ nowhere }
    requires at { at ≢ nowhere → at < length places.old }
    ensures places { AreRelinked (back_to at back) stays places.old places.new }
    ensures ends { ends.new ≡ back_to at back nowhere ends.old }
{
    if at == NOWHERE {
        ends.back = back;
    } else {
        places[at as usize].arrival.back = back;
    }
}

fn lead_on_alike<T>(places: &mut [Place<T>], row: &mut Link, at: u32, next: u32)
    requires few { length places.old ≤ nowhere }
    requires at { at ≢ nowhere → at < length places.old }
    ensures places { AreRelinked stays (on at next) places.old places.new }
    ensures row { row.new ≡ on at next nowhere row.old }
{
    if at == NOWHERE {
        row.next = next;
    } else {
        places[at as usize].alike.next = next;
    }
}

fn lead_back_alike<T>(places: &mut [Place<T>], row: &mut Link, at: u32, back: u32)
    requires few { length places.old ≤ nowhere }
    requires at { at ≢ nowhere → at < length places.old }
    ensures places { AreRelinked stays (back_to at back) places.old places.new }
    ensures row { row.new ≡ back_to at back nowhere row.old }
{
    if at == NOWHERE {
        row.back = back;
    } else {
        places[at as usize].alike.back = back;
    }
}

/// Joins a place with another behind it in the chain of all.
pub(crate) fn join<T>(places: &mut [Place<T>], ends: &mut Link, before: u32, after: u32)
    requires few { length places.old ≤ nowhere }
    requires before { before ≢ nowhere → before < length places.old }
    requires after { after ≢ nowhere → after < length places.old }
    ensures places { AreRelinked (joined before after) stays places.old places.new }
    ensures ends { ends.new ≡ joined before after nowhere ends.old }
{
    lead_on(places, ends, before, after);
    lead_back(places, ends, after, before);
}

/// Joins a place with another behind it in the chain of a class.
pub(crate) fn join_alike<T>(places: &mut [Place<T>], row: &mut Link, before: u32, after: u32)
    requires few { length places.old ≤ nowhere }
    requires before { before ≢ nowhere → before < length places.old }
    requires after { after ≢ nowhere → after < length places.old }
    ensures places { AreRelinked stays (joined before after) places.old places.new }
    ensures row { row.new ≡ joined before after nowhere row.old }
{
    lead_on_alike(places, row, before, after);
    lead_back_alike(places, row, after, before);
}

/// Adds a place behind the last in the chain of all.
pub(crate) fn add<T>(places: &mut [Place<T>], ends: &mut Link, at: u32)
    requires few { length places.old ≤ nowhere }
    requires last { ends.old.back ≢ nowhere → ends.old.back < length places.old }
    requires at { at < length places.old }
    ensures places { AreRelinked (added ends.old.back at) stays places.old places.new }
    ensures ends { ends.new ≡ added ends.old.back at nowhere ends.old }
{
    let last = ends.back;
    join(places, ends, last, at);
    join(places, ends, at, NOWHERE);
}

/// Adds a place behind the last in the chain of a class.
pub(crate) fn add_alike<T>(places: &mut [Place<T>], row: &mut Link, at: u32)
    requires few { length places.old ≤ nowhere }
    requires last { row.old.back ≢ nowhere → row.old.back < length places.old }
    requires at { at < length places.old }
    ensures places { AreRelinked stays (added row.old.back at) places.old places.new }
    ensures row { row.new ≡ added row.old.back at nowhere row.old }
{
    let last = row.back;
    join_alike(places, row, last, at);
    join_alike(places, row, at, NOWHERE);
}

// ---- writing places

/// Where the next free place is, if this one is free.
fn next_free<T>(places: &[Place<T>], at: u32) -> Option<u32>
    ensures { IfSome result (λ _. (at < length places.now) × IsFree places.now at) }
{
    let place = places.get(at as usize)?;
    if place.value.is_some() {
        return None;
    }
    Some(place.arrival.next)
}

/// Puts a value into a free place, or else into one more, for which there is room.
pub(crate) fn put_new<T: Drop>(
    places: &mut Vec<Place<T>>,
    free: &mut u32,
    key: u32,
    value: T,
) -> u32
    requires few { length places.old.items < nowhere }
    requires room { length places.old.items < vec_capacity places.old }
    ensures free { IsFree places.old.items result }
    ensures placed { IsPlaced result (fresh key value) places.old.items places.new.items }
    ensures there { result < length places.new.items }
    ensures more { length places.new.items ≤ length places.old.items + 1 }
    ensures capacity { vec_capacity places.new ≡ vec_capacity places.old }
{
    let place = Place {
        arrival: BLANK,
        alike: BLANK,
        key,
        value: Some(value),
    };
    match next_free(places, *free) {
        Some(next) => {
            let at = *free;
            *free = next;
            places[at as usize] = place;
            at
        }
        None => {
            let at = places.len() as u32;
            places.push_reserved(place);
            at
        }
    }
}

/// Takes what is in a place, which is free then and leads to this free one.
pub(crate) fn take_out<T>(places: &mut [Place<T>], at: u32, free: u32) -> Place<T>
    requires { at < length places.old }
    ensures taken { slice_get places.old at ≡ Some result }
    ensures others { (i : ℕ) → i ≢ at → slice_get places.new i ≡ slice_get places.old i }
{
    let empty = Place {
        arrival: Link {
            next: free,
            back: NOWHERE,
        },
        alike: BLANK,
        key: 0,
        value: None,
    };
    mem::replace(&mut places[at as usize], empty)
}
