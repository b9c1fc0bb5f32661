//! Values taken from the front, from the middle and by class, and places that are used again.
use index_links::{Links, Slot};
use pico_base::Memory;
use std::alloc::Global;
use std::process::Abort;
use std::test::*;

// One more value, where there is memory.
fn put(links: &mut Links<u8>, class: i32, value: u8) -> Result<Slot, Memory> {
    match links.push_back(class, value) {
        Ok(slot) => Ok(slot),
        Err((memory, _)) => Err(memory),
    }
}

// A list of these classes and values.
fn filled(alloc: Global, rows: &[(i32, u8)]) -> Result<Links<u8>, Memory> {
    let mut links = Links::new(alloc);
    for (class, value) in rows {
        put(&mut links, *class, *value)?;
    }
    Ok(links)
}

// The oldest value is taken out; 0 stands for none.
fn first(links: &mut Links<u8>) -> u8 {
    match links.first() {
        Some(slot) => links.unlink(slot),
        None => 0,
    }
}

fn first_of(links: &mut Links<u8>, class: i32) -> u8 {
    match links.first_of(class) {
        Some(slot) => links.unlink(slot),
        None => 0,
    }
}

fn first_of_least(links: &mut Links<u8>, bound: i32) -> u8 {
    match links.least_class_upto(bound) {
        Some(class) => first_of(links, class),
        None => 0,
    }
}

// The value behind the oldest one.
fn second(links: &Links<u8>) -> u8 {
    let Some(slot) = links.first() else {
        return 0;
    };
    match links.next(slot) {
        Some(next) => *links.value(next),
        None => 0,
    }
}

// What is asked for: the oldest value, the oldest of a class, and that of the lowest class up to a bound, which are
// taken out; or the value behind the oldest one.
#[derive(Clone, Copy, Debug)]
enum Ask {
    First,
    Of(i32),
    Least(i32),
    Second,
}

fn answer(links: &mut Links<u8>, ask: Ask) -> u8 {
    match ask {
        Ask::First => first(links),
        Ask::Of(class) => first_of(links, class),
        Ask::Least(bound) => first_of_least(links, bound),
        Ask::Second => second(links),
    }
}

// What is asked for, in a row, is answered so.
fn answers(rt: &impl Abort, links: &mut Links<u8>, rows: &[(Ask, u8)]) {
    for (ask, value) in rows {
        assert_eq!(rt; answer(links, *ask), *value, "{ask:?}");
    }
}

const FOUR: [(i32, u8); 4] = [(2, 1), (1, 2), (2, 3), (1, 4)];

static BY_CLASS_AND_BY_AGE: [(Ask, u8); 8] = [
    (Ask::Second, 2),
    (Ask::Least(2), 2),
    (Ask::Second, 3),
    (Ask::Of(2), 1),
    (Ask::First, 3),
    (Ask::Second, 0),
    (Ask::Least(1), 4),
    (Ask::First, 0),
];

#[test]
fn by_class_and_by_age(rt: HostRuntime) -> Result<(), Fail> {
    let mut links = filled(rt.alloc(), &FOUR)?;
    answers(&rt, &mut links, &BY_CLASS_AND_BY_AGE);
    assert!(rt; links.len() == 0);
    Ok(())
}

static BELOW_ZERO: [(Ask, u8); 4] = [
    (Ask::Least(-2), 3),
    (Ask::Least(-2), 0),
    (Ask::Least(i32::MAX), 2),
    (Ask::Least(i32::MAX), 1),
];

#[test]
fn classes_below_zero(rt: HostRuntime) -> Result<(), Fail> {
    let mut links = filled(rt.alloc(), &[(i32::MAX, 1), (-1, 2), (i32::MIN, 3)])?;
    answers(&rt, &mut links, &BELOW_ZERO);
    Ok(())
}

// Takes the oldest of a class out and puts a value of another class in. Whether it has the same place.
fn takes_its_place(links: &mut Links<u8>, class: i32) -> Result<bool, Memory> {
    let Some(slot) = links.first_of(class) else {
        return Ok(false);
    };
    links.unlink(slot);
    Ok(put(links, 3, 5)? == slot)
}

static BEHIND_IT: [(Ask, u8); 4] = [
    (Ask::Of(3), 5),
    (Ask::First, 1),
    (Ask::First, 3),
    (Ask::First, 4),
];

#[test]
fn a_place_is_used_again(rt: HostRuntime) -> Result<(), Fail> {
    let mut links = filled(rt.alloc(), &FOUR)?;
    assert!(rt; takes_its_place(&mut links, 1)?);
    answers(&rt, &mut links, &BEHIND_IT);
    Ok(())
}

// Whether two values are put where there is room for them.
fn fills_its_room(links: &mut Links<u8>) -> bool {
    put(links, 1, 1).is_ok() && put(links, 2, 2).is_ok() && links.len() == 2
}

#[test]
fn with_room_none_is_refused(rt: HostRuntime) -> Result<(), Fail> {
    let mut links: Links<u8> = Links::new(rt.alloc());
    links.reserve(2)?;
    assert!(rt; fills_its_room(&mut links));
    Ok(())
}
