//! A family as bytes, and bytes that are none's. Who is waited for first stands in the golden cases, in
//! `cases/children`.
use fork_wait::Family;
use pico_base::{Ending, Memory, Pid, Sig, UnpackFault};
use std::alloc::Global;
use std::test::Fail;

/// The living child 2, and the child 258, which TERM ended.
const BODY: [u8; 12] = [1, 0, 0, 0, 2, 1, 0, 0, 1, 2, 1, 9];

/// A family of the living child 2 and of the child 258, which has ended.
fn two_children(alloc: Global) -> Result<Family, Memory> {
    let mut family = Family::new(alloc)?;
    family.add(Pid(2));
    family.add(Pid(258));
    family.child_ended(Pid(258), Ending::Killed(Sig::Term), false);
    Ok(family)
}

/// Whether the family is spelled so.
fn is_body(alloc: Global, family: &Family) -> Result<bool, Memory> {
    Ok(family.pack(alloc)?.as_slice() == BODY.as_slice())
}

#[test]
fn packed(rt: HostRuntime) -> Result<(), Fail> {
    let family = two_children(rt.alloc())?;
    assert!(rt; is_body(rt.alloc(), &family)?);
    Ok(())
}

#[test]
fn unpacked(rt: HostRuntime) -> Result<(), Fail> {
    let family = Family::unpack(rt.alloc(), &BODY)?;
    assert!(rt; is_body(rt.alloc(), &family)?);
    Ok(())
}

/// Whether the bytes, with another one at this place, are no family's.
fn is_refused(alloc: Global, place: usize, byte: u8) -> bool {
    let mut bytes = BODY;
    if let Some(one) = bytes.get_mut(place) {
        *one = byte;
    }
    Family::unpack(alloc, &bytes).err() == Some(UnpackFault::NotABody)
}

#[test]
fn refused_bodies(rt: HostRuntime) {
    // the number 0, the same number twice, another kind of ending, no signal, another count
    for (place, byte) in [(4, 0), (8, 0), (10, 2), (11, 0), (11, 11), (0, 2), (5, 0)] {
        assert!(rt; is_refused(rt.alloc(), place, byte), "byte {place}");
    }
}
