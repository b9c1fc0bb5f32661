//! A semaphore set as bytes, and bytes that are none's. What calls reply stands in the golden cases, in
//! `cases/semaphores`, and who waits and is woken in `cases/waiting`.
ghost use Rattle.std.specs.Prelude.{◌≡◌, true};

use pico_base::{Memory, Pid, SemStep, UnpackFault};
use std::alloc::Global;
use std::test::Fail;
use sysv_sem::{NewFault, SemSet};

/// An operation that doesn't wait.
fn step(num: u16, add: i32) -> SemStep
    ensures { result.nowait ≡ true }
{
    SemStep {
        num,
        add,
        nowait: true,
    }
}

/// A set of two with these values.
fn two(alloc: Global, values: &[u32]) -> Result<SemSet, NewFault> {
    let mut set = SemSet::new(alloc, 2)?;
    let _ = set.set_all(values);
    Ok(set)
}

/// The last processes of a set of two.
fn lasts(set: &SemSet) -> [u32; 2] {
    [
        set.last(0).unwrap_or(Pid(9)).0,
        set.last(1).unwrap_or(Pid(9)).0,
    ]
}

/// Code 5, two semaphores: value 258 and last process 0, and value 32,767 and last process 7; nobody waits.
const BODY: &[u8] = b"\x05\x02\x01\x02\x00\x00\x00\x00\x7f\xff\x00\x00\x00\x07\x00";

/// Whether nobody waits, and the operation on the first semaphore is carried out for the process.
fn goes(set: &mut SemSet, pid: u32, num: u16, add: i32) -> bool {
    set.waiting() == 0 && set.op(Pid(pid), &[step(num, add)]).is_ok()
}

/// Whether the set is spelled so.
fn is_body(set: &SemSet) -> Result<bool, Memory> {
    Ok(set.pack()?.as_slice() == BODY)
}

#[test]
fn packed(rt: HostRuntime) -> Result<(), Fail> {
    let mut set = two(rt.alloc(), &[258, 32767])?;
    assert!(rt; goes(&mut set, 7, 1, -1) && goes(&mut set, 7, 1, 1));
    assert!(rt; is_body(&set)?);
    Ok(())
}

/// Whether the set has the values of the body.
fn has_its_values(set: &SemSet) -> Result<bool, Memory> {
    Ok(set.all()?.as_slice() == [258, 32767].as_slice())
}

#[test]
fn unpacked(rt: HostRuntime) -> Result<(), Fail> {
    let mut set = SemSet::unpack(rt.alloc(), BODY)?;
    assert!(rt; has_its_values(&set)?);
    assert!(rt; lasts(&set) == [0, 7]);
    assert!(rt; goes(&mut set, 8, 0, -258));
    Ok(())
}

/// One semaphore with the value 0, and process 3 on node 2, which waits under ticket 4 to take one.
const AWAITED: &[u8] =
    b"\x05\x01\0\0\0\0\0\0\x01\x02\0\0\0\x04\0\0\0\x03\x09\0\0\0\x01\0\x01\0\0\xff\xff\xff\xff\0";

/// How many wait at the set of these bytes, where it is spelled so again.
fn waiting_again(alloc: Global, bytes: &[u8]) -> Result<Option<u32>, Fail> {
    let set = SemSet::unpack(alloc, bytes)?;
    let again = set.pack()?;
    Ok(if again.as_slice() == bytes {
        Some(set.waiting())
    } else {
        None
    })
}

#[test]
fn who_waits_comes_along(rt: HostRuntime) -> Result<(), Fail> {
    assert!(rt; waiting_again(rt.alloc(), AWAITED)? == Some(1));
    Ok(())
}

/// Whether the bytes are no set's.
fn is_refused(alloc: Global, bytes: &[u8]) -> bool {
    SemSet::unpack(alloc, bytes).err() == Some(UnpackFault::NotABody)
}

#[test]
fn a_body_that_ends_early(rt: HostRuntime) {
    for length in 0..AWAITED.len() {
        assert!(rt; is_refused(rt.alloc(), &AWAITED[..length]), "{length}");
    }
}

/// No semaphore, a byte behind the last field, another code, a value of 32,768, one who waits for a value that is
/// there, one who waits for nothing (`nowait`), and 33 who wait.
static REFUSED: [&[u8]; 7] = [
    b"\x05\x00\x00",
    b"\x05\x01\x00\x00\x00\x00\x00\x00\x00\x00",
    b"\x04\x01\x00\x00\x00\x00\x00\x00\x00",
    b"\x05\x01\x80\x00\x00\x00\x00\x00\x00",
    b"\x05\x01\0\x01\0\0\0\0\x01\x02\0\0\0\x04\0\0\0\x03\x09\0\0\0\x01\0\x01\0\0\xff\xff\xff\xff\0",
    b"\x05\x01\0\0\0\0\0\0\x01\x02\0\0\0\x04\0\0\0\x03\x09\0\0\0\x01\0\x01\0\0\xff\xff\xff\xff\x01",
    b"\x05\x01\x00\x00\x00\x00\x00\x00\x21",
];

#[test]
fn refused_bodies(rt: HostRuntime) -> Result<(), Fail> {
    for bytes in &REFUSED {
        assert!(rt; is_refused(rt.alloc(), bytes), "{bytes:?}");
        assert!(rt; !SemSet::is_packed(rt.alloc(), bytes)?, "{bytes:?}");
    }
    Ok(())
}
