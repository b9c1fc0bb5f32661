//! Each kind of body at its edges, also with callers that wait: cut at each byte, with a byte behind its last field,
//! with each of its flags 2, and under a name of another kind.
ghost use Rattle.std.specs.Prelude.{◌≤◌, length};

use deed_box::Shared;
use node_serve::Body;
use pico_base::{Id, Name, Pid, UnpackFault};
use std::alloc::Global;
use std::mem::ManuallyDrop;
use std::test::Fail;

/// What a body goes with: its name's kind.
type Kind = u8;

const PROCESS: Kind = 1;

const QUEUE: Kind = 2;

const SET: Kind = 3;

/// A body in words, the kind of its name, its bytes, and where its flags stand.
type Row = (&'static str, Kind, &'static [u8], &'static [usize]);

static BODIES: [Row; 9] = [
    (
        "a living process",
        PROCESS,
        b"\x01\0\0\0\0\x02\x01\0\0\0\0\0 \0\x10\0\0\0\0\0\0\0\0\0\0\0\0\0\0\0\0\0\0\0\x03\0\0\0\0\0\0\0\0\0\0\
\0\0\0\0\0\0\0\0\0\0\x09\x02\0\0\0\x03\0\0\0\x09\x02\0\0\0\x04\0\x07\0\0\0\x05\x01\x09",
        &[],
    ),
    ("an ended process", PROCESS, b"\x02\0\x07", &[]),
    ("a killed process", PROCESS, b"\x02\x01\x09", &[]),
    ("a process that is gone", PROCESS, b"\x03", &[]),
    ("a queue", QUEUE, b"\x04\0\0@\0\0\0\0\0\0\0\0\0\0\0\0", &[]),
    (
        "a queue where two wait",
        QUEUE,
        b"\x04\0\0\0\x04\0\0\0\x02\0\0\0\0\0\x01\0\0\0\x01\0\0\0\x03abc\x02\x03\0\0\0\x04\0\0\0\x03\x04\0\0\0\
\x01\0\0\0\x05\0\0\0\x08\0\0\x04\0\0\0\x02\0\0\0\x04\x03\0\0\0\x01\0\0\0\x01\0\0\0\x02hi\0",
        &[49, 50, 75],
    ),
    (
        "a set where two wait",
        SET,
        b"\x05\x02\0\0\0\0\0\0\0\x01\0\0\0\x02\x02\x03\0\0\0\x04\0\0\0\x03\x09\0\0\0\x01\0\x01\0\0\xff\xff\xff\
\xff\0\x05\0\0\0\x01\0\0\0\x06\x09\0\0\0\x01\0\x02\0\x01\0\0\0\0\0\0\0\0\0\0\x01\x01",
        &[37, 60, 67],
    ),
    ("a removed queue", QUEUE, b"\x06", &[]),
    ("a removed set", SET, b"\x06", &[]),
];

/// The name of this kind with number 2.
fn name_of(kind: Kind) -> Name {
    match kind {
        PROCESS => Name::Proc(Pid(2)),
        QUEUE => Name::Msg(Id(2)),
        _ => Name::Sem(Id(2)),
    }
}

/// Whether the bytes are a body that goes with the name, and its only spelling.
fn is_body(alloc: Global, kind: Kind, bytes: &[u8]) -> Result<bool, Fail> {
    let body = ManuallyDrop::new(Body::unpack(alloc, name_of(kind), bytes)?);
    Ok(body.pack(alloc)?.as_slice() == bytes)
}

#[test]
fn each_row_is_a_body(rt: HostRuntime) -> Result<(), Fail> {
    for (what, kind, bytes, _) in &BODIES {
        assert!(rt; is_body(rt.alloc(), *kind, bytes)?, "{what}");
    }
    Ok(())
}

/// Whether the bytes are no body that goes with the name.
fn is_refused(alloc: Global, kind: Kind, bytes: &[u8]) -> bool {
    Body::unpack(alloc, name_of(kind), bytes).err() == Some(UnpackFault::NotABody)
}

/// Whether the bytes are no body where they are cut there.
fn is_refused_where_cut(alloc: Global, kind: Kind, bytes: &[u8], cut: usize) -> bool
    requires { cut ≤ length bytes.now }
{
    let (front, _) = bytes.split_at(cut);
    is_refused(alloc, kind, front)
}

/// Whether the bytes are no body wherever they are cut.
fn is_refused_where_cut_anywhere(alloc: Global, kind: Kind, bytes: &[u8]) -> bool {
    for cut in 0..bytes.len() {
        if !is_refused_where_cut(alloc, kind, bytes, cut) {
            return false;
        }
    }
    true
}

#[test]
fn cut_bodies_are_none(rt: HostRuntime) {
    for (what, kind, bytes, _) in &BODIES {
        assert!(rt;
            is_refused_where_cut_anywhere(rt.alloc(), *kind, bytes),
            "{what}"
        );
    }
}

/// Whether the bytes with this one behind them are no body.
fn is_refused_with(alloc: Global, kind: Kind, bytes: &[u8], last: u8) -> Result<bool, Fail> {
    let mut longer = Vec::from_slice(alloc, bytes)?;
    longer.push(last)?;
    Ok(is_refused(alloc, kind, &longer))
}

#[test]
fn a_byte_behind_the_last_field_is_a_fault(rt: HostRuntime) -> Result<(), Fail> {
    for (what, kind, bytes, _) in &BODIES {
        for last in [0, 1, 255] {
            assert!(rt; is_refused_with(rt.alloc(), *kind, bytes, last)?, "{what}");
        }
    }
    Ok(())
}

/// Whether a flag stands there, and with 2 in its place the bytes are no body.
fn is_flag(alloc: Global, kind: Kind, bytes: &[u8], at: usize) -> Result<bool, Fail> {
    let mut altered = Vec::from_slice(alloc, bytes)?;
    match altered.get_mut(at) {
        Some(flag) if *flag < 2 => *flag = 2,
        _ => return Ok(false),
    }
    Ok(is_refused(alloc, kind, &altered))
}

#[test]
fn no_flag_is_2(rt: HostRuntime) -> Result<(), Fail> {
    for (what, kind, bytes, flags) in &BODIES {
        for at in *flags {
            assert!(rt; is_flag(rt.alloc(), *kind, bytes, *at)?, "{what} at {at}");
        }
    }
    Ok(())
}

/// Whether the bytes go with names of their own kind alone, or, of a removed queue or set, of either kind.
fn goes_with(alloc: Global, kind: Kind, other: Kind, bytes: &[u8]) -> bool {
    let is_removed = bytes == [6].as_slice() && other != PROCESS;
    is_refused(alloc, other, bytes) != (is_removed || other == kind)
}

#[test]
fn no_body_goes_with_another_kind_s_name(rt: HostRuntime) {
    for (what, kind, bytes, _) in &BODIES {
        for other in [PROCESS, QUEUE, SET] {
            assert!(rt;
                goes_with(rt.alloc(), *kind, other, bytes),
                "{what}: {other}"
            );
        }
    }
}
