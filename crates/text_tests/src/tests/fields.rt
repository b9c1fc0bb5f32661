//! Each field once, with what follows it, and what is no such field.
use pico_base::{Act, Errno, How, Memory, Sig, SigArg};
use std::alloc::Global;
use std::test::Fail;
use text_fields::{
    action_front, argument_front, error_front, flag_front, how_front, number_front, set_front,
    signal_front, signed_front, steps_front, text_front, values_front, word_front,
};

#[test]
fn words_and_flags_are_read(rt: HostRuntime) {
    assert!(rt; word_front(b"exit 0") == (b"exit".as_slice(), b" 0".as_slice()));
    assert!(rt; flag_front(b" nohang =", b" nohang") == (true, b" =".as_slice()));
}

#[test]
fn numbers_are_read(rt: HostRuntime) {
    assert!(rt; number_front(99, b"99 x") == Some((99, b" x".as_slice())));
    assert!(rt; number_front(99, b"100").is_none());
    assert!(rt; number_front(99, b"07") == Some((0, b"7".as_slice())));
    assert!(rt; signed_front(99, b"-98,") == Some((-98, b",".as_slice())));
    assert!(rt; signed_front(99, b"-0").is_none());
}

#[test]
fn names_are_read(rt: HostRuntime) {
    assert!(rt; signal_front(b"USR2,") == Some((Sig::Usr2, b",".as_slice())));
    assert!(rt; argument_front(b"badsig ") == Some((SigArg::Bad, b" ".as_slice())));
    assert!(rt; action_front(b"catch") == Some((Act::Catch, b"".as_slice())));
    assert!(rt; how_front(b"setmask ") == Some((How::SetMask, b" ".as_slice())));
    assert!(rt; error_front(b"E2BIG by") == Some((Errno::E2big, b" by".as_slice())));
}

/// How many operations are read, and whether this is behind them.
fn reads_steps(alloc: Global, bytes: &[u8], count: usize, behind: &[u8]) -> Result<bool, Memory> {
    let (steps, rest) = steps_front(alloc, bytes)?;
    Ok(steps.len() == count && rest == behind)
}

/// Whether the text is read as these bytes.
fn reads_text(alloc: Global, bytes: &[u8], wanted: &[u8]) -> Result<bool, Memory> {
    match text_front(alloc, bytes)? {
        Some((text, _)) => Ok(text.as_slice() == wanted),
        None => Ok(false),
    }
}

/// Whether the values are read as these.
fn reads_values(alloc: Global, bytes: &[u8], wanted: &[u32]) -> Result<bool, Memory> {
    match values_front(alloc, 65_535, bytes)? {
        Some((values, _)) => Ok(values.as_slice() == wanted),
        None => Ok(false),
    }
}

/// Whether the set is read as one that has CHLD and not INT.
fn reads_set(bytes: &[u8]) -> bool {
    match set_front(bytes) {
        Some((set, _)) => set.has(Sig::Chld) && !set.has(Sig::Int),
        None => false,
    }
}

#[test]
fn texts_values_and_sets_are_read(rt: HostRuntime) -> Result<(), Fail> {
    let alloc = rt.alloc();
    assert!(rt; reads_steps(alloc, b" 0:-1:nowait 2:3 =", 2, b" =")?);
    assert!(rt; reads_text(alloc, b"\"a b\\x22\" nowait", b"a b\"")?);
    assert!(rt; reads_text(alloc, b"rep:3:z", b"zzz")?);
    assert!(rt; text_front(alloc, b"\"a")?.is_none());
    assert!(rt; reads_values(alloc, b"1,65535 by", &[1, 65_535])?);
    assert!(rt; reads_set(b"HUP,CHLD by"));
    Ok(())
}
