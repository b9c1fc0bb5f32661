//! Each kind of frame at its edges: cut at each byte, with one byte behind its last field, with each of its flags 2.
ghost use Rattle.std.specs.Prelude.{◌≤◌, length};

use frame_bytes::{FrameFault, Joiner};
use std::alloc::Global;
use std::mem::ManuallyDrop;
use std::test::Fail;

/// A joiner that is never taken apart, so that its owner is cheaper to prove.
type Kept = ManuallyDrop<Joiner>;

/// A word that begins a frame as it is printed, its bytes, and where its flags stand.
type Row = (&'static str, &'static [u8], &'static [usize]);

/// Frames of all nineteen kinds, in the kinds' order.
static FRAMES: [Row; 23] = [
    (
        "Ask",
        b"\0\0\0\x18\x01\0\0\0\x03\0\0\0\x02\x04\0\0\0\x01\xff\xff\xff\xfb\0\0\0\x08\0\x01",
        &[26, 27],
    ),
    (
        "Ask",
        b"\0\0\0\x19\x01\0\0\0\x02\0\0\0\x02\x03\0\0\0\x01\0\0\0\x01\0\0\0\x02hi\x01",
        &[28],
    ),
    (
        "Request",
        b"\0\0\0\x1e\x02\0\0\0\x04\0\0\0\x03\x09\0\0\0\x02\0\x02\0\0\xff\xff\xff\xff\x01\0\x01\0\0\0\x02\0",
        &[26, 33],
    ),
    (
        "Forward",
        b"\0\0\0\x11\x03\x02\0\0\0\x05\0\0\0\x02\x02\0\0\0\x07\x01\0",
        &[19, 20],
    ),
    (
        "Bounce",
        b"\0\0\0\x15\x04 \0\0\0\x06\0\0\0\x09\x08\0\0\0\x07\0\0\0\x03\x01\x01",
        &[23, 24],
    ),
    (
        "Bounce",
        b"\0\0\0\x19\x04\x03\0\0\0\x06\0\0\0\x09\x0d\0\0\0\x07\0\x02\0\0\0\x03\0\0\0\x04",
        &[],
    ),
    (
        "Answer",
        b"\0\0\0\x11\x05\0\0\0\x03\x02\0\0\0\x04\0\0\0\x03abc",
        &[],
    ),
    (
        "Answer",
        b"\0\0\0\x10\x05\0\0\0\x03\x04\0\x02\0\0\0\x01\0\0\0\x02",
        &[],
    ),
    (
        "Answer",
        b"\0\0\0\x16\x05\0\0\0\x03\x03\0\0\0\x01\0\0@\0\0\0\0\x02\0\0\0\0",
        &[],
    ),
    ("NotOwner", b"\0\0\0\x05\x06\0\0\0\x07", &[]),
    ("LeaseAsk", b"\0\0\0\x02\x07\x03", &[]),
    ("Lease", b"\0\0\0\x06\x08\x01\0\0\0\x09", &[]),
    ("Placed", b"\0\0\0\x07\x09\x03\0\0\0\x11\x02", &[]),
    (
        "Checkpoint",
        b"\0\0\0#\x0a\0\0\0\x02\0\0\0\x01\x01\0\0\0\x02\0\0\0\x03\x01\x02\x03\0\x02\0\xde\0\0\0\x01\x0bE\0\0\0\0",
        &[],
    ),
    ("Suggest", b"\0\0\0\x07\x0b\x02\0\0\0\x01\x02", &[]),
    ("Recall", b"\0\0\0\x06\x0c\x02\0\0\0\x01", &[]),
    (
        "GiveBack",
        b"\0\0\0\x0b\x0d\x02\0\0\0\x01\0\0\0\x01\x06",
        &[],
    ),
    ("Grant", b"\0\0\0\x0b\x0e\x03\0\0\0\x01\0\0\0\x01\x06", &[]),
    ("Leaving", b"\0\0\0\x0a\x0f\0\0\0\x02\0\0\0\x01\x01", &[]),
    ("RecallAll", b"\0\0\0\x01\x10", &[]),
    (
        "Left",
        b"\0\0\0 \x11\0\0\0\x02\0\0\0\x01\x12\0\x07\x02\x01\0\0\0\x02\0\0\0\x01\x03\x01\0\0\0\x09\0\0\0\0",
        &[],
    ),
    (
        "ExitTo",
        b"\0\0\0\x16\x12\0\0\0\x02\0\0\0\x01\x13\x09\x01\x01\0\0\0\x02\0\0\0\x01\x03",
        &[],
    ),
    (
        "Cancel",
        b"\0\0\0\x10\x13\x02\0\0\0\x03\0\0\0\x02\x14\x02\0\0\0\0",
        &[],
    ),
];

/// Whether the frame of these bytes, the only one that they give, is printed with this word at its front.
fn begins_with(alloc: Global, bytes: &[u8], word: &str) -> Result<bool, Fail> {
    let mut joiner: Kept = ManuallyDrop::new(Joiner::new(alloc));
    let frames = ManuallyDrop::new(joiner.feed(bytes)?);
    let [frame] = frames.as_slice() else {
        return Ok(false);
    };
    Ok(format!(in alloc; "{frame:?}")?.starts_with(word))
}

#[test]
fn each_row_is_a_frame_of_its_kind(rt: HostRuntime) -> Result<(), Fail> {
    for (word, bytes, _) in &FRAMES {
        assert!(rt; begins_with(rt.alloc(), bytes, word)?, "{word}");
    }
    Ok(())
}

/// Whether the fault comes of these bytes.
fn is_refused(joiner: &mut Joiner, bytes: &[u8], fault: FrameFault) -> bool {
    joiner.feed(bytes).err() == Some(fault)
}

/// Whether the fault comes, and again for ten further pieces, each of which would be a frame.
fn refuses(alloc: Global, bytes: &[u8], fault: FrameFault) -> bool {
    let mut joiner: Kept = ManuallyDrop::new(Joiner::new(alloc));
    if !is_refused(&mut joiner, bytes, fault) {
        return false;
    }
    for _ in 0..10 {
        if !is_refused(&mut joiner, b"\0\0\0\x01\x10", fault) {
            return false;
        }
    }
    true
}

/// Whether the fields, under a length that is theirs, are no frame.
fn are_no_frame(alloc: Global, fields: &[u8]) -> Result<bool, Fail> {
    let length = u32::try_from(fields.len())?;
    let mut bytes = Vec::from_slice(alloc, &length.to_be_bytes())?;
    bytes.extend_from_slice(fields)?;
    Ok(refuses(alloc, &bytes, FrameFault::NotAFrame))
}

/// Whether the fields are no frame where they are cut there.
fn are_none_where_cut(alloc: Global, fields: &[u8], cut: usize) -> Result<bool, Fail>
    requires { cut ≤ length fields.now }
{
    let (front, _) = fields.split_at(cut);
    are_no_frame(alloc, front)
}

/// Whether the fields are no frame wherever they are cut.
fn are_none_where_cut_anywhere(alloc: Global, fields: &[u8]) -> Result<bool, Fail> {
    for cut in 0..fields.len() {
        if !are_none_where_cut(alloc, fields, cut)? {
            return Ok(false);
        }
    }
    Ok(true)
}

/// A frame cut at each byte isn't one under the length that is left, and its last fields are no part of it.
#[test]
fn cut_frames_are_none(rt: HostRuntime) -> Result<(), Fail> {
    for (word, bytes, _) in &FRAMES {
        let fields = bytes.get(4..).ok_or("no fields")?;
        assert!(rt; are_none_where_cut_anywhere(rt.alloc(), fields)?, "{word}");
    }
    Ok(())
}

/// Whether the fields with this byte behind them are no frame.
fn are_none_with(alloc: Global, fields: &[u8], last: u8) -> Result<bool, Fail> {
    let mut longer = Vec::from_slice(alloc, fields)?;
    longer.push(last)?;
    are_no_frame(alloc, &longer)
}

#[test]
fn a_byte_behind_the_last_field_is_a_fault(rt: HostRuntime) -> Result<(), Fail> {
    for (word, bytes, _) in &FRAMES {
        let fields = bytes.get(4..).ok_or("no fields")?;
        for last in [0, 1, 255] {
            assert!(rt; are_none_with(rt.alloc(), fields, last)?, "{word}");
        }
    }
    Ok(())
}

/// Whether a flag stands there, and with 2 in its place the bytes are no frame.
fn is_flag(alloc: Global, bytes: &[u8], at: usize) -> Result<bool, Fail> {
    let mut altered = Vec::from_slice(alloc, bytes)?;
    match altered.get_mut(at) {
        Some(flag) if *flag < 2 => *flag = 2,
        _ => return Ok(false),
    }
    Ok(refuses(alloc, &altered, FrameFault::NotAFrame))
}

#[test]
fn no_flag_is_2(rt: HostRuntime) -> Result<(), Fail> {
    for (word, bytes, flags) in &FRAMES {
        for at in *flags {
            assert!(rt; is_flag(rt.alloc(), bytes, *at)?, "{word} at {at}");
        }
    }
    Ok(())
}

/// Whether the bytes in two pieces, cut there, give nothing, and then one frame.
fn is_joined(alloc: Global, bytes: &[u8], cut: usize) -> Result<bool, Fail>
    requires { cut ≤ length bytes.now }
{
    let (front, rest) = bytes.split_at(cut);
    let mut joiner: Kept = ManuallyDrop::new(Joiner::new(alloc));
    if joiner.feed(front)?.len() > 0 {
        return Ok(false);
    }
    Ok(joiner.feed(rest)?.len() == 1)
}

/// Whether they do wherever they are cut.
fn is_joined_anywhere(alloc: Global, bytes: &[u8]) -> Result<bool, Fail> {
    for cut in 0..bytes.len() {
        if !is_joined(alloc, bytes, cut)? {
            return Ok(false);
        }
    }
    Ok(true)
}

#[test]
fn a_frame_in_two_pieces_is_joined(rt: HostRuntime) -> Result<(), Fail> {
    for (word, bytes, _) in &FRAMES {
        assert!(rt; is_joined_anywhere(rt.alloc(), bytes)?, "{word}");
    }
    Ok(())
}

/// Four bytes are enough for a length that is too long, in one piece or in four.
#[test]
fn four_bytes_are_too_long(rt: HostRuntime) -> Result<(), Fail> {
    assert!(rt; refuses(rt.alloc(), b"\0\x04\0\x01", FrameFault::TooLong));
    assert!(rt; is_found_at_the_fourth(rt.alloc())?);
    Ok(())
}

/// Whether the fault comes with the fourth byte and not before.
fn is_found_at_the_fourth(alloc: Global) -> Result<bool, Fail> {
    let mut joiner: Kept = ManuallyDrop::new(Joiner::new(alloc));
    for byte in [b"\0", b"\x04", b"\0"] {
        if joiner.feed(byte)?.len() > 0 {
            return Ok(false);
        }
    }
    Ok(is_refused(&mut joiner, b"\x01", FrameFault::TooLong))
}
