//! Numbers of two and of four bytes, read at their edges.
use crate::{u8_at, u8_upto, u16_at, u16_upto, u32_at, u32_upto};
use std::test::Fail;

/// 258, and then 1, 2 and 3.
const BYTES: &[u8] = b"\x01\x02\x01\x02\x03";

#[test]
fn numbers_have_their_high_bytes_first(rt: HostRuntime) -> Result<(), Fail> {
    let (number, rest) = u16_at(BYTES).ok_or("two bytes")?;
    assert_eq!(rt; number, 258);
    assert_eq!(rt; rest, b"\x01\x02\x03".as_slice());
    let (number, rest) = u32_at(BYTES).ok_or("four bytes")?;
    assert_eq!(rt; number, 16908546);
    assert_eq!(rt; rest, b"\x03".as_slice());
    Ok(())
}

#[test]
fn limits_hold(rt: HostRuntime) {
    assert!(rt; u8_upto(1, BYTES).is_some());
    assert!(rt; u8_upto(0, BYTES).is_none());
    assert!(rt; u16_upto(258, BYTES).is_some());
    assert!(rt; u16_upto(257, BYTES).is_none());
    assert!(rt; u32_upto(16908546, BYTES).is_some());
    assert!(rt; u32_upto(16908545, BYTES).is_none());
    assert!(rt; u8_at(b"").is_none());
    assert!(rt; u16_at(b"\x01").is_none());
    assert!(rt; u32_at(b"\x01\x02\x01").is_none());
}
