//! The numbers in the bodies of deeds, as they are read: from left to right, each with the bytes after it. Reading
//! takes no memory, and fails only where the bytes have no such number at their front.
//!
//! `specs/Fields.antt` says what reading gives. `proofs/Fields.antt` has its laws: what was read is what was written,
//! and what was written is read again. `proofs/Many.antt` has the same of values one behind another, and what a loop
//! that reads them keeps.
#![tactic(auto)]

ghost use Rattle.std.specs.Prelude.{◌≤◌, IfSome};
ghost use Rattle.std.specs.Int.{w16, w32};
ghost use Rattle.body_fields.specs.Fields.{Reads, byte_at, byte_upto, number_at, number_upto};

#[cfg(test)]
mod tests;

/// The first byte, and the bytes after it. None: there is no byte.
pub fn u8_at(bytes: &[u8]) -> Option<(u8, &[u8])>
    ensures { Reads (λ x. (x.0, x.1.now)) result (byte_at bytes.now) }
{
    match bytes {
        [byte, rest @ ..] => Some((*byte, rest)),
        [] => None,
    }
}

/// The number in the first two bytes, the high one first, and the bytes after it. None: there are fewer bytes.
pub fn u16_at(bytes: &[u8]) -> Option<(u16, &[u8])>
    ensures { Reads (λ x. (x.0, x.1.now)) result (number_at w16 bytes.now) }
{
    if bytes.len() < 2 {
        return None;
    }
    let (front, rest) = bytes.split_at(2);
    Some((u16::from_be_bytes([front[0], front[1]]), rest))
}

/// The number in the first four bytes, the high ones first, and the bytes after it. None: there are fewer bytes.
pub fn u32_at(bytes: &[u8]) -> Option<(u32, &[u8])>
    ensures { Reads (λ x. (x.0, x.1.now)) result (number_at w32 bytes.now) }
{
    if bytes.len() < 4 {
        return None;
    }
    let (front, rest) = bytes.split_at(4);
    let number = u32::from_be_bytes([front[0], front[1], front[2], front[3]]);
    Some((number, rest))
}

/// The first byte, which is at most `limit`. None: there is no byte, or it is greater.
#[tactic(auto, unfolding(crate::specs::Fields::byte_upto))]
pub fn u8_upto(limit: u8, bytes: &[u8]) -> Option<(u8, &[u8])>
    ensures read { Reads (λ x. (x.0, x.1.now)) result (byte_upto limit bytes.now) }
    ensures within { IfSome result (λ x. x.0 ≤ limit) }
{
    let (number, rest) = u8_at(bytes)?;
    if number > limit {
        return None;
    }
    Some((number, rest))
}

/// The number in the first two bytes, which is at most `limit`. None: there are fewer bytes, or it is greater.
#[tactic(auto, unfolding(crate::specs::Fields::number_upto))]
pub fn u16_upto(limit: u16, bytes: &[u8]) -> Option<(u16, &[u8])>
    ensures read { Reads (λ x. (x.0, x.1.now)) result (number_upto w16 limit bytes.now) }
    ensures within { IfSome result (λ x. x.0 ≤ limit) }
{
    let (number, rest) = u16_at(bytes)?;
    if number > limit {
        return None;
    }
    Some((number, rest))
}

/// The number in the first four bytes, which is at most `limit`. None: there are fewer bytes, or it is greater.
#[tactic(auto, unfolding(crate::specs::Fields::number_upto))]
pub fn u32_upto(limit: u32, bytes: &[u8]) -> Option<(u32, &[u8])>
    ensures read { Reads (λ x. (x.0, x.1.now)) result (number_upto w32 limit bytes.now) }
    ensures within { IfSome result (λ x. x.0 ≤ limit) }
{
    let (number, rest) = u32_at(bytes)?;
    if number > limit {
        return None;
    }
    Some((number, rest))
}
