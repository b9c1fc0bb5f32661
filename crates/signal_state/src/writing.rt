//! The parts of a packed signal state, written one behind another.
ghost use Rattle.std.specs.Prelude.{◌≡◌, ◌+◌, ◌*◌, ◌<◌, ◌≤◌, ◌^◌, ◌++◌, length, map};
ghost use Rattle.std.specs.Int.{w32, to_be_bytes};
ghost use Rattle.std.specs.List.{flat_map};
ghost use Rattle.arrayvec.specs.ArrayVec.{array_vec_len};
ghost use Rattle.pico_base.specs.Signal.{at};
ghost use Rattle.signal_state.specs.Spelling.{act_byte, doom_byte, number_of_bits};

use crate::PACKED;
use arrayvec::ArrayVec;
use pico_base::{Act, PerSignal, Sig, SigSet};

/// What is written so far of a packed state.
pub(crate) type Packing = ArrayVec<u8, PACKED>;

/// The byte of an action.
fn act_byte(act: Act) -> u8
    ensures { result ≡ act_byte act }
{
    match act {
        Act::Dfl => 0,
        Act::Ign => 1,
        Act::Catch => 2,
    }
}

/// The byte of a doom.
pub(crate) fn doom_byte(doom: Option<Sig>) -> u8
    ensures { result ≡ doom_byte doom }
{
    match doom {
        None => 0,
        Some(sig) => sig as u8,
    }
}

/// Writes the actions for these signals.
pub(crate) fn write_actions(into: &mut Packing, actions: &PerSignal<Act>, sigs: &[Sig])
    requires { array_vec_len into.old + length sigs.now ≤ 55 }
    ensures { into.new.items ≡ into.old.items ++ map (λ g. act_byte (at actions.now g)) sigs.now }
{
    for sig in sigs {
        into.push(act_byte(actions.get(*sig)));
    }
}

/// Writes these bytes.
pub(crate) fn write_bytes(into: &mut Packing, bytes: &[u8])
    requires { array_vec_len into.old + length bytes.now ≤ 55 }
    ensures { into.new.items ≡ into.old.items ++ bytes.now }
{
    for byte in bytes {
        into.push(*byte);
    }
}

/// Writes the counts for these signals.
pub(crate) fn write_counts(into: &mut Packing, counts: &PerSignal<u32>, sigs: &[Sig])
    requires { array_vec_len into.old + 4 * length sigs.now ≤ 55 }
    ensures { into.new.items ≡ into.old.items ++ flat_map (λ g. to_be_bytes w32 (at counts.now g)) sigs.now }
{
    for sig in sigs {
        write_bytes(into, &counts.get(*sig).to_be_bytes());
    }
}

/// The number of a set: these signals take the low bits, in order.
pub(crate) fn number_of(set: SigSet, sigs: &[Sig]) -> u16
    requires { length sigs.now ≤ 10 }
    ensures number { result ≡ number_of_bits (map (at set) sigs.now) }
    ensures small { result < 2 ^ length sigs.now }
{
    match sigs {
        [] => 0,
        [sig, rest @ ..] => u16::from(set.has(*sig)) + 2 * number_of(set, rest),
    }
}
