//! The fields of a packed signal state.
ghost use Rattle.std.specs.Prelude.{◌≡◌, ◌+◌, ◌≤◌, false, length};
ghost use Rattle.signal_state.specs.Reading.{act_from, actions_from, count_at, counts_from, set_at, set_from};
ghost use Rattle.pico_base.specs.Signal.{everywhere};

use body_fields::{u16_at, u32_at};
use pico_base::{Act, PerSignal, SIGNALS, Sig, SigSet};

/// The action of a byte.
fn act_of(byte: u8) -> Act
    ensures { result ≡ act_from byte }
{
    match byte {
        1 => Act::Ign,
        2 => Act::Catch,
        _ => Act::Dfl,
    }
}

/// The actions, which the bytes begin with.
pub(crate) fn actions_of(bytes: &[u8]) -> PerSignal<Act>
    requires { 10 ≤ length bytes.now }
    ensures { result ≡ actions_from bytes.now }
{
    PerSignal {
        hup: act_of(bytes[0]),
        int: act_of(bytes[1]),
        quit: act_of(bytes[2]),
        kill: act_of(bytes[3]),
        usr1: act_of(bytes[4]),
        usr2: act_of(bytes[5]),
        pipe: act_of(bytes[6]),
        alrm: act_of(bytes[7]),
        term: act_of(bytes[8]),
        chld: act_of(bytes[9]),
    }
}

/// The set that takes the low bits of the number for these signals, in order.
fn set_of(number: u16, sigs: &[Sig]) -> SigSet
    ensures { result ≡ set_from number sigs.now (everywhere false) }
{
    let mut set = SigSet::empty();
    let mut rest = number;
    for sig in sigs {
        if rest % 2 == 1 {
            set = set.with(*sig);
        } else {
            set = set.without(*sig);
        }
        rest /= 2;
    }
    set
}

/// The set in the two bytes from a place on.
pub(crate) fn set_of_bytes(bytes: &[u8], place: usize) -> SigSet
    requires { place + 2 ≤ length bytes.now }
    ensures { result ≡ set_at bytes.now place }
{
    let (number, _) = u16_at(&bytes[place..]).unwrap();
    set_of(number, &SIGNALS)
}

/// The number in the four bytes from a place on.
fn count_of(bytes: &[u8], place: usize) -> u32
    requires { place + 4 ≤ length bytes.now }
    ensures { result ≡ count_at bytes.now place }
{
    let (number, _) = u32_at(&bytes[place..]).unwrap();
    number
}

/// The counts of catches, which stand behind the sets.
pub(crate) fn counts_of(bytes: &[u8]) -> PerSignal<u32>
    requires { 54 ≤ length bytes.now }
    ensures { result ≡ counts_from bytes.now }
{
    PerSignal {
        hup: count_of(bytes, 14),
        int: count_of(bytes, 18),
        quit: count_of(bytes, 22),
        kill: count_of(bytes, 26),
        usr1: count_of(bytes, 30),
        usr2: count_of(bytes, 34),
        pipe: count_of(bytes, 38),
        alrm: count_of(bytes, 42),
        term: count_of(bytes, 46),
        chld: count_of(bytes, 50),
    }
}
