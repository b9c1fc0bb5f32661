//! The bytes of a state, and a count at its greatest value. What masks and actions do stands in the golden cases of
//! `cases/signals`.
use pico_base::{Act, How, Sig, SigArg, SigSet};
use signal_state::{PACKED, Signals};

/// USR1 is caught, masked and pending.
fn body() -> [u8; PACKED] {
    let mut bytes = [0; PACKED];
    bytes[4] = 2;
    bytes[11] = 0x10;
    bytes[13] = 0x10;
    bytes
}

#[test]
fn packed(rt: HostRuntime) {
    let mut signals = Signals::new();
    let _ = signals.act(SigArg::Is(Sig::Usr1), Act::Catch);
    signals.mask(How::Block, SigSet::empty().with(Sig::Usr1));
    signals.raise(Sig::Usr1);
    assert!(rt; signals.pack() == body());
}

/// Whether the bytes but for their last one are no state's.
fn ends_early(bytes: &[u8]) -> bool {
    match bytes.split_last() {
        Some((_, front)) => Signals::unpack(front).is_none(),
        None => false,
    }
}

/// Whether the bytes, with another one at this place, are no state's.
fn is_refused(place: usize, byte: u8) -> bool {
    let mut bytes = body();
    if let Some(one) = bytes.get_mut(place) {
        *one = byte;
    }
    Signals::unpack(&bytes).is_none()
}

#[test]
fn refused_bodies(rt: HostRuntime) {
    assert!(rt; Signals::unpack(&body()).is_some());
    assert!(rt; ends_early(&body()));
    // another action, an unused bit, KILL in a set, CHLD pending at its default, another doom
    for (place, byte) in [(4, 3), (3, 1), (10, 4), (11, 8), (13, 8), (12, 2), (54, 11)] {
        assert!(rt; is_refused(place, byte), "byte {place}");
    }
}

/// USR1 is caught, and was handled 4,294,967,295 times.
fn often_handled() -> [u8; PACKED] {
    let mut bytes = [0; PACKED];
    bytes[4] = 2;
    for place in 30..34 {
        bytes[place] = 0xff;
    }
    bytes
}

#[test]
fn a_count_stays_at_its_greatest_value(rt: HostRuntime) {
    let Some(mut signals) = Signals::unpack(&often_handled()) else {
        panic!(rt; "not a state");
    };
    signals.raise(Sig::Usr1);
    assert!(rt; signals.handled(Sig::Usr1) == u32::MAX);
    assert!(rt; signals.pack() == often_handled());
}
