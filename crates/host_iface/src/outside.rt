//! Where bytes come from and where they go: what a program asks of the outside.
ghost use Rattle.std.specs.Prelude.{◌≡◌, ℕ, ◌<◌, ◌≤◌, List, [], Option, length, take, is_some, IfOk, OnOk, OnErr, IfSome};
ghost use Rattle.host_iface.specs.Faults.{HasRisen};
ghost use Rattle.host_iface.specs.Told.{led_by, followed_by};

use thiserror::Error;

/// A read or a write failed, and the count of faults of its object shows it.
#[derive(Clone, Copy, Debug, PartialEq, Eq, Error)]
#[error("the outside failed")]
pub struct Failed;

/// Where bytes come from.
pub trait Source {
    /// The bytes still to come, where the source tells them.
    ghost left: { Self → Option (List ℕ) };

    /// How often it has failed. A count that is kept in a u64 stands still at the last value.
    ghost faults: { Self → ℕ };

    /// Puts the next bytes at the front of `into`, and answers how many. The rest of `into` holds
    /// anything. 0 for an `into` that has room means that there are no more.
    fn read(&mut self, into: &mut [u8]) -> Result<usize, Failed>
        ensures within { IfOk result (λ count. count ≤ length into.new) }
        ensures bytes { IfOk result (λ count. left self.old ≡ led_by (take count into.new) (left self.new)) }
        ensures end { IfOk result (λ count. count ≡ 0 → 0 < length into.new
            → IfSome (left self.new) (λ bytes. bytes ≡ [])) }

        // A count rises with a failure alone.
        ensures same { OnOk result (faults self.new ≡ faults self.old) }

        // Which bytes are left after a failure isn't said, but they are told as before.
        ensures told { OnErr result (is_some (left self.new) ≡ is_some (left self.old)) }
        ensures failed { OnErr result (HasRisen (faults self.old) (faults self.new)) }
        ensures faults { faults self.old ≤ faults self.new };
}

/// Where bytes go to.
pub trait Sink {
    /// All bytes taken so far, where the sink tells them.
    ghost taken: { Self → Option (List ℕ) };

    /// How often it has failed. A count that is kept in a u64 stands still at the last value.
    ghost faults: { Self → ℕ };

    /// Takes bytes from the front of the piece, and answers how many: at least one, unless the piece
    /// is empty. After a failure none was taken.
    fn write(&mut self, piece: &[u8]) -> Result<usize, Failed>
        ensures within { IfOk result (λ count. count ≤ length piece.now) }
        ensures some { IfOk result (λ count. 0 < length piece.now → 0 < count) }
        ensures bytes { IfOk result (λ count. taken self.new ≡ followed_by (taken self.old) (take count piece.now)) }
        ensures same { OnOk result (faults self.new ≡ faults self.old) }
        ensures unchanged { OnErr result (taken self.new ≡ taken self.old) }
        ensures failed { OnErr result (HasRisen (faults self.old) (faults self.new)) }
        ensures faults { faults self.old ≤ faults self.new };
}
