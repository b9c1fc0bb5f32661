//! The rest of the range of new numbers that a node was leased.
#![tactic(auto)]

ghost use Rattle.std.specs.Prelude.{◌≡◌, ◌+◌, ◌<◌, ◌^◌, ◌↔◌, [], ◌∷◌, IsTrue, IfSome, IfNone, Contains};
ghost use Rattle.std.specs.List.{range_with_len};
ghost use Rattle.std.specs.List.Sorted.{IsStrictlyIncreasing};

use std::marker::Model;

/// How many numbers a lease brings.
pub const LEASE: u32 = 8;

/// The numbers that are left of the last range, which contracts see as the list of them in rising
/// order. Each of them can be given to one new process, queue or set, and to no second one.
///
/// The profile's own: POSIX.1-2017 leaves open which number a new thing gets.
#[derive(Debug, Drop)]
pub struct Lease {
    next: u64,
    end: u64,
}

impl Model for Lease {
    ghost use Rattle.std.specs.Prelude.{◌-◌, ◌≤◌, ◌^◌, List, ℕ};
    ghost use Rattle.std.specs.List.{range_with_len};

    ghost Value = { List ℕ };

    ghost view = { λ l. range_with_len l.next (l.end - l.next) };

    ghost invariant = { λ l. (l.next ≤ l.end) × (l.end ≤ 2 ^ 32) };
}

impl Lease {
    /// A lease of which nothing is left.
    pub fn empty() -> Lease
        ensures { result ≡ [] }
    {
        Lease { next: 0, end: 0 }
    }

    /// Puts the eight numbers from `first` on into a lease that is used up.
    pub fn refill(&mut self, first: u32)
        requires used_up { self.old ≡ [] }
        requires fits { first + 7 < 2 ^ 32 }
        ensures { self.new ≡ range_with_len first 8 }
    {
        self.next = u64::from(first);
        self.end = self.next + u64::from(LEASE);
    }

    /// Takes the least number that is left, or answers `None` where the lease is used up.
    pub fn take(&mut self) -> Option<u32>
        ensures rising { IsStrictlyIncreasing self.old }
        ensures first { IfSome result (λ number. self.old ≡ number ∷ self.new) }
        ensures used_up { IfNone result ((self.old ≡ []) × (self.new ≡ [])) }
    {
        if self.next == self.end {
            return None;
        }
        let number = self.next as u32;
        self.next += 1;
        Some(number)
    }

    /// Whether no number is left.
    pub fn is_used_up(&self) -> bool
        ensures { IsTrue result ↔ (self.now ≡ []) }
    {
        self.next == self.end
    }

    /// Whether the number is still to be taken.
    pub fn holds(&self, number: u32) -> bool
        ensures { IsTrue result ↔ Contains self.now number }
    {
        let number = u64::from(number);
        self.next <= number && number < self.end
    }
}
