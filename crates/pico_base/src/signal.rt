//! Signals, sets of them, and what a process does about them.
ghost use Rattle.std.specs.Prelude.{◌≡◌, true, false, IsTrue, ◌↔◌};
ghost use Rattle.pico_base.specs.Signal.{at, put_at, everywhere, signal_from};

use std::marker::Model;

/// A signal, in the order of the table: it numbers the signals from 1 and is the order in which sets
/// are printed and pending signals are taken.
#[derive(Clone, Copy, Debug, PartialEq, Eq)]
pub enum Sig {
    Hup = 1,
    Int = 2,
    Quit = 3,
    Kill = 4,
    Usr1 = 5,
    Usr2 = 6,
    Pipe = 7,
    Alrm = 8,
    Term = 9,
    Chld = 10,
}

/// The signals, in the order of the table.
pub const SIGNALS: [Sig; 10] = [
    Sig::Hup,
    Sig::Int,
    Sig::Quit,
    Sig::Kill,
    Sig::Usr1,
    Sig::Usr2,
    Sig::Pipe,
    Sig::Alrm,
    Sig::Term,
    Sig::Chld,
];

impl Sig {
    /// The signal with this number; none where the number is no signal's.
    pub fn from_number(number: u8) -> Option<Sig>
        ensures { result ≡ signal_from number }
    {
        match number {
            1 => Some(Sig::Hup),
            2 => Some(Sig::Int),
            3 => Some(Sig::Quit),
            4 => Some(Sig::Kill),
            5 => Some(Sig::Usr1),
            6 => Some(Sig::Usr2),
            7 => Some(Sig::Pipe),
            8 => Some(Sig::Alrm),
            9 => Some(Sig::Term),
            10 => Some(Sig::Chld),
            _ => None,
        }
    }
}

/// A value for each signal.
#[derive(Clone, Copy, Debug, PartialEq, Eq)]
pub struct PerSignal<T> {
    pub hup: T,
    pub int: T,
    pub quit: T,
    pub kill: T,
    pub usr1: T,
    pub usr2: T,
    pub pipe: T,
    pub alrm: T,
    pub term: T,
    pub chld: T,
}

impl<T: Copy> PerSignal<T> {
    /// The same value for each signal.
    pub fn all(value: T) -> Self
        ensures { result ≡ everywhere value }
    {
        PerSignal {
            hup: value,
            int: value,
            quit: value,
            kill: value,
            usr1: value,
            usr2: value,
            pipe: value,
            alrm: value,
            term: value,
            chld: value,
        }
    }

    /// The value for this signal.
    pub fn get(&self, sig: Sig) -> T
        ensures { result ≡ at self.now sig }
    {
        match sig {
            Sig::Hup => self.hup,
            Sig::Int => self.int,
            Sig::Quit => self.quit,
            Sig::Kill => self.kill,
            Sig::Usr1 => self.usr1,
            Sig::Usr2 => self.usr2,
            Sig::Pipe => self.pipe,
            Sig::Alrm => self.alrm,
            Sig::Term => self.term,
            Sig::Chld => self.chld,
        }
    }

    /// Sets the value for this signal; the others stay.
    pub fn set(&mut self, sig: Sig, value: T)
        ensures { self.new ≡ put_at self.old sig value }
    {
        match sig {
            Sig::Hup => self.hup = value,
            Sig::Int => self.int = value,
            Sig::Quit => self.quit = value,
            Sig::Kill => self.kill = value,
            Sig::Usr1 => self.usr1 = value,
            Sig::Usr2 => self.usr2 = value,
            Sig::Pipe => self.pipe = value,
            Sig::Alrm => self.alrm = value,
            Sig::Term => self.term = value,
            Sig::Chld => self.chld = value,
        }
    }
}

/// A set of signals.
#[derive(Clone, Copy, Debug, PartialEq, Eq)]
pub struct SigSet {
    members: PerSignal<bool>,
}

impl Model for SigSet {
    ghost use Rattle.std.specs.Prelude.{Bool};
    ghost use Rattle.pico_base.specs.declared.signal.PerSignal.{PerSignal};

    ghost Value = { PerSignal Bool };

    ghost view = { λ s. s.members };

    ghost inverse = { λ m. record { members = m } };
}

impl SigSet {
    /// The set of no signal.
    pub fn empty() -> SigSet
        ensures { result ≡ everywhere false }
    {
        SigSet {
            members: PerSignal::all(false),
        }
    }

    /// Whether no signal is in the set.
    pub fn is_empty(self) -> bool
        ensures { IsTrue result ↔ (self ≡ everywhere false) }
    {
        self == SigSet::empty()
    }

    /// Whether the signal is in the set.
    pub fn has(self, sig: Sig) -> bool
        ensures { result ≡ at self sig }
    {
        self.members.get(sig)
    }

    /// The set with this signal in it.
    pub fn with(self, sig: Sig) -> SigSet
        ensures { result ≡ put_at self sig true }
    {
        let mut members = self.members;
        members.set(sig, true);
        SigSet { members }
    }

    /// The set without this signal.
    pub fn without(self, sig: Sig) -> SigSet
        ensures { result ≡ put_at self sig false }
    {
        let mut members = self.members;
        members.set(sig, false);
        SigSet { members }
    }
}

/// A signal as `kill` and `sigaction` take it: 0, a signal, or a number that is no signal's.
#[derive(Clone, Copy, Debug, PartialEq, Eq)]
pub enum SigArg {
    Zero,
    Is(Sig),
    Bad,
}

/// What a signal does at a process: its default, nothing, or a handler that counts it.
#[derive(Clone, Copy, Debug, PartialEq, Eq)]
pub enum Act {
    Dfl,
    Ign,
    Catch,
}

/// How `sigprocmask` changes the mask.
#[derive(Clone, Copy, Debug, PartialEq, Eq)]
pub enum How {
    Block,
    Unblock,
    SetMask,
}
