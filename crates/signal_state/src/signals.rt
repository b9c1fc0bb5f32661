//! The signals of one process, and the bytes that they travel as.
ghost use Rattle.std.specs.List.{list_all};
ghost use Rattle.std.specs.Prelude.{◌≡◌, ◌↔◌, Some, Ok, Err, IfSome, IfErr, IsTrue, OnOk, fold, not, ◌&&◌, ◌||◌};
ghost use Rattle.kernel_model.specs.Row.{is_ign};
ghost use Rattle.kernel_model.specs.Signals.{Signals as State, act_on, arrive, deliver, discards, inherit, is_kill, new_mask, new_signals, raise, with_mask};
ghost use Rattle.pico_base.specs.Signal.{at, put_at};
ghost use Rattle.signal_state.specs.Arriving.{arrives};
ghost use Rattle.signal_state.specs.Held.{AreHeld, is_kept};
ghost use Rattle.signal_state.specs.Spelling.{HasBytes, signal_bytes};

use crate::PACKED;
use crate::reading::{actions_of, counts_of, set_of_bytes};
use crate::writing::{doom_byte, number_of, write_actions, write_bytes, write_counts};
use arrayvec::ArrayVec;
use pico_base::{Act, Errno, How, PerSignal, SIGNALS, Sig, SigArg, SigSet};
use std::marker::Model;

/// A process's signal state (POSIX.1-2017: Signal Concepts), which contracts see as the kernel's.
#[derive(Debug, Drop)]
pub struct Signals {
    actions: PerSignal<Act>,
    mask: SigSet,
    pending: SigSet,
    handled: PerSignal<u32>,
    doom: Option<Sig>,
}

impl Model for Signals {
    ghost use Rattle.kernel_model.specs.Signals.{Signals as State};
    ghost use Rattle.signal_state.specs.Held.{IsHeld};

    ghost Value = { State };

    ghost view = { λ s. record {
      actions = s.actions;
      mask = s.mask;
      pending = s.pending;
      handled = s.handled;
      doom = s.doom;
    } };

    ghost invariant = { λ s. IsHeld
        (record { actions = s.actions; mask = s.mask; pending = s.pending; handled = s.handled; doom = s.doom }) };
}

impl Signals {
    /// The state of process 1 at first: default actions, and nothing masked, pending or caught.
    pub fn new() -> Signals
        ensures { result ≡ new_signals }
    {
        Signals {
            actions: PerSignal::all(Act::Dfl),
            mask: SigSet::empty(),
            pending: SigSet::empty(),
            handled: PerSignal::all(0),
            doom: None,
        }
    }

    /// The state of a forked child (`fork`): its parent's actions and mask, with nothing pending. That no
    /// signal counts as caught is the profile's own.
    pub fn inherit(&self) -> Signals
        ensures { result ≡ inherit self.now }
    {
        let mut child = Signals::new();
        child.actions = self.actions;
        child.mask = self.mask;
        child
    }

    /// Gives the signal an action (`sigaction`); a pending signal that the action discards is gone.
    ///
    /// EINVAL where the signal is KILL, 0 or no signal's number, and nothing has changed.
    pub fn act(&mut self, sig: SigArg, act: Act) -> Result<(), Errno>
        ensures ok { OnOk result (act_on self.old sig act ≡ Ok self.new) }
        ensures err { IfErr result (λ e. (act_on self.old sig act ≡ Err e) × (self.new ≡ self.old)) }
    {
        let SigArg::Is(sig) = sig else {
            return Err(Errno::Einval);
        };
        if is_kill(sig) {
            return Err(Errno::Einval);
        }
        let stays = self.pending.has(sig) && !discards(act, sig);
        self.actions.set(sig, act);
        self.pending = with(self.pending, sig, stays);
        Ok(())
    }

    /// Changes the mask (`sigprocmask`) and gives the old one. KILL is never masked. Then each pending
    /// signal that isn't masked arrives, in table order, until one ends the process.
    pub fn mask(&mut self, how: How, set: SigSet) -> SigSet
        ensures old { result ≡ self.old.mask }
        ensures masked { self.new ≡ with_mask self.old how set }
    {
        let old = self.mask;
        self.mask = changed_mask(old, how, set);
        self.deliver_each(&SIGNALS);
        old
    }

    /// Raises a signal at the process (`kill`): a doomed process takes no notice, KILL dooms it, a
    /// discarded signal is gone, a masked one is pending, and any other arrives.
    pub fn raise(&mut self, sig: Sig)
        ensures { self.new ≡ raise self.old sig }
    {
        if self.doom.is_some() {
            return;
        }
        if is_kill(sig) {
            self.doom = Some(sig);
        } else if discards(self.actions.get(sig), sig) {
            // The signal is gone.
        } else if self.mask.has(sig) {
            self.pending = self.pending.with(sig);
        } else {
            self.arrive(sig);
        }
    }

    /// A signal arrives: a handler catches and counts it, or the process is doomed by it.
    fn arrive(&mut self, sig: Sig)
        ensures { self.new ≡ arrive self.old sig }
    {
        match self.actions.get(sig) {
            Act::Catch => {
                let count = self.handled.get(sig);
                self.handled.set(sig, count.saturating_add(1));
            }
            Act::Dfl | Act::Ign => self.doom = Some(sig),
        }
    }

    /// The signal arrives if it is pending and not masked and the process isn't doomed.
    fn deliver(&mut self, sig: Sig)
        ensures { self.new ≡ deliver self.old sig }
    {
        if self.doom.is_none() && self.pending.has(sig) && !self.mask.has(sig) {
            self.pending = self.pending.without(sig);
            self.arrive(sig);
        }
    }

    /// Each of these signals that is pending and not masked arrives, in this order. Mostly none is pending, and then
    /// none is looked at.
    fn deliver_each(&mut self, sigs: &[Sig])
        ensures { self.new ≡ fold deliver self.old sigs.now }
    {
        if self.pending.is_empty() {
            return;
        }
        for sig in sigs {
            self.deliver(*sig);
        }
    }

    /// The signals that are pending (`sigpending`).
    pub fn pending(&self) -> SigSet
        ensures { result ≡ self.now.pending }
    {
        self.pending
    }

    /// How often the signal was caught. The count stays at 4294967295 (the profile's own).
    pub fn handled(&self, sig: Sig) -> u32
        ensures { result ≡ at self.now.handled sig }
    {
        self.handled.get(sig)
    }

    /// The signal by which the process will end, or `None` where it isn't doomed.
    pub fn doom(&self) -> Option<Sig>
        ensures { result ≡ self.now.doom }
    {
        self.doom
    }

    /// Whether the signal arrives as soon as it is raised: the process isn't doomed, and the signal is KILL, or neither
    /// discarded nor masked.
    pub fn arrives(&self, sig: Sig) -> bool
        ensures { result ≡ arrives self.now sig }
    {
        if self.doom.is_some() {
            return false;
        }
        is_kill(sig) || (!discards(self.actions.get(sig), sig) && !self.mask.has(sig))
    }

    /// Whether the action for the signal is to ignore it.
    pub fn ignores(&self, sig: Sig) -> bool
        ensures { result ≡ is_ign (at self.now.actions sig) }
    {
        matches!(self.actions.get(sig), Act::Ign)
    }

    /// How often each signal was caught.
    fn counts(&self) -> PerSignal<u32>
        ensures { result ≡ self.now.handled }
    {
        self.handled
    }

    /// The state as bytes: ten actions, the mask and the pending set in two bytes each, ten counts in four
    /// bytes each and the doom. Numbers have their high bytes first.
    #[tactic(auto, unfolding(crate::specs::Spelling::signal_bytes))]
    pub fn pack(&self) -> [u8; PACKED]
        ensures bytes { result ≡ signal_bytes self.now }
        ensures state { HasBytes self.now }
    {
        let counts = self.counts();
        let mut packing = ArrayVec::new();
        write_actions(&mut packing, &self.actions, &SIGNALS);
        write_bytes(&mut packing, &number_of(self.mask, &SIGNALS).to_be_bytes());
        write_bytes(
            &mut packing,
            &number_of(self.pending, &SIGNALS).to_be_bytes(),
        );
        write_counts(&mut packing, &counts, &SIGNALS);
        packing.push(doom_byte(self.doom));
        packing.into_inner().unwrap()
    }

    /// The state of these bytes, or `None` where no state has them: another length, a byte that isn't in
    /// its field's range, KILL in a set or with another action than its default, or a pending signal that
    /// its action discards.
    pub fn unpack(bytes: &[u8]) -> Option<Signals>
        ensures found { IfSome result (λ s. (bytes.now ≡ signal_bytes s) × HasBytes s) }
        ensures only { (s : State) → HasBytes s → bytes.now ≡ signal_bytes s → result ≡ Some s }
    {
        if bytes.len() != PACKED {
            return None;
        }
        let actions = actions_of(bytes);
        let mask = set_of_bytes(bytes, 10);
        let pending = set_of_bytes(bytes, 12);
        if !is_held(&actions, mask, pending) {
            return None;
        }
        let signals = Signals {
            actions,
            mask,
            pending,
            handled: counts_of(bytes),
            doom: Sig::from_number(bytes[54]),
        };
        // What these fields are spelled as is what was read exactly where the bytes are in their ranges.
        if signals.pack().as_slice() == bytes {
            Some(signals)
        } else {
            None
        }
    }
}

/// Whether a process can have these actions, this mask and these pending signals.
fn is_held(actions: &PerSignal<Act>, mask: SigSet, pending: SigSet) -> bool
    ensures { IsTrue result ↔ AreHeld actions.now mask pending }
{
    let Act::Dfl = actions.kill else {
        return false;
    };
    if mask.has(Sig::Kill) || pending.has(Sig::Kill) {
        return false;
    }
    all_kept(actions, pending, &SIGNALS)
}

/// Whether none of these signals is pending with an action that discards it.
fn all_kept(actions: &PerSignal<Act>, pending: SigSet, sigs: &[Sig]) -> bool
    ensures { result ≡ list_all (λ g. is_kept actions.now pending g) sigs.now }
{
    sigs.iter().all(|sig| !(pending.has(*sig) && discards(actions.get(*sig), *sig)))
}

/// Whether the signal is KILL.
fn is_kill(sig: Sig) -> bool
    ensures { result ≡ is_kill sig }
{
    matches!(sig, Sig::Kill)
}

/// Whether the action discards the signal: to ignore it, or CHLD's default.
fn discards(act: Act, sig: Sig) -> bool
    ensures { result ≡ discards act sig }
{
    match act {
        Act::Ign => true,
        Act::Dfl => matches!(sig, Sig::Chld),
        Act::Catch => false,
    }
}

/// The mask that this change makes of the old one.
fn changed_mask(old: SigSet, how: How, set: SigSet) -> SigSet
    ensures { result ≡ new_mask how old set }
{
    let mask = match how {
        How::Block => union(old, set, &SIGNALS),
        How::Unblock => difference(old, set, &SIGNALS),
        How::SetMask => set,
    };
    mask.without(Sig::Kill)
}

/// The set with this signal in it or not.
fn with(set: SigSet, sig: Sig, there: bool) -> SigSet
    ensures { result ≡ put_at set sig there }
{
    if there {
        set.with(sig)
    } else {
        set.without(sig)
    }
}

/// The signals of either set, of these signals, and of the first set alone elsewhere.
fn union(a: SigSet, b: SigSet, sigs: &[Sig]) -> SigSet
    ensures { result ≡ fold (λ s g. put_at s g (at a g || at b g)) a sigs.now }
{
    let mut set = a;
    for sig in sigs {
        set = with(set, *sig, a.has(*sig) | b.has(*sig));
    }
    set
}

/// The first set without these signals, where they are in the second.
fn difference(a: SigSet, b: SigSet, sigs: &[Sig]) -> SigSet
    ensures { result ≡ fold (λ s g. put_at s g (at a g && not (at b g))) a sigs.now }
{
    let mut set = a;
    for sig in sigs {
        set = with(set, *sig, a.has(*sig) & !b.has(*sig));
    }
    set
}
