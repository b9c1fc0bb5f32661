//! The signals of one process: actions, mask, what is pending, and the doom.
ghost use Rattle.std.specs.Prelude.{◌≡◌, false, fold, MatchResult, Ok, Err};
ghost use Rattle.pico_base.specs.Signal.{at, put_at, everywhere};
ghost use Rattle.kernel_model.specs.Signals.{new_signals, inherit, raise, arrive, deliver, discards, with_action, act_on, with_mask, new_mask};
ghost use Rattle.waiting_model.specs.Marks.{strikes};
ghost use Rattle.mono_kernel.specs.Masks.{mask_bit, mask_with_bit};

use pico_base::{Act, Errno, How, PerSignal, SIGNALS, Sig, SigArg, SigSet};
use std::marker::Model;

/// What a process knows of signals: an action and a count of catches for each, the mask, the pending
/// ones, and the signal by which it will end.
#[derive(Clone, Copy)]
pub(crate) struct SignalState {
    actions: PerSignal<Act>,
    mask: SigSet,
    pending: SigSet,
    handled: PerSignal<u32>,
    doom: Option<Sig>,
}

impl Model for SignalState {
    ghost use Rattle.kernel_model.specs.Signals.{Signals};

    ghost Value = { Signals };

    ghost view = { λ s. record {
      actions = s.actions;
      mask = s.mask;
      pending = s.pending;
      handled = s.handled;
      doom =
          s.doom;
    } };

    ghost inverse = { λ s. record {
      actions = s.actions;
      mask = s.mask;
      pending = s.pending;
      handled = s.handled;
      doom =
          s.doom;
    } };
}

/// Whether this action discards the signal.
fn is_discarded(act: Act, sig: Sig) -> bool
    ensures { result ≡ discards act sig }
{
    match act {
        Act::Ign => true,
        Act::Dfl => sig == Sig::Chld,
        Act::Catch => false,
    }
}

/// Whether a signal is masked, by whether it was and whether it is in the set.
fn stays_masked(how: How, masked: bool, in_set: bool) -> bool
    ensures { result ≡ mask_bit how masked in_set }
{
    match how {
        How::Block => masked || in_set,
        How::Unblock => masked && !in_set,
        How::SetMask => in_set,
    }
}

/// The set with the signal in it, or without it.
fn with_or_without(set: SigSet, sig: Sig, is_in: bool) -> SigSet
    ensures { result ≡ put_at set sig is_in }
{
    if is_in {
        set.with(sig)
    } else {
        set.without(sig)
    }
}

/// The new mask, in which KILL never is.
fn mask_of(how: How, old: SigSet, set: SigSet) -> SigSet
    ensures { result ≡ new_mask how old set }
{
    masked_of(how, old, set, &SIGNALS).without(Sig::Kill)
}

/// The mask, of these signals alone.
fn masked_of(how: How, old: SigSet, set: SigSet, signals: &[Sig]) -> SigSet
    ensures { result ≡ fold (mask_with_bit how old set) (everywhere false) signals.now }
{
    let mut mask = SigSet::empty();
    for sig in signals {
        mask = with_or_without(mask, *sig, stays_masked(how, old.has(*sig), set.has(*sig)));
    }
    mask
}

impl SignalState {
    /// Default actions, and nothing masked, pending or caught.
    pub(crate) fn new() -> SignalState
        ensures { result ≡ new_signals }
    {
        SignalState {
            actions: PerSignal::all(Act::Dfl),
            mask: SigSet::empty(),
            pending: SigSet::empty(),
            handled: PerSignal::all(0),
            doom: None,
        }
    }

    /// What a forked child begins with.
    pub(crate) fn inherit(&self) -> SignalState
        ensures { result ≡ inherit self.now }
    {
        SignalState {
            actions: self.actions,
            mask: self.mask,
            pending: SigSet::empty(),
            handled: PerSignal::all(0),
            doom: None,
        }
    }

    /// Whether the signal is to be ignored.
    pub(crate) fn action(&self, sig: Sig) -> Act
        ensures { result ≡ at self.now.actions sig }
    {
        self.actions.get(sig)
    }

    /// The signal arrives: it is caught and counted, or ends the process.
    fn arrive(&mut self, sig: Sig)
        ensures { self.new ≡ arrive self.old sig }
    {
        match self.actions.get(sig) {
            Act::Catch => {
                let count = self.handled.get(sig);
                self.handled.set(sig, count.saturating_add(1));
            }
            Act::Dfl | Act::Ign => self.doom = Some(sig),
        }
    }

    /// Whether the signal strikes: the process isn't doomed, and the signal is neither discarded nor held
    /// off by the mask.
    pub(crate) fn is_struck_by(&self, sig: Sig) -> bool
        ensures { result ≡ strikes self.now sig }
    {
        self.doom.is_none()
            && (sig == Sig::Kill
                || (!is_discarded(self.actions.get(sig), sig) && !self.mask.has(sig)))
    }

    /// The signal is raised (POSIX.1-2017: kill, and the end of a child).
    pub(crate) fn raise(&mut self, sig: Sig)
        ensures { self.new ≡ raise self.old sig }
    {
        if self.doom.is_some() {
            return;
        }
        if sig == Sig::Kill {
            self.doom = Some(sig);
        } else if is_discarded(self.actions.get(sig), sig) {} else if self.mask.has(sig) {
            self.pending = self.pending.with(sig);
        } else {
            self.arrive(sig);
        }
    }

    /// A pending signal that isn't masked arrives, unless the process is doomed.
    fn deliver(&mut self, sig: Sig)
        ensures { self.new ≡ deliver self.old sig }
    {
        if self.doom.is_none() && self.pending.has(sig) && !self.mask.has(sig) {
            self.pending = self.pending.without(sig);
            self.arrive(sig);
        }
    }

    /// sigprocmask: gives the old mask.
    pub(crate) fn change_mask(&mut self, how: How, set: SigSet) -> SigSet
        ensures masked { self.new ≡ with_mask self.old how set }
        ensures mask { result ≡ self.old.mask }
    {
        let old = self.mask;
        self.mask = mask_of(how, old, set);
        self.deliver_all(&SIGNALS);
        old
    }

    /// The same for each of these signals, in order.
    fn deliver_all(&mut self, signals: &[Sig])
        ensures { self.new ≡ fold deliver self.old signals.now }
    {
        for sig in signals {
            self.deliver(*sig);
        }
    }

    /// sigaction: EINVAL for KILL, 0 and a number that is no signal's.
    pub(crate) fn act(&mut self, sig: SigArg, act: Act) -> Result<(), Errno>
        ensures { MatchResult result (λ _. act_on self.old sig act ≡ Ok self.new)
            (λ e. (act_on self.old sig act ≡ Err e) × (self.new ≡ self.old)) }
    {
        let SigArg::Is(sig) = sig else {
            return Err(Errno::Einval);
        };
        if sig == Sig::Kill {
            return Err(Errno::Einval);
        }
        let stays = self.pending.has(sig) && !is_discarded(act, sig);
        self.actions.set(sig, act);
        self.pending = with_or_without(self.pending, sig, stays);
        Ok(())
    }

    /// The pending signals.
    pub(crate) fn pending(&self) -> SigSet
        ensures { result ≡ self.now.pending }
    {
        self.pending
    }

    /// How often the signal was caught.
    pub(crate) fn handled(&self, sig: Sig) -> u32
        ensures { result ≡ at self.now.handled sig }
    {
        self.handled.get(sig)
    }

    /// The signal by which the process will end.
    pub(crate) fn doom(&self) -> Option<Sig>
        ensures { result ≡ self.now.doom }
    {
        self.doom
    }
}
