//! One living process: its signals, its family, what it may still do, and how it waits.
ghost use Rattle.std.specs.Prelude.{◌≡◌, ◌↔◌, true, is_some, OnOk, OnErr, IfOk, IsTrue};
ghost use Rattle.std.specs.Option.{option_copied};
ghost use Rattle.kernel_model.specs.Row.{lists, ignores_children, wait};
ghost use Rattle.kernel_model.specs.Transition.{is_spent, is_doomed_by};
ghost use Rattle.kernel_model.specs.Transition as plain;
ghost use Rattle.waiting_model.specs.Calls.{waits_at, is_same_name};
ghost use Rattle.waiting_model.specs.Marks.{new_alive, plain_alive, raise_by_other, after_reply, is_parked_at, awaited_children};
ghost use Rattle.waiting_model.specs.ProcessCalls.{parent_after_fork, new_child, found_for, found_after_end, after_waiting, parent_after_end};
ghost use Rattle.waiting_model.specs.Kernel.{Living, Ended, Gone, alive_in, where_living};
ghost use Rattle.waiting_model.specs.Transition.{may_make, may_withdraw};
ghost use Rattle.mono_kernel.specs.Waited.{waited_of};
ghost use Rattle.mono_kernel.specs.Process.{after_change};
ghost use Rattle.mono_kernel.specs.Change.{with_child_there, lists_in, found_in};

use crate::family::{ChildList, Waited};
use crate::signals::SignalState;
use pico_base::{Act, Call, EndedChild, Ending, Memory, Name, Pid, Sig};
use std::alloc::Global;
use std::marker::Model;

/// What a process may still do: anything, one more entry, or nothing but its own ending.
#[derive(Clone, Copy)]
pub(crate) enum Allowance {
    Free,
    One,
    Spent,
}

/// A living process.
#[derive(Drop)]
pub(crate) struct LiveProcess {
    signals: SignalState,
    family: ChildList,
    allowance: Allowance,
    /// The call that waits.
    parked: Option<Call>,
    /// Whether a signal has struck it since its last reply.
    struck: bool,
}

impl Model for LiveProcess {
    ghost use Rattle.waiting_model.specs.Marks.{Alive};
    ghost use Rattle.mono_kernel.specs.Process.{allowance_of};

    ghost Value = { Alive };

    ghost view = { λ a. record {
      row = record { signals = a.signals; family = a.family };
      marks = record { allowance = allowance_of a.allowance; parked = a.parked; struck = a.struck };
    } };
}

/// A change of a living process that moves no living child.
#[derive(Drop)]
pub(crate) enum Change {
    /// Other signals, by a call of its own.
    Signals(SignalState),
    /// A signal that another's entry raises.
    Raise(Sig),
    /// An ended child is waited for.
    Reap { child: Pid },
    /// Nothing is left but its own ending.
    Spend,
    /// It waits in this call.
    Park(Call),
    /// It has a reply, and doesn't wait any more.
    Answer,
}

/// The queue or the set at which a call that parks waits, or the caller itself.
fn waiting_place(pid: Pid, call: &Call) -> Name
    ensures { result ≡ waits_at pid call.now }
{
    match call {
        Call::MsgSnd { id, .. } | Call::MsgRcv { id, .. } => Name::Msg(*id),
        Call::SemOp { id, .. } => Name::Sem(*id),
        _ => Name::Proc(pid),
    }
}

/// Whether two names are the same.
fn is_same_name(name: &Name, other: &Name) -> bool
    ensures { result ≡ is_same_name name.now other.now }
{
    match (name, other) {
        (Name::Proc(pid), Name::Proc(other)) => *pid == *other,
        (Name::Msg(id), Name::Msg(other)) => *id == *other,
        (Name::Sem(id), Name::Sem(other)) => *id == *other,
        _ => false,
    }
}

impl LiveProcess {
    /// Process 1, as it begins.
    pub(crate) fn new(alloc: Global) -> LiveProcess
        ensures { result ≡ new_alive }
    {
        LiveProcess {
            signals: SignalState::new(),
            family: ChildList::new(alloc),
            allowance: Allowance::Free,
            parked: None,
            struck: false,
        }
    }

    /// A forked child, as it begins.
    pub(crate) fn new_child(&self, alloc: Global) -> LiveProcess
        ensures { result ≡ new_child self.now }
    {
        LiveProcess {
            signals: self.signals.inherit(),
            family: ChildList::new(alloc),
            allowance: Allowance::Free,
            parked: None,
            struck: false,
        }
    }

    /// The signals.
    pub(crate) fn signals(&self) -> SignalState
        ensures { result ≡ self.now.row.signals }
    {
        self.signals
    }

    /// The signal by which the process will end.
    pub(crate) fn doom(&self) -> Option<Sig>
        ensures { result ≡ self.now.row.signals.doom }
    {
        self.signals.doom()
    }

    /// Whether the process may have no other entry before its ending.
    pub(crate) fn is_spent(&self) -> bool
        ensures { result ≡ is_spent self.now.marks.allowance }
    {
        match self.allowance {
            Allowance::Spent => true,
            Allowance::One | Allowance::Free => false,
        }
    }

    /// Whether it waits.
    pub(crate) fn is_parked(&self) -> bool
        ensures { result ≡ is_some self.now.marks.parked }
    {
        self.parked.is_some()
    }

    /// Whether a process that doesn't wait may make this call.
    fn may_act(&self, call: &Call) -> bool
        ensures { result ≡ plain.may_make (plain_alive self.now) call.now }
    {
        match call {
            Call::Killed { sig } => is_doomed_by(self.doom(), *sig),
            _ => !self.is_spent(),
        }
    }

    /// Whether the process may make this call.
    pub(crate) fn may_make(&self, call: &Call) -> bool
        ensures { result ≡ may_make self.now call.now }
    {
        !self.is_parked() && self.may_act(call)
    }

    /// Whether it waits at this name.
    fn is_parked_at(&self, pid: Pid, name: &Name) -> bool
        ensures { result ≡ is_parked_at pid name.now self.now.marks.parked }
    {
        match &self.parked {
            Some(call) => is_same_name(name, &waiting_place(pid, call)),
            None => false,
        }
    }

    /// Whether the process may withdraw from this name.
    pub(crate) fn may_withdraw(&self, pid: Pid, name: &Name) -> bool
        ensures { result ≡ may_withdraw pid self.now name.now }
    {
        self.struck && self.is_parked_at(pid, name)
    }

    /// Whether ended children aren't kept.
    pub(crate) fn ignores_children(&self) -> bool
        ensures { result ≡ ignores_children self.now.row }
    {
        self.signals.action(Sig::Chld) == Act::Ign
    }

    /// Whether it is a living child.
    pub(crate) fn lists(&self, child: Pid) -> bool
        ensures { result ≡ lists self.now.row.family child }
    {
        self.family.lists(child)
    }

    /// What waitpid finds.
    pub(crate) fn wait(&self, which: &Option<Pid>) -> Waited
        ensures { waited_of result ≡ wait self.now.row.family which.now }
    {
        self.family.wait(which)
    }

    /// What the waitpid finds in which the process waits, if it waits in one.
    fn found(&self) -> Waited
        ensures { waited_of result ≡ found_for self.now.row.family (awaited_children self.now.marks.parked) }
    {
        match &self.parked {
            Some(Call::WaitPid { child, .. }) => self.family.wait(child),
            _ => Waited::NotYet,
        }
    }

    /// The ended children with their endings.
    pub(crate) fn all_ended(&self, alloc: Global) -> Result<Vec<EndedChild>, Memory>
        ensures { IfOk result (λ ended. ended.items ≡ self.now.row.family.ended) }
    {
        self.family.all_ended(alloc)
    }

    /// A new child. A refusal changes nothing.
    pub(crate) fn add_child(&mut self, child: Pid) -> Result<(), Memory>
        ensures ok { OnOk result (self.new ≡ parent_after_fork self.old child) }
        ensures err { OnErr result (self.new ≡ self.old) }
    {
        self.family.add(child)?;
        Ok(())
    }

    /// A signal is raised by another's entry.
    fn raise(&mut self, sig: Sig)
        ensures { self.new ≡ raise_by_other self.old sig }
    {
        let was_doomed = self.signals.doom().is_some();
        let strikes = self.signals.is_struck_by(sig);
        self.signals.raise(sig);
        if !was_doomed && self.signals.doom().is_some() {
            self.allowance = Allowance::One;
        }
        self.struck = self.struck || strikes;
    }

    /// It has a reply, and doesn't wait any more.
    fn answer(&mut self)
        ensures { self.new ≡ after_reply self.old }
    {
        self.parked = None;
        self.struck = false;
    }

    /// A wait for children goes on, or has its reply.
    fn end_wait(&mut self, found: &Waited)
        ensures { self.new ≡ after_waiting self.old (waited_of found.now) }
    {
        match found {
            Waited::Found(child) => {
                self.family.reap(child.pid);
                self.answer();
            }
            Waited::NotYet => (),
            Waited::NoChild => self.answer(),
        }
    }

    /// A child has ended. Gives what a waitpid finds in which the process waited.
    pub(crate) fn end_child(&mut self, child: Pid, ending: Ending) -> Waited
        requires { lists self.old.row.family child ≡ true }
        ensures found { waited_of result ≡ found_after_end self.old child ending }
        ensures ended { self.new ≡ parent_after_end self.old child ending }
    {
        let ignored = self.ignores_children();
        self.family.end(child, ending, ignored);
        let found = self.found();
        self.end_wait(&found);
        if !ignored {
            self.raise(Sig::Chld);
        }
        found
    }

    /// Makes a change.
    #[inline(always)]
    fn change(&mut self, change: Change)
        ensures { self.new ≡ after_change change self.old }
    {
        match change {
            Change::Signals(signals) => self.signals = signals,
            Change::Raise(sig) => self.raise(sig),
            Change::Reap { child } => self.family.reap(child),
            Change::Spend => self.allowance = Allowance::Spent,
            Change::Park(call) => self.parked = Some(call),
            Change::Answer => self.answer(),
        }
    }
}

/// Whether the process will end by this signal.
fn is_doomed_by(doom: Option<Sig>, sig: Sig) -> bool
    ensures { result ≡ is_doomed_by doom sig }
{
    match doom {
        Some(doom) => doom as u8 == sig as u8,
        None => false,
    }
}

/// A process, living or not.
#[derive(Drop)]
enum State {
    Living(LiveProcess),
    Ended(Ending),
    Gone,
}

/// A process's place in the table.
#[derive(Drop)]
pub(crate) struct ProcessCell {
    state: State,
}

impl Model for ProcessCell {
    ghost use Rattle.waiting_model.specs.Kernel.{Process};

    ghost Value = { Process };

    ghost use Rattle.mono_kernel.specs.Cell.{process_of};

    ghost view = { λ c. process_of c.state };
}

impl ProcessCell {
    /// A living process.
    pub(crate) fn living(alive: LiveProcess) -> ProcessCell
        ensures { result ≡ Living alive }
    {
        ProcessCell {
            state: State::Living(alive),
        }
    }

    /// A process that ended and is kept for its parent.
    pub(crate) fn ended(ending: Ending) -> ProcessCell
        ensures { result ≡ Ended ending }
    {
        ProcessCell {
            state: State::Ended(ending),
        }
    }

    /// A process that is gone.
    pub(crate) fn gone() -> ProcessCell
        ensures { result ≡ Gone }
    {
        ProcessCell { state: State::Gone }
    }

    /// The living process.
    pub(crate) fn alive(&self) -> Option<&LiveProcess>
        ensures { option_copied result ≡ alive_in self.now }
    {
        match &self.state {
            State::Living(alive) => Some(alive),
            State::Ended(_) | State::Gone => None,
        }
    }

    /// Whether the process is gone.
    pub(crate) fn is_gone(&self) -> bool
        ensures { IsTrue result ↔ (self.now ≡ Gone) }
    {
        match &self.state {
            State::Living(_) | State::Ended(_) => false,
            State::Gone => true,
        }
    }

    /// Makes a change, if the process lives.
    #[inline(always)]
    pub(crate) fn change(&mut self, change: Change)
        ensures { self.new ≡ where_living (after_change change) self.old }
    {
        match &mut self.state {
            State::Living(alive) => alive.change(change),
            State::Ended(_) | State::Gone => (),
        }
    }

    /// A child has ended, if the process lives.
    pub(crate) fn end_child(&mut self, child: Pid, ending: Ending) -> Waited
        requires { lists_in child self.old }
        ensures found { waited_of result ≡ found_in child ending self.old }
        ensures ended { self.new ≡ where_living (λ a. parent_after_end a child ending) self.old }
    {
        match &mut self.state {
            State::Living(alive) => alive.end_child(child, ending),
            State::Ended(_) | State::Gone => Waited::NotYet,
        }
    }

    /// A new child, if the process lives. A refusal changes nothing.
    pub(crate) fn add_child(&mut self, child: Pid) -> Result<(), Memory>
        ensures ok { OnOk result (self.new ≡ with_child_there child self.old) }
        ensures err { OnErr result (self.new ≡ self.old) }
    {
        match &mut self.state {
            State::Living(alive) => alive.add_child(child)?,
            State::Ended(_) | State::Gone => (),
        }
        Ok(())
    }
}
