//! The parts of a node that logs, and the turn that they make.
ghost use Rattle.std.specs.Prelude.{◌≡◌, ◌≤◌, ℕ, IfErr, IfOk, IfSome, OnOk, Some, None, Err, IsSome, IsTrue, true, ◌||◌};
ghost use Rattle.kernel_model.specs.Script.{IsSoundScript};
ghost use Rattle.world_model.specs.Node.{can_run, is_born};
ghost use Rattle.world_model.specs.World.{is_checkpoint};
ghost use Rattle.log_laws.specs.Logs.{Runs, Takes, stamped};
ghost use Rattle.log_laws.specs.Merge.{event_at};
ghost use Rattle.log_model.specs.declared.answer.LogFault.TheVariants as faults;
ghost use Rattle.log_model.specs.Forkers.{forker_of};
ghost use Rattle.log_model.specs.Logged.{IsOfScript};
ghost use Rattle.log_model.specs.Turns.{IsTurnOrSpent, floor_of, may_send, rule_of};
ghost use Rattle.node_lines.specs.Lines.{after_silences};
ghost use Rattle.node_core.specs.Lives.{has_left};
ghost use Rattle.node_log.specs.Steps.{IsWaiting, IsSentTurn, HasNoStep, IsTurnFault, IsStampFault, sent_step};

use crate::looks::found_by;
use crate::made::{Made, made_of};
use crate::parting::Log;
use crate::stamps::note_event;
use host_iface::Gate;
use journal_core::{JSeat, JournalLock};
use log_model::{Found, LogFault};
use node_core::{Input, PicoNode, Turn};
use node_lines::{Line, Lines, are_silent, may_send, note_silences, send_each};
use node_state::TurnFault;
use pico_base::{Event, Node, Script};
use rpc_frame::Frame;
use std::alloc::Global;
use std::sync::Wait;

/// What a node's turns work on: its number, the machine's node, the node that forks it once that was looked up, the
/// last stamp, the events, the streams, and the seat at the journal.
#[derive(Drop)]
pub(crate) struct Works {
    pub alloc: Global,
    pub number: Node,
    pub node: PicoNode,
    pub forker: Option<Node>,
    pub clock: u64,
    pub log: Log,
    pub lines: Lines,
    pub seat: JSeat,
}

/// What the machine's node does with an input, where all that it sends may be sent on these lines. Where it has no
/// rule, or one that sends what may not be sent, the answer is BadFrame, and nothing is said of the node.
fn turned(
    node: &mut PicoNode,
    script: &Script,
    lines: &[Line],
    input: Input,
) -> Result<Turn, LogFault>
    requires sound { IsSoundScript script.now }
    ensures ok { IfOk result (λ turn. IsSentTurn script.now lines.now node.old input node.new turn) }
    ensures bad { result ≡ Err faults.BadFrame → HasNoStep (sent_step script.now lines.now input) node.old }
    ensures cause { IfErr result IsTurnFault }
{
    let turn = match node.turn(script, input) {
        Ok(turn) => turn,
        Err(TurnFault::NotAllowed) => return Err(LogFault::BadFrame),
        Err(TurnFault::Memory) => return Err(LogFault::Memory),
    };
    if !may_send(lines, turn.sends.as_slice()) {
        return Err(LogFault::BadFrame);
    }
    Ok(turn)
}

/// Whether it is the frame by which a node is born.
fn is_checkpoint(frame: &Frame) -> bool
    ensures { result ≡ is_checkpoint frame.now }
{
    matches!(frame, Frame::Checkpoint { .. })
}

/// Whether a node takes the frame: it is born, or the frame is the one by which it is.
fn may_take(node: &PicoNode, frame: &Frame) -> bool
    requires whole { IsSome node.now }
    ensures { IfSome node.now (λ n. result ≡ is_born n || is_checkpoint frame.now) }
{
    node.born() || is_checkpoint(frame)
}

impl Works {
    ghost use Rattle.node_log.specs.Parts.{IsNoted, IsUnnoted, IsSamePlace, IsMade, IsUnmade, IsFull, view_with, answer_after, fault_after, quiet_after};

    /// Notes an event that the node has made: it gets its stamp, its entries go into the journal and it into the log,
    /// and its frames are sent.
    fn note<R: Wait>(
        &mut self,
        rt: &R,
        lock: &JournalLock,
        floor: u64,
        event: Event,
        turn: Turn,
    ) -> Result<(), LogFault>
        requires lock { self.old.seat.lock ≡ lock.now.id }
        requires may { IsTrue (may_send self.old.lines.items turn.sends) }
        ensures ok { OnOk result (IsNoted self.old floor event turn.entries turn.sends self.new) }
        ensures end { (last : ℕ) → result ≡ Err (faults.StampEnd last)
            → IsUnnoted self.old floor turn.entries self.new last }
        ensures cause { IfErr result IsStampFault }
        ensures node { self.new.node ≡ self.old.node }
        ensures forker { self.new.forker ≡ self.old.forker }
        ensures same { IsSamePlace self.old self.new }
    {
        let Turn { entries, sends } = turn;
        let event = (self.number, event);
        let stamp = note_event(
            rt,
            lock,
            &mut self.seat,
            &mut self.log,
            floor,
            event,
            entries,
        )?;
        self.clock = stamp;
        if send_each(rt, self.alloc, &mut self.lines, stamp, sends.as_slice()).is_err() {
            return Err(LogFault::Memory);
        }
        Ok(())
    }

    /// Makes the event of an input, under a stamp above the floor.
    fn make<R: Wait>(
        &mut self,
        rt: &R,
        lock: &JournalLock,
        script: &Script,
        floor: u64,
        event: Event,
        input: Input,
    ) -> Result<(), LogFault>
        requires sound { IsSoundScript script.now }
        requires lock { self.old.seat.lock ≡ lock.now.id }
        ensures ok { OnOk result
            (IsMade (sent_step script.now self.old.lines.items input) floor event self.old self.new) }
        ensures bad { result ≡ Err faults.BadFrame
            → IsUnmade (sent_step script.now self.old.lines.items input) self.old self.new }
        ensures end { (last : ℕ) → result ≡ Err (faults.StampEnd last)
            → IsFull (sent_step script.now self.old.lines.items input) floor self.old self.new last }
        ensures forker { self.new.forker ≡ self.old.forker }
        ensures same { IsSamePlace self.old self.new }
    {
        let turn = turned(&mut self.node, script, self.lines.as_slice(), input)?;
        self.note(rt, lock, floor, event, turn)
    }

    /// Runs the next line of the node's process, which can start a call.
    #[inline(never)]
    fn run<R: Wait>(&mut self, rt: &R, lock: &JournalLock, script: &Script) -> Result<(), LogFault>
        requires sound { IsSoundScript script.now }
        requires lock { self.old.seat.lock ≡ lock.now.id }
        requires can { IfSome self.old.node (λ n. can_run n ≡ true) }
        ensures ok { OnOk result
            (IsMade (λ n. rule_of script.now self.old.lines.items n Runs) self.old.clock
            (event_at self.old.number Runs) self.old self.new) }
        ensures bad { result ≡ Err faults.BadFrame
            → IsUnmade (λ n. rule_of script.now self.old.lines.items n Runs) self.old self.new }
        ensures end { (last : ℕ) → result ≡ Err (faults.StampEnd last)
            → IsFull (λ n. rule_of script.now self.old.lines.items n Runs) self.old.clock self.old self.new last }
        ensures forker { self.new.forker ≡ self.old.forker }
        ensures same { IsSamePlace self.old self.new }
    {
        let event = Event::Run(self.number);
        self.make(rt, lock, script, self.clock, event, Input::Run)
    }

    /// Takes a frame that has come from a node under this stamp.
    fn take<R: Wait>(
        &mut self,
        rt: &R,
        lock: &JournalLock,
        script: &Script,
        from: Node,
        stamp: u64,
        frame: Frame,
    ) -> Result<(), LogFault>
        requires sound { IsSoundScript script.now }
        requires lock { self.old.seat.lock ≡ lock.now.id }
        requires whole { IsSome self.old.node }
        ensures ok { let input = Takes from (stamped stamp frame) in OnOk result
            (IsMade (λ n. rule_of script.now self.old.lines.items n input) (floor_of self.old.clock input)
            (event_at self.old.number input) self.old self.new) }
        ensures bad { let input = Takes from (stamped stamp frame) in result ≡ Err faults.BadFrame
            → IsUnmade (λ n. rule_of script.now self.old.lines.items n input) self.old self.new }
        ensures end { let input = Takes from (stamped stamp frame) in
            (last : ℕ) → result ≡ Err (faults.StampEnd last)
            → IsFull (λ n. rule_of script.now self.old.lines.items n input) (floor_of self.old.clock input) self.old
            self.new last }
        ensures forker { self.new.forker ≡ self.old.forker }
        ensures same { IsSamePlace self.old self.new }
    {
        if !may_take(&self.node, &frame) {
            return Err(LogFault::BadFrame);
        }
        let event = Event::Take {
            node: self.number,
            from,
        };
        let floor = self.clock.max(stamp);
        self.make(rt, lock, script, floor, event, Input::Take { from, frame })
    }

    /// Whether the node is born and can run no line.
    #[inline(always)]
    pub fn is_waiting(&self) -> bool
        requires whole { IsSome self.now.node }
        ensures { result ≡ true → IfSome self.now.node IsWaiting }
    {
        self.node.born() && !self.node.can_run()
    }

    /// Whether a turn would find nothing and run no line, of a node that is born: then that is its look at all streams.
    #[inline(always)]
    pub fn is_idle(&self) -> bool
        requires whole { IsSome self.now.node }
        ensures { result ≡ true → IfSome self.now.node IsWaiting }
    {
        are_silent(self.lines.as_slice()) && self.is_waiting()
    }

    /// Looks at all streams together until something is on its way, but at most so often, and says how often there was
    /// nothing. The gate is passed before each look, as by the turns behind so many.
    #[inline(always)]
    pub fn count_silences<G: Gate>(&self, gate: &G, turns: u64, most: u64) -> u64
        ensures { result ≤ most }
    {
        let lines = self.lines.as_slice();
        for count in 0..most {
            gate.pass(self.number, turns.saturating_add(count).saturating_add(1));
            if !are_silent(lines) {
                return count;
            }
        }
        most
    }

    /// Whether its node has handed over all that it held.
    pub fn has_left(&self) -> bool
        requires whole { IsSome self.now.node }
        ensures { IfSome self.now.node (λ n. result ≡ has_left n) }
    {
        self.node.has_left()
    }

    /// Notes so many looks at each stream that found nothing.
    pub fn note_silences(&mut self, looks: u64)
        ensures lines { self.new.lines.items ≡ after_silences looks self.old.lines.items }
        ensures same { self.new ≡ record self.old { lines = self.new.lines } }
    {
        note_silences(self.lines.as_mut_slice(), looks);
    }

    /// Makes one turn: it takes the frame that its looks complete, or else runs a line if it can.
    #[inline(never)]
    pub fn turn<R: Wait>(
        &mut self,
        rt: &R,
        lock: &JournalLock,
        script: &Script,
    ) -> Result<Made, LogFault>
        requires sound { IsSoundScript script.now }
        requires lock { self.old.seat.lock ≡ lock.now.id }
        requires whole { IsSome self.old.node }
        requires script { IsOfScript script.now (view_with self.old 0 None) }
        ensures turned { (quiet : ℕ) → IsTurnOrSpent script.now (view_with self.old quiet None)
            (view_with self.new (quiet_after quiet result) (fault_after result)) (answer_after result) }
        ensures whole { OnOk result (IsSome self.new.node) }
        ensures known { (q : ℕ) → self.new.forker ≡ Some q → q ≡ forker_of script.now self.old.number }
        ensures same { IsSamePlace self.old self.new }
    {
        let found = found_by(
            rt,
            &self.node,
            &mut self.forker,
            self.number,
            &mut self.lines,
            script,
        );
        let Ok(found) = found else {
            return Err(LogFault::Memory);
        };
        match found {
            Found::Whole { from, stamp, frame } => {
                made_of(self.take(rt, lock, script, from, stamp, frame))
            }
            Found::Refused => Err(LogFault::BadFrame),
            Found::Part => {
                if self.node.can_run() {
                    return made_of(self.run(rt, lock, script));
                }
                Ok(Made::Part)
            }
            Found::Nothing => {
                if self.node.can_run() {
                    return made_of(self.run(rt, lock, script));
                }
                Ok(Made::Nothing)
            }
        }
    }
}
