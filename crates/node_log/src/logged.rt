//! A node that logs, as its thread sees it.
ghost use Rattle.std.specs.Prelude.{◌≡◌, ◌≢◌, ◌≤◌, true, [], length, map, IfOk, IfSome, IsSome, None, Some, vec_capacity};
ghost use Rattle.std.specs.List.{AllByRecursion};
ghost use Rattle.pico_base.specs.declared.script.Script.{Script};
ghost use Rattle.kernel_model.specs.Script.{IsSoundScript};
ghost use Rattle.log_model.specs.Logged.{IsOfScript};
ghost use Rattle.log_model.specs.Turns.{Turned};
ghost use Rattle.node_core.specs.Lives.{has_left};
ghost use Rattle.log_model.specs.declared.answer.LogFault.TheVariants as faults;
ghost use Rattle.node_lines.specs.Lines.{AreSameLines};
ghost use Rattle.node_log.specs.Steps.{AreIdleTurns, IsSameSeat, IsWaiting};
ghost use Rattle.node_log.specs.Ends.{IsUntaken, line_of, end_of};

use crate::made::{answer_after, answer_of, fault_after, quiet_after, quiet_on};
use crate::parting::{Finished, Log, Parting};
use crate::works::Works;
use host_iface::Gate;
use journal_core::{JSeat, JournalLock};
use log_model::{LogFault, TurnAnswer};
use node_core::PicoNode;
use node_lines::{End, Ends, Line, Lines};
use pico_base::{Memory, Node, Script};
use std::alloc::Global;
use std::marker::Model;
use std::sync::Wait;

/// A node with its log, its streams and its seat at the journal. The node of block k has seat k. Contracts see its
/// number, the machine's node, the node that forks it once that was looked up, the last stamp of its log, the log, its
/// lines, its seat, how many turns in a row found nothing, and why it makes no turns any more.
#[derive(Drop)]
pub struct Logged {
    works: Works,
    // room for the ends, so that they are handed back without memory
    room: Vec<End>,
    // looks at all streams together that found nothing, and that no stream has counted yet
    silent: u64,
    quiet: u64,
    fault: Option<LogFault>,
}

impl Model for Logged {
    ghost use Rattle.log_model.specs.Views.{LoggedNode};

    ghost Value = { LoggedNode };

    ghost use Rattle.node_log.specs.Inside.{logged_of, IsWhole};

    ghost view = { logged_of };

    ghost invariant = { IsWhole };
}

/// The lines of these ends.
fn lines_of(alloc: Global, ends: Ends) -> Result<Lines, Memory>
    requires { AllByRecursion IsUntaken ends }
    ensures { IfOk result (λ lines. lines.items ≡ map line_of ends) }
{
    let mut lines = Vec::with_capacity(alloc, ends.len())?;
    for end in ends.into_vec() {
        lines.push_reserved(Line::new(alloc, end));
    }
    Ok(lines)
}

/// The lines of these ends, and room for as many ends.
fn lines_and_room(alloc: Global, ends: Ends) -> Result<(Lines, Vec<End>), Memory>
    requires { AllByRecursion IsUntaken ends }
    ensures lines { IfOk result (λ both. both.0.items ≡ map line_of ends) }
    ensures empty { IfOk result (λ both. both.1.items ≡ []) }
    ensures room { IfOk result (λ both. length both.0.items ≤ vec_capacity both.1) }
{
    let room = Vec::with_capacity(alloc, ends.len())?;
    let lines = lines_of(alloc, ends)?;
    Ok((lines, room))
}

/// The ends of these lines, in the room that was made for them. It takes no memory.
fn ends_of(mut room: Vec<End>, lines: Lines) -> Ends
    requires empty { room.items ≡ [] }
    requires room { length lines.items ≤ vec_capacity room }
    ensures { result ≡ map end_of lines.items }
{
    for line in lines {
        room.push_reserved(line.into_end());
    }
    Ends::from_vec(room)
}

impl Logged {
    ghost use Rattle.node_log.specs.Inside.{opened};

    /// A node that has made no turn, from a node that isn't spent, the ends of its streams with each other node, by
    /// rising node, from which nothing was taken, and the seat of its number. A refusal hands nothing back.
    pub fn new(alloc: Global, node: PicoNode, ends: Ends, seat: JSeat) -> Result<Logged, Memory>
        requires node { IsSome node }
        requires ends { AllByRecursion IsUntaken ends }
        requires low { 1 ≤ seat.number }
        requires high { seat.number ≤ 32 }
        ensures { IfOk result (λ logged. logged ≡ opened node ends seat) }
    {
        let Ok((lines, room)) = lines_and_room(alloc, ends) else {
            return Err(Memory);
        };
        let number = Node(seat.number() as u8);
        let works = Works {
            alloc,
            number,
            node,
            forker: None,
            clock: 0,
            log: Log::new(alloc),
            lines,
            seat,
        };
        Ok(Logged {
            works,
            room,
            silent: 0,
            quiet: 0,
            fault: None,
        })
    }

    /// How many turns in a row, up to now, found nothing and ran no line.
    pub fn quiet(&self) -> u64
        ensures { result ≡ self.now.quiet }
    {
        self.quiet
    }

    /// Why it makes no turns any more.
    pub fn fault(&self) -> Option<LogFault>
        ensures { result ≡ self.now.fault }
    {
        self.fault
    }

    /// Whether its node has handed over all that it held, as [`PicoNode::has_left`] says. It is asked of a node that
    /// isn't spent.
    pub fn has_left(&self) -> bool
        ensures { result ≡ true → IfSome self.now.node (λ n. has_left n ≡ true) }
    {
        self.fault.is_none() && self.works.has_left()
    }

    /// Makes one turn: it takes the frame that its looks complete, or else runs a line if it can. The event gets its
    /// stamp, its entries go into the journal, and its frames are sent. Waits for its turn at the journal's lock. After
    /// a fault each turn answers the same. Where the bell of its streams is silent, that is the look at all of them.
    pub fn turn<R: Wait>(&mut self, rt: &R, lock: &JournalLock, script: &Script) -> TurnAnswer
        requires sound { IsSoundScript script.now }
        requires script { IsOfScript script.now self.old }
        requires lock { self.old.seat.lock ≡ lock.now.id }
        ensures turned { Turned script.now self.old self.new result }
        ensures script { IsOfScript script.now self.new }
        ensures number { self.new.number ≡ self.old.number }
        ensures lines { AreSameLines self.old.lines self.new.lines }
        ensures seat { IsSameSeat self.old.seat self.new.seat }
    {
        if let Some(fault) = self.fault {
            return answer_of(fault);
        }
        if self.silent < u64::MAX && self.works.is_idle() {
            self.silent += 1;
            self.quiet = self.quiet.saturating_add(1);
            return TurnAnswer::Idle;
        }
        self.works.note_silences(self.silent);
        self.silent = 0;
        let turned = self.works.turn(rt, lock, script);
        self.quiet = quiet_after(self.quiet, &turned);
        self.fault = fault_after(&turned);
        answer_after(&turned)
    }

    /// Whether it makes turns, and its node is born and can run no line.
    #[inline(always)]
    fn is_waiting(&self) -> bool
        ensures { result ≡ true → (self.now.fault ≡ None) × IfSome self.now.node IsWaiting × IsSome self.now.node }
    {
        self.fault.is_none() && self.works.is_waiting()
    }

    /// Makes further turns, at most so many, for as long as each is a look at all streams together that finds nothing,
    /// of a node that is born and can run no line; and says how many. The gate is passed before each, by the turns
    /// behind so many; and where there are fewer than `most`, before the next one, too, which [`Logged::turn`] makes.
    #[inline(always)]
    pub fn wait<G: Gate>(&mut self, gate: &G, turns: u64, most: u64) -> u64
        ensures turns { (script : Script) → IsOfScript script self.old → AreIdleTurns script result self.old self.new }
        ensures most { result ≤ most }
    {
        if most > u64::MAX - self.silent {
            gate.pass(self.works.number, turns.saturating_add(1));
            return 0;
        }
        if !self.is_waiting() {
            gate.pass(self.works.number, turns.saturating_add(1));
            return 0;
        }
        let count = self.works.count_silences(gate, turns, most);
        self.silent += count;
        self.quiet = quiet_on(self.quiet, count);
        count
    }

    /// The parts as they stand. It takes no memory.
    pub fn finish(self) -> Finished
        requires { self.fault ≢ Some faults.Memory }
        ensures parting { result.parting ≡ record { node = self.number; quiet = self.quiet; log = self.log } }
        ensures node { result.node ≡ self.node }
        ensures ends { result.ends ≡ map end_of self.lines }
        ensures seat { result.seat ≡ self.seat }
    {
        let Logged {
            mut works,
            room,
            silent,
            quiet,
            ..
        } = self;
        works.note_silences(silent);
        let Works {
            number,
            node,
            log,
            lines,
            seat,
            ..
        } = works;
        Finished {
            node,
            parting: Parting {
                node: number,
                quiet,
                log,
            },
            ends: ends_of(room, lines),
            seat,
        }
    }
}
