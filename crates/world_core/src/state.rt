//! The world that isn't spent: its nodes, their inboxes and the journal.
ghost use Rattle.std.specs.Prelude.{◌≡◌, ◌↔◌, ◌<◌, ◌≤◌, ◌-◌, [], ◌++◌, length, map, replicate, set, get_or, true, Some, slice_get, ◌+◌, IfOk, OnOk, IsOk, IfSome, IsSome, IsTrue};
ghost use Rattle.std.specs.List.{flat_map, list_any};
ghost use Rattle.kernel_model.specs.Script.{IsSoundScript};
ghost use Rattle.world_model.specs.Node.{opening_node};
ghost use Rattle.world_model.specs.World.{numbers, node_count, opening_world, node_at, is_run_enabled, is_take_enabled, is_enabled, stream, with_sent, with_all_sent};
ghost use Rattle.world_model.specs.Run.{IsAtRest, has_call_under_way, is_stalled};
ghost use Rattle.world_model.specs.Schedule.{enabled_at, enabled_events, in_turn};
ghost use Rattle.world_core.specs.Seat.{IsSeat};
ghost use Rattle.node_core.specs.Step.{step_of};
ghost use Rattle.node_core.specs.Turns.{IsTurnOnto, IsAllowed};
ghost use Rattle.node_core.specs.declared.turn.Input.TheVariants as inputs;
ghost use Rattle.world_core.specs.Behind.{without_journal};
ghost use Rattle.world_core.specs.Inbox.{from_node, with_from};
ghost use Rattle.world_core.specs.Stream.{frame_of};
ghost use Rattle.world_core.specs.Counts.{counts_of};
ghost use Rattle.world_core.specs.State.{AreWhole, AreSeats, AreCounted, OthersAreCounted, MaySend, HaveGone, whole, world_of, IsSent, IsAfterTurn, IsStep, IsAlive};

use crate::counts::{Counts, count_all, count_of};
use crate::inbox::{Inbox, place};
use node_core::{PicoNode, Sends, Turn, TurnFault};
use pico_base::{Event, Memory, Node, Script};
use rpc_frame::Frame;
use run_laws::enabled_events_have_steps;
use std::alloc::Global;

/// A world: nodes by number, what is on its way to each of them, how many events of each may come next, and what the
/// turns have made, whose entries are the journal and whose frames have all gone their ways between turns.
#[derive(Drop)]
pub(crate) struct State {
    pub(crate) script: Script,
    pub(crate) nodes: Vec<PicoNode>,
    pub(crate) inboxes: Vec<Inbox>,
    pub(crate) counts: Counts,
    pub(crate) made: Turn,
}

/// How many nodes a script has.
pub(crate) fn size(script: &Script) -> u8
    requires { IsSoundScript script.now }
    ensures size { result ≡ length script.now.blocks }
    ensures few { (1 ≤ result) × (result ≤ 32) }
{
    script.blocks.len() as u8
}

/// The nodes of a script before any event.
fn opening_nodes(alloc: Global, script: &Script) -> Result<Vec<PicoNode>, Memory>
    requires { IsSoundScript script.now }
    ensures { IfOk result (λ nodes. nodes.items ≡ map Some (map opening_node (numbers 1 (length script.now.blocks)))) }
{
    let mut nodes = Vec::new(alloc);
    for number in 0..size(script) {
        nodes.push(PicoNode::new(alloc, script, Node(number + 1))?)?;
    }
    Ok(nodes)
}

/// Nothing is on its way to any of so many nodes.
fn empty_inboxes(alloc: Global, count: usize) -> Result<Vec<Inbox>, Memory>
    requires { count ≤ 32 }
    ensures { IfOk result (λ inboxes. inboxes.items ≡ replicate count (replicate count [])) }
{
    let mut inboxes = Vec::new(alloc);
    for _node in 0..count {
        inboxes.push(Inbox::new(alloc, count)?)?;
    }
    Ok(inboxes)
}

/// Whether a call is under way at one of these nodes, whose process lives.
fn is_call_under_way(nodes: &[PicoNode]) -> bool
    requires { AreWhole nodes.now }
    ensures { result ≡ list_any has_call_under_way (whole nodes.now) }
{
    for at in 0..nodes.len() {
        if nodes[at].has_call_under_way() {
            return true;
        }
    }
    false
}

/// A turn that the machine has a step for was refused for want of memory alone.
fn allowed(turned: Result<(), TurnFault>) -> Result<(), Memory>
    requires { IsAllowed turned }
    ensures { OnOk result (IsOk turned) }
{
    match turned {
        Ok(()) => Ok(()),
        Err(TurnFault::Memory) => Err(Memory),
        Err(TurnFault::NotAllowed) => unreachable!(),
    }
}

/// The start of a node's next call, where the machine has a step for it. After an `Err` the node is spent.
fn run_turn(node: &mut PicoNode, script: &Script, made: &mut Turn) -> Result<(), Memory>
    requires sound { IsSoundScript script.now }
    requires allowed { IfSome node.old (λ n. IsSome (step_of script.now n inputs.Run)) }
    ensures { OnOk result (IsTurnOnto script.now node.old inputs.Run node.new made.old made.new) }
{
    allowed(node.run_onto(script, made))
}

/// The taking of a frame by a node, where the machine has a step for it. After an `Err` the node is spent.
fn take_turn(
    node: &mut PicoNode,
    script: &Script,
    from: Node,
    frame: Frame,
    made: &mut Turn,
) -> Result<(), Memory>
    requires sound { IsSoundScript script.now }
    requires allowed { IfSome node.old (λ n. IsSome (step_of script.now n (inputs.Take from frame))) }
    ensures { OnOk result
        (IsTurnOnto script.now node.old (inputs.Take from frame) node.new made.old made.new) }
{
    allowed(node.take_onto(script, from, frame, made))
}

/// No frame is left. Between turns there is none: this says so without an invariant, and costs one look.
fn clear_sends(sends: &mut Sends)
    ensures { sends.new ≡ [] }
{
    if sends.len() > 0 {
        sends.as_mut_vec().clear();
    }
}

/// A frame goes its way, behind those that its sender has sent to that node before. A frame to a node that there isn't
/// is lost, as in the machine.
fn send(
    nodes: &[PicoNode],
    inboxes: &mut Vec<Inbox>,
    counts: &mut Counts,
    from: Node,
    sent: (Node, Frame),
) -> Result<(), Memory>
    requires { MaySend from nodes.now inboxes.old.items counts.old }
    ensures sent { OnOk result (inboxes.new.items ≡ with_sent from inboxes.old.items sent) }
    ensures counted { OnOk result (counts.new ≡ counts_of nodes.now inboxes.new.items) }
{
    let at = place(sent.0);
    if at < inboxes.len() {
        inboxes[at].push(from, sent)?;
        counts.set(at, count_of(&nodes[at], &inboxes[at]));
    }
    Ok(())
}

/// The frames that a node sends go their ways, one after another, and their list is left empty.
#[inline(never)]
fn send_each(
    nodes: &[PicoNode],
    inboxes: &mut Vec<Inbox>,
    counts: &mut Counts,
    from: Node,
    sends: &mut Vec<(Node, Frame)>,
) -> Result<(), Memory>
    requires { MaySend from nodes.now inboxes.old.items counts.old }
    ensures { OnOk result (HaveGone from nodes.now inboxes.old.items sends.old.items inboxes.new.items counts.new
        sends.new.items) }
{
    for sent in sends.drain(..) {
        send(nodes, inboxes, counts, from, sent)?;
    }
    Ok(())
}

/// A list of one frame goes its way as it is, to the node at this place, to which nothing is on its way from the
/// sender, and an empty list is left.
#[inline(always)]
fn send_list(
    nodes: &[PicoNode],
    inboxes: &mut Vec<Inbox>,
    counts: &mut Counts,
    from: Node,
    at: usize,
    sends: &mut Vec<(Node, Frame)>,
)
    requires ready { MaySend from nodes.now inboxes.old.items counts.old }
    requires place { at < length inboxes.old.items }
    requires free { from_node (get_or inboxes.old.items at []) from ≡ [] }
    requires one { length sends.old.items ≡ 1 }
    ensures sent { inboxes.new.items ≡ set inboxes.old.items at
        (with_from (get_or inboxes.old.items at []) from (map frame_of sends.old.items)) }
    ensures counted { counts.new ≡ counts_of nodes.now inboxes.new.items }
    ensures emptied { sends.new.items ≡ [] }
{
    inboxes[at].take_over(from, sends);
    counts.set(at, count_of(&nodes[at], &inboxes[at]));
}

/// As above, where there are frames. One alone, as most turns make, goes with the whole list where nothing is on its
/// way there.
#[inline(always)]
fn send_some(
    nodes: &[PicoNode],
    inboxes: &mut Vec<Inbox>,
    counts: &mut Counts,
    from: Node,
    sends: &mut Vec<(Node, Frame)>,
) -> Result<(), Memory>
    requires ready { MaySend from nodes.now inboxes.old.items counts.old }
    requires some { 0 < length sends.old.items }
    ensures { OnOk result (HaveGone from nodes.now inboxes.old.items sends.old.items inboxes.new.items counts.new
        sends.new.items) }
{
    let at = place(sends[0].0);
    if sends.len() == 1 && at < inboxes.len() && !inboxes[at].is_filled_from(from) {
        send_list(nodes, inboxes, counts, from, at, sends);
        return Ok(());
    }
    send_each(nodes, inboxes, counts, from, sends)
}

/// The frames that a node sends go their ways, if there are any.
#[inline(always)]
fn send_all(
    nodes: &[PicoNode],
    inboxes: &mut Vec<Inbox>,
    counts: &mut Counts,
    from: Node,
    sends: &mut Vec<(Node, Frame)>,
) -> Result<(), Memory>
    requires { MaySend from nodes.now inboxes.old.items counts.old }
    ensures { OnOk result (HaveGone from nodes.now inboxes.old.items sends.old.items inboxes.new.items counts.new
        sends.new.items) }
{
    if sends.is_empty() {
        return Ok(());
    }
    send_some(nodes, inboxes, counts, from, sends)
}

impl State {
    /// The world of a script before any event.
    pub(crate) fn start(alloc: Global, script: Script) -> Result<State, Memory>
        requires { IsSoundScript script }
        ensures made { IfOk result (λ s. AreWhole s.nodes.items × (world_of s ≡ opening_world script)) }
        ensures counted { IfOk result AreCounted }
    {
        let nodes = opening_nodes(alloc, &script)?;
        let inboxes = empty_inboxes(alloc, script.blocks.len())?;
        let counts = count_all(alloc, &nodes, &inboxes)?;
        Ok(State {
            script,
            nodes,
            inboxes,
            counts,
            made: Turn::empty(alloc),
        })
    }

    /// Whether the node can start a call.
    pub(crate) fn may_run(&self, node: Node) -> bool
        requires { AreWhole self.now.nodes.items }
        ensures { result ≡ is_run_enabled (node_at (world_of self.now) node) }
    {
        match self.nodes.get(place(node)) {
            Some(node) => node.can_run(),
            None => false,
        }
    }

    /// Whether the node takes the first frame from that node, if there is one.
    pub(crate) fn may_take(&self, node: Node, from: Node) -> bool
        requires { AreWhole self.now.nodes.items }
        ensures { result ≡ is_take_enabled (node_at (world_of self.now) node) (stream (world_of self.now) node from) }
    {
        let at = place(node);
        let Some(pico) = self.nodes.get(at) else {
            return false;
        };
        let Some(inbox) = self.inboxes.get(at) else {
            return false;
        };
        inbox.may_take(from, pico.born())
    }

    /// Whether the event may come next.
    pub(crate) fn enabled(&self, event: Event) -> bool
        requires { AreWhole self.now.nodes.items }
        ensures { result ≡ is_enabled (world_of self.now) event }
    {
        match event {
            Event::Run(node) => self.may_run(node),
            Event::Take { node, from } => self.may_take(node, from),
        }
    }

    /// The node and what is on its way to it.
    fn seat(&self, node: Node) -> (&PicoNode, &Inbox)
        requires alive { IsAlive self.now }
        requires there { node ≤ node_count self.now.script }
        ensures { IsSeat (world_of self.now) node result.0.now result.1.now }
    {
        let at = place(node);
        (&self.nodes[at], &self.inboxes[at])
    }

    /// How many events of the node may come next.
    fn count_at(&self, node: Node) -> u32
        requires alive { IsAlive self.now }
        requires there { node ≤ node_count self.now.script }
        ensures count { result ≡ length (enabled_at (world_of self.now) node) }
        ensures few { result ≤ 33 }
    {
        u32::from(self.counts.at(place(node)))
    }

    /// The event at this place of those of the node that may come next, from 0. Its run comes last.
    #[inline(always)]
    fn nth_at(&self, node: Node, index: u32) -> Option<Event>
        requires alive { IsAlive self.now }
        requires there { node ≤ node_count self.now.script }
        ensures { result ≡ slice_get (enabled_at (world_of self.now) node) index }
    {
        let (pico, inbox) = self.seat(node);
        if pico.can_run() && index == self.count_at(node) - 1 {
            return Some(Event::Run(node));
        }
        let from = inbox.nth(pico.born(), index)?;
        Some(Event::Take { node, from })
    }

    /// How many events may come next.
    pub(crate) fn count(&self) -> u32
        requires { IsAlive self.now }
        ensures { result ≡ length (enabled_events (world_of self.now)) }
    {
        self.counts.all()
    }

    /// The event at this place of those that may come next, from 0.
    #[inline(always)]
    pub(crate) fn nth(&self, index: u32) -> Option<Event>
        requires { IsAlive self.now }
        ensures { result ≡ slice_get (enabled_events (world_of self.now)) index }
    {
        let mut left = index;
        let mut from = 0;
        while let Some(at) = self.counts.next(from) {
            let node = Node(at as u8 + 1);
            let count = self.count_at(node);
            if left < count {
                return self.nth_at(node, left);
            }
            left -= count;
            from = at + 1;
        }
        None
    }

    /// The first event that may come next, of the nodes after the one number up to the other.
    #[inline(always)]
    fn first_of(&self, after: u8, last: u8) -> Option<Event>
        requires alive { IsAlive self.now }
        requires there { last ≤ node_count self.now.script }
        ensures { result ≡ slice_get
            (flat_map (enabled_at (world_of self.now)) (numbers (after + 1) (last - after))) 0 }
    {
        let at = self.counts.next(usize::from(after))?;
        if at >= usize::from(last) {
            return None;
        }
        self.nth_at(Node(at as u8 + 1), 0)
    }

    /// The first event that may come next, round the nodes: of those behind this one, and then of those up to it.
    #[inline(always)]
    pub(crate) fn in_turn(&self, after: Node) -> Option<Event>
        requires alive { IsAlive self.now }
        requires there { after ≤ node_count self.now.script }
        ensures { result ≡ in_turn (world_of self.now) after }
    {
        match self.first_of(after.0, size(&self.script)) {
            Some(event) => Some(event),
            None => self.first_of(0, after.0),
        }
    }

    /// Whether no event may come next.
    pub(crate) fn at_rest(&self) -> bool
        requires { IsAlive self.now }
        ensures { IsTrue result ↔ IsAtRest (world_of self.now) }
    {
        self.count() == 0
    }

    /// Whether a call is under way at a node whose process lives.
    pub(crate) fn is_stalled(&self) -> bool
        requires { IsAlive self.now }
        ensures { result ≡ is_stalled (world_of self.now) }
    {
        is_call_under_way(&self.nodes)
    }

    /// The node has had its turn: its events are counted anew, and its frames go their ways.
    #[inline(always)]
    fn finish(&mut self, node: Node) -> Result<(), Memory>
        requires seats { AreSeats self.old.nodes.items self.old.inboxes.items }
        requires there { node ≤ length self.old.nodes.items }
        requires counted { OthersAreCounted self.old node }
        ensures { OnOk result (IsSent self.old node self.new) }
    {
        let at = place(node);
        self.counts
            .set(at, count_of(&self.nodes[at], &self.inboxes[at]));
        send_all(
            &self.nodes,
            &mut self.inboxes,
            &mut self.counts,
            node,
            self.made.sends.as_mut_vec(),
        )
    }

    /// The node's process starts its next call: the entries follow in the journal, and the frames go their ways.
    #[inline(always)]
    fn run(&mut self, node: Node) -> Result<(), Memory>
        requires seats { AreSeats self.old.nodes.items self.old.inboxes.items }
        requires sound { IsSoundScript self.old.script }
        requires there { node ≤ length self.old.nodes.items }
        requires counted { OthersAreCounted self.old node }
        requires allowed { IfSome (node_at (world_of self.old) node)
            (λ n. IsSome (step_of self.old.script n inputs.Run)) }
        ensures { OnOk result (IsAfterTurn self.old node inputs.Run self.new) }
    {
        clear_sends(&mut self.made.sends);
        run_turn(&mut self.nodes[place(node)], &self.script, &mut self.made)?;
        self.finish(node)
    }

    /// The node takes a frame: the entries follow in the journal, and the frames go their ways.
    #[inline(always)]
    fn take(&mut self, node: Node, from: Node, frame: Frame) -> Result<(), Memory>
        requires seats { AreSeats self.old.nodes.items self.old.inboxes.items }
        requires sound { IsSoundScript self.old.script }
        requires there { node ≤ length self.old.nodes.items }
        requires counted { OthersAreCounted self.old node }
        requires allowed { IfSome (node_at (world_of self.old) node)
            (λ n. IsSome (step_of self.old.script n (inputs.Take from frame))) }
        requires none { self.old.made.sends ≡ [] }
        ensures { OnOk result (IsAfterTurn self.old node (inputs.Take from frame) self.new) }
    {
        take_turn(
            &mut self.nodes[place(node)],
            &self.script,
            from,
            frame,
            &mut self.made,
        )?;
        self.finish(node)
    }

    /// Lets go of the entries of the journal. The room of their list is kept.
    pub(crate) fn let_go(&mut self)
        requires { IsAlive self.old }
        ensures world { world_of self.new ≡ without_journal (world_of self.old) }
        ensures alive { IsAlive self.new }
    {
        self.made.entries.as_mut_vec().clear();
    }

    /// Carries out an event that may come next.
    #[inline(always)]
    pub(crate) fn step(&mut self, event: Event) -> Result<(), Memory>
        requires alive { IsAlive self.old }
        requires enabled { is_enabled (world_of self.old) event ≡ true }
        ensures { OnOk result (IsStep self.old event self.new) }
    {
        enabled_events_have_steps();
        match event {
            Event::Run(node) => self.run(node),
            Event::Take { node, from } => {
                clear_sends(&mut self.made.sends);
                let Some(frame) = self.inboxes[place(node)].take(from) else {
                    unreachable!()
                };
                self.take(node, from, frame)
            }
        }
    }
}
