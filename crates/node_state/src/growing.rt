//! A step that grows.
ghost use Rattle.std.specs.Prelude.{◌≡◌, IfOk, IsTrue, OnOk, map};
ghost use Rattle.kernel_model.specs.Script.{IsSoundScript};
ghost use Rattle.world_model.specs.Node.{asked_here, under_way_as};
ghost use Rattle.waiting_model.specs.Effect.{woken_pair};
ghost use Rattle.node_model.specs.Entries.{outcome_with};
ghost use Rattle.world_model.specs.Step.{carry_out, carry_out_waking, enter, enter_with, reply_at, reply_here, reply_to, send, wake_all, with_strike};
ghost use Rattle.node_calls.specs.Caller.{HasLine};
ghost use Rattle.node_state.specs.State.{node_of, step_of};
ghost use Rattle.node_state.specs.Replies.{reply_where};
ghost use Rattle.node_state.specs.Started.{can_start, started};

use crate::fault::unreached;
use crate::state::State;
use pico_base::{Call, Entries, Entry, Memory, Node, Outcome, Pid, Reply, Script, Sequence, Woken};
use rpc_frame::{Asked, Frame};
use std::alloc::Global;
use waiting_model::{Wake, Wakes};

/// Frames to send, each with the node that it goes to, in order.
pub type Sends = Sequence<(Node, Frame)>;

/// What a node does in a turn so far: its state, the entries that it makes, the frames that it sends, and whether a
/// signal strikes its process.
#[derive(Drop)]
pub struct Growing {
    pub node: State,
    pub entries: Entries,
    pub sends: Sends,
    pub strikes: bool,
}

/// The replies of those who are woken, as an entry has them.
fn woken_by(alloc: Global, wakes: &[Wake]) -> Result<Woken, Memory>
    ensures { IfOk result (λ woken. woken ≡ map woken_pair wakes.now) }
{
    let mut woken = Vec::with_capacity(alloc, wakes.len())?;
    for wake in wakes {
        woken.push((wake.pid, wake.reply.try_copy(alloc)?))?;
    }
    Ok(Woken::from_vec(woken))
}

/// The same reply, if there is one.
fn copy_of(alloc: Global, own: &Option<Reply>) -> Result<Option<Reply>, Memory>
    ensures { IfOk result (λ copy. copy ≡ own.now) }
{
    match own {
        Some(reply) => Ok(Some(reply.try_copy(alloc)?)),
        None => Ok(None),
    }
}

/// What a call comes to that may have no reply, and may wake others.
fn outcome_with(alloc: Global, own: &Option<Reply>, wakes: &[Wake]) -> Result<Outcome, Memory>
    ensures { IfOk result (λ outcome. outcome ≡ outcome_with own.now wakes.now) }
{
    Ok(Outcome {
        own: copy_of(alloc, own)?,
        woken: woken_by(alloc, wakes)?,
    })
}

impl Growing {
    /// Sends a frame. Where memory is refused the node is spent, and nothing is said of what is left.
    #[inline(always)]
    pub fn send(&mut self, to: Node, frame: Frame) -> Result<(), Memory>
        ensures { OnOk result (step_of self.new ≡ send (step_of self.old) to frame) }
    {
        // The room is made first: what a push can't take it would hand back, by all its bytes.
        let sends = self.sends.as_mut_vec();
        sends.reserve(1)?;
        sends.push_reserved((to, frame));
        Ok(())
    }

    /// The entry of a call that is carried out here. Where memory is refused the node is spent, and nothing is said of
    /// what is left.
    #[inline(always)]
    pub fn enter(&mut self, pid: Pid, call: Call, reply: Reply) -> Result<(), Memory>
        ensures { OnOk result (step_of self.new ≡ enter (step_of self.old) pid call reply) }
    {
        // As above.
        let entries = self.entries.as_mut_vec();
        entries.reserve(1)?;
        entries.push_reserved(Entry {
            pid,
            call,
            outcome: Outcome::reply(self.node.alloc, reply),
            by: self.node.number(),
        });
        Ok(())
    }

    /// The entry of a call that may have no reply, and may wake others. Memory as above.
    pub fn enter_waking(
        &mut self,
        pid: Pid,
        call: Call,
        own: &Option<Reply>,
        wakes: &[Wake],
    ) -> Result<(), Memory>
        ensures { OnOk result
            (step_of self.new ≡ enter_with (step_of self.old) pid call (outcome_with own.now wakes.now)) }
    {
        let outcome = outcome_with(self.node.alloc, own, wakes)?;
        let by = self.node.number();
        self.entries.push(Entry {
            pid,
            call,
            outcome,
            by,
        })
    }

    /// A signal strikes the node's own process, if this is so.
    pub fn strike_if(&mut self, now: bool)
        ensures { step_of self.new ≡ with_strike (step_of self.old) now }
    {
        self.strikes = self.strikes || now;
    }

    /// The call under way, if there is one, has its reply. Memory, too, where its line isn't there.
    pub fn answer_own(&mut self, script: &Script, reply: &Reply) -> Result<(), Memory>
        requires sound { IsSoundScript script.now }
        ensures { OnOk result (step_of self.new
            ≡ reply_here script.now (step_of self.old) reply.now (node_of self.old.node).caller.under_way) }
    {
        if self.node.caller.under_way().is_none() {
            return Ok(());
        }
        if !self.node.caller.has_line(script) {
            return Err(unreached());
        }
        self.node.caller.answered(script, reply)
    }

    /// The call under way has its reply, if it is the one with this ticket. Memory, too, where its line isn't there.
    fn reply_here(&mut self, script: &Script, ticket: u32, reply: &Reply) -> Result<(), Memory>
        requires sound { IsSoundScript script.now }
        ensures { OnOk result (step_of self.new
            ≡ reply_here script.now (step_of self.old) reply.now (under_way_as (node_of self.old.node) ticket)) }
    {
        if self.node.under_way_as(ticket).is_none() {
            return Ok(());
        }
        if !self.node.caller.has_line(script) {
            return Err(unreached());
        }
        self.node.caller.answered(script, reply)
    }

    /// The reply to the call of this caller under this ticket goes to the caller, or ends the call at once where the
    /// caller is this node. Memory, too, where the call's line isn't there.
    #[inline(always)]
    fn reply_at(
        &mut self,
        script: &Script,
        caller: Node,
        ticket: u32,
        reply: Reply,
    ) -> Result<(), Memory>
        requires sound { IsSoundScript script.now }
        ensures { OnOk result (step_of self.new ≡ reply_at script.now (step_of self.old) caller ticket reply) }
    {
        if caller == self.node.number() {
            self.reply_here(script, ticket, &reply)
        } else {
            self.send(caller, Frame::Answer { ticket, reply })
        }
    }

    /// The reply goes to the caller, or ends the call at once where the caller is this node. Memory, too, where the
    /// call's line isn't there.
    pub fn reply_to(&mut self, script: &Script, asked: &Asked, reply: Reply) -> Result<(), Memory>
        requires sound { IsSoundScript script.now }
        ensures { OnOk result (step_of self.new ≡ reply_to script.now (step_of self.old) asked.now reply) }
    {
        self.reply_at(script, asked.caller, asked.ticket, reply)
    }

    /// A call is carried out here: an entry, and the reply. Memory, too, where the reply ends a call of this node whose
    /// line isn't there.
    pub fn carry_out(&mut self, script: &Script, asked: Asked, reply: Reply) -> Result<(), Memory>
        requires sound { IsSoundScript script.now }
        ensures { OnOk result (step_of self.new ≡ carry_out script.now (step_of self.old) asked reply) }
    {
        let Asked {
            caller,
            ticket,
            pid,
            call,
        } = asked;
        let answer = reply.try_copy(self.node.alloc)?;
        self.enter(pid, call, reply)?;
        self.reply_at(script, caller, ticket, answer)
    }

    /// The reply goes to the caller, if there is one. Memory, too, where the call's line isn't there.
    fn reply_if(
        &mut self,
        script: &Script,
        caller: Node,
        ticket: u32,
        own: Option<Reply>,
    ) -> Result<(), Memory>
        requires sound { IsSoundScript script.now }
        ensures { OnOk result (step_of self.new ≡ reply_where script.now (step_of self.old) caller ticket own) }
    {
        match own {
            Some(reply) => self.reply_at(script, caller, ticket, reply),
            None => Ok(()),
        }
    }

    /// Each who is woken has its reply, in order. Memory, too, where the line of a call of this node isn't there.
    fn wake_all(&mut self, script: &Script, wakes: Wakes) -> Result<(), Memory>
        requires sound { IsSoundScript script.now }
        ensures { OnOk result (step_of self.new ≡ wake_all script.now (step_of self.old) wakes) }
    {
        for wake in wakes.into_vec() {
            self.reply_at(script, wake.caller, wake.ticket, wake.reply)?;
        }
        Ok(())
    }

    /// A call is carried out here that may have to wait or wake others: an entry; the reply, if there is one; and then
    /// each who is woken has its reply, in the order of waking. Memory, too, as above.
    #[inline(never)]
    pub fn carry_out_waking(
        &mut self,
        script: &Script,
        asked: Asked,
        own: Option<Reply>,
        wakes: Wakes,
    ) -> Result<(), Memory>
        requires sound { IsSoundScript script.now }
        ensures { OnOk result (step_of self.new ≡ carry_out_waking script.now (step_of self.old) asked own wakes) }
    {
        let Asked {
            caller,
            ticket,
            pid,
            call,
        } = asked;
        self.enter_waking(pid, call, &own, wakes.as_slice())?;
        self.reply_if(script, caller, ticket, own)?;
        self.wake_all(script, wakes)
    }

    /// A call of this node's process is started and carried out here at once: an entry, and the call's end, with no
    /// copy of the call kept meanwhile. Memory, too, where its line isn't there.
    #[inline(always)]
    pub fn carry_out_at_once(
        &mut self,
        script: &Script,
        call: Call,
        reply: Reply,
    ) -> Result<(), Memory>
        requires sound { IsSoundScript script.now }
        requires can_start { IsTrue (can_start (node_of self.old.node)) }
        ensures { OnOk result (step_of self.new ≡ carry_out script.now (started (step_of self.old) call)
            (asked_here (started (step_of self.old) call).node call) reply) }
    {
        if !self.node.caller.has_line(script) {
            return Err(unreached());
        }
        self.carry_out_reached(script, call, reply)
    }

    /// The same where the call's line is known to be there.
    #[inline(always)]
    pub fn carry_out_reached(
        &mut self,
        script: &Script,
        call: Call,
        reply: Reply,
    ) -> Result<(), Memory>
        requires reached { HasLine script.now self.old.node.caller }
        requires can_start { IsTrue (can_start (node_of self.old.node)) }
        ensures { OnOk result (step_of self.new ≡ carry_out script.now (started (step_of self.old) call)
            (asked_here (started (step_of self.old) call).node call) reply) }
    {
        self.node.caller.answered_at_once(script, &call, &reply)?;
        self.enter(self.node.pid, call, reply)
    }
}
