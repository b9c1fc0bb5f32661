//! A node serves a call on a name whose deed it holds.
ghost use Rattle.std.specs.Prelude.{◌≡◌, ◌+◌, [], IsTrue, OnOk, Some};
ghost use Rattle.kernel_model.specs.Script.{IsSoundScript};
ghost use Rattle.node_model.specs.Serving.{no_such_name};
ghost use Rattle.world_model.specs.Node.{asked_here};
ghost use Rattle.world_model.specs.Serving.{interrupted, note_reads, serve_asked, serve_nobody};
ghost use Rattle.world_model.specs.Step.{carry_out, carry_out_waking};
ghost use Rattle.node_state.specs.Started.{can_start, started};
ghost use Rattle.node_state.specs.State.{node_of, step_of};
ghost use Rattle.serve_rules.specs.Held.{nodes_with};

use crate::carrying::{Held, serve_held};
use crate::moving::{note_caller, note_reads};
use crate::striking::is_struck;
use node_serve::{Replied, Who, reply_at_once};
use node_state::{Growing, State};
use pico_base::{Call, Errno, Memory, Name, Node, Reply, Script};
use rpc_frame::Asked;
use waiting_model::Wakes;

/// The call is under way, and a copy of it is kept until its reply is here.
#[inline(always)]
pub fn begin(step: &mut Growing, call: &Call) -> Result<(), Memory>
    requires { IsTrue (can_start (node_of step.old.node)) }
    ensures { OnOk result (step_of step.new ≡ started (step_of step.old) call.now) }
{
    let call = call.try_copy(step.node.alloc)?;
    let _ticket = step.node.caller.start(call);
    Ok(())
}

/// Who asked.
fn who_asked(asked: &Asked) -> Who
    ensures { result ≡ record { caller = asked.now.caller; ticket = asked.now.ticket; pid = asked.now.pid } }
{
    Who {
        caller: asked.caller,
        ticket: asked.ticket,
        pid: asked.pid,
    }
}

/// The node's own process, as it asks once its next call is started.
#[inline(always)]
pub(crate) fn who_starts(node: &State) -> Who
    requires { IsTrue (can_start (node_of node.now)) }
    ensures { result ≡ record {
      caller = (node_of node.now).number;
      ticket = (node_of node.now).caller.ticket + 1;
      pid = (node_of node.now).pid;
    } }
{
    Who {
        caller: node.number(),
        ticket: node.caller.ticket() + 1,
        pid: node.pid,
    }
}

/// The serve rule, by all that may come of it.
#[inline(always)]
fn serve_any(step: &mut Growing, script: &Script, name: Name, asked: Asked) -> Result<(), Memory>
    requires sound { IsSoundScript script.now }
    ensures { OnOk result (serve_asked script.now (step_of step.old) name asked ≡ Some (step_of step.new)) }
{
    let alloc = step.node.alloc;
    let who = who_asked(&asked);
    let struck = is_struck(&step.node, &name, &asked.call);
    let served = serve_held(alloc, &mut step.node.deeds, &name, &who, &asked.call)?;
    match served {
        Held::AtOnce { reply, reads } => {
            step.strike_if(struck);
            step.carry_out(script, asked, reply)?;
            note_caller(step, &name, who.caller, reads)
        }
        Held::Did {
            own,
            wakes,
            reads,
            readers,
        } => {
            step.strike_if(struck);
            step.carry_out_waking(script, asked, own, wakes)?;
            note_reads(step, &name, who.caller, reads, readers.as_slice())
        }
        Held::NotAdmitted => Ok(()),
    }
}

/// A call that was asked for has this reply, and the watch notes the caller if it read.
#[inline(always)]
fn end_asked(
    step: &mut Growing,
    script: &Script,
    name: &Name,
    caller: Node,
    asked: Asked,
    at: Replied,
) -> Result<(), Memory>
    requires sound { IsSoundScript script.now }
    ensures { OnOk result (step_of step.new
        ≡ note_reads (carry_out script.now (step_of step.old) asked at.reply) name.now
        (nodes_with caller at.reads [])) }
{
    let Replied { reply, reads } = at;
    step.carry_out(script, asked, reply)?;
    note_caller(step, name, caller, reads)
}

/// The serve rule: the call is carried out on its name's deed, or its caller waits there; the watch notes who read,
/// after which the name may move. A call for which there is no room is dropped. Memory, too, where the deed isn't held
/// here or its body doesn't go with its name, for a call that makes something or ends its process or a wait, and where
/// the leader would move a name that it knows at no node.
#[inline(always)]
pub fn serve_asked(
    step: &mut Growing,
    script: &Script,
    name: Name,
    asked: Asked,
) -> Result<(), Memory>
    requires sound { IsSoundScript script.now }
    ensures { OnOk result (serve_asked script.now (step_of step.old) name asked ≡ Some (step_of step.new)) }
{
    let alloc = step.node.alloc;
    let who = who_asked(&asked);
    let struck = is_struck(&step.node, &name, &asked.call);
    let answered = reply_at_once(alloc, &mut step.node.deeds, name, &who, &asked.call)?;
    match answered {
        Some(at) => {
            step.strike_if(struck);
            end_asked(step, script, &name, who.caller, asked, at)
        }
        None => serve_any(step, script, name, asked),
    }
}

/// A call of the node's own process that is started has come to this, where it has to wait or wakes others: it is under
/// way until its reply is here.
#[inline(always)]
pub(crate) fn wait_or_wake(
    step: &mut Growing,
    script: &Script,
    call: Call,
    own: Option<Reply>,
    wakes: Wakes,
) -> Result<(), Memory>
    requires sound { IsSoundScript script.now }
    requires can_start { IsTrue (can_start (node_of step.old.node)) }
    ensures { OnOk result (step_of step.new ≡ carry_out_waking script.now (started (step_of step.old) call)
        (asked_here (started (step_of step.old) call).node call) own wakes) }
{
    begin(step, &call)?;
    let asked = step.node.asked_here(call);
    step.carry_out_waking(script, asked, own, wakes)
}

/// A call of the node's own process is started and served, by all that may come of it.
#[inline(always)]
fn start_any(step: &mut Growing, script: &Script, name: Name, call: Call) -> Result<(), Memory>
    requires sound { IsSoundScript script.now }
    requires can_start { IsTrue (can_start (node_of step.old.node)) }
    ensures { OnOk result (serve_asked script.now (started (step_of step.old) call) name
        (asked_here (started (step_of step.old) call).node call) ≡ Some (step_of step.new)) }
{
    let alloc = step.node.alloc;
    let who = who_starts(&step.node);
    let struck = is_struck(&step.node, &name, &call);
    let served = serve_held(alloc, &mut step.node.deeds, &name, &who, &call)?;
    match served {
        Held::AtOnce { reply, reads } => {
            step.strike_if(struck);
            step.carry_out_at_once(script, call, reply)?;
            note_caller(step, &name, who.caller, reads)
        }
        Held::Did {
            own,
            wakes,
            reads,
            readers,
        } => {
            step.strike_if(struck);
            wait_or_wake(step, script, call, own, wakes)?;
            note_reads(step, &name, who.caller, reads, readers.as_slice())
        }
        Held::NotAdmitted => begin(step, &call),
    }
}

/// A call of the node's own process is started and has this reply, and the watch notes the caller if it read.
#[inline(always)]
fn end_at_once(
    step: &mut Growing,
    script: &Script,
    name: &Name,
    caller: Node,
    call: Call,
    at: Replied,
) -> Result<(), Memory>
    requires sound { IsSoundScript script.now }
    requires can_start { IsTrue (can_start (node_of step.old.node)) }
    ensures { OnOk result (step_of step.new
        ≡ note_reads (carry_out script.now (started (step_of step.old) call)
        (asked_here (started (step_of step.old) call).node call) at.reply) name.now (nodes_with caller at.reads [])) }
{
    let Replied { reply: own, reads } = at;
    step.carry_out_at_once(script, call, own)?;
    note_caller(step, name, caller, reads)
}

/// A call of the node's own process on a name whose deed is held here is started and served. Where it has its reply and
/// wakes nobody, no copy of it is kept meanwhile. Memory, too, as above.
pub fn serve_at_once(
    step: &mut Growing,
    script: &Script,
    name: Name,
    call: Call,
) -> Result<(), Memory>
    requires sound { IsSoundScript script.now }
    requires can_start { IsTrue (can_start (node_of step.old.node)) }
    ensures { OnOk result (serve_asked script.now (started (step_of step.old) call) name
        (asked_here (started (step_of step.old) call).node call) ≡ Some (step_of step.new)) }
{
    let alloc = step.node.alloc;
    let who = who_starts(&step.node);
    let struck = is_struck(&step.node, &name, &call);
    let answered = reply_at_once(alloc, &mut step.node.deeds, name, &who, &call)?;
    match answered {
        Some(at) => {
            step.strike_if(struck);
            end_at_once(step, script, &name, who.caller, call, at)
        }
        None => start_any(step, script, name, call),
    }
}

/// The error of a call on a number that names nothing.
fn no_such_name(name: &Name) -> Errno
    ensures { result ≡ no_such_name name.now }
{
    match name {
        Name::Proc(_) => Errno::Esrch,
        Name::Msg(_) | Name::Sem(_) => Errno::Einval,
    }
}

/// A call on a number that names nothing is carried out as in the kernel.
pub fn serve_nobody(
    step: &mut Growing,
    script: &Script,
    name: Name,
    asked: Asked,
) -> Result<(), Memory>
    requires sound { IsSoundScript script.now }
    ensures { OnOk result (step_of step.new ≡ serve_nobody script.now (step_of step.old) name asked) }
{
    step.carry_out(script, asked, Reply::Fail(no_such_name(&name)))
}
