//! Calls of a process on its own row.
ghost use Rattle.std.specs.Prelude.{◌≡◌, IfOk, IsSome, OnErr, OnOk};
ghost use Rattle.node_model.specs.Kinds.{put_named};
ghost use Rattle.node_serve.specs.Callers.{waiting_with};
ghost use Rattle.node_serve.specs.Own.{AnswersOwnOr, HasOwnOr, OwnOr, is_on_own_row, own_reply, reply_on_body, reply_on_held};
ghost use Rattle.node_serve.specs.Serving.{bury_found, child_in};

use crate::carrying::is_own;
use crate::rows::on_row;
use crate::serving::{bury, child_in};
use crate::{Body, Who};
use deed_box::Deeds;
use pico_base::{Call, Memory, Name, Pid, Reply};

/// Whether the call is one of a process on its own row.
#[inline(always)]
fn is_on_own_row(caller: Pid, call: &Call) -> bool
    ensures { result ≡ is_on_own_row caller call.now }
{
    match call {
        Call::Kill { .. } => is_own(caller, call),
        Call::GetPid | Call::SigAction { .. } | Call::SigProcMask { .. } => true,
        Call::SigPending | Call::Handled { .. } | Call::WaitPid { .. } => true,
        _ => false,
    }
}

/// A call on the body of the process that makes it. None: it has to wait, or this process doesn't live or is its own
/// child.
#[inline(always)]
fn on_own_body(body: &mut Body, who: &Who, call: &Call) -> Option<Reply>
    ensures due { result ≡ reply_on_body body.old (waiting_with who.now call.now) }
    ensures left { OwnOr body.old (waiting_with who.now call.now) body.new result }
{
    match body {
        Body::Living(row) => {
            if row.family.is_child(who.pid) {
                return None;
            }
            on_row(row, who.pid, call)
        }
        _ => None,
    }
}

/// A call on the row of the process that makes it, where that is held.
#[inline(always)]
fn on_own_deed(deeds: &mut Deeds<Body>, who: &Who, call: &Call) -> Option<Reply>
    ensures due { result ≡ reply_on_held deeds.old.bodies (waiting_with who.now call.now) }
    ensures left { HasOwnOr deeds.old.bodies (waiting_with who.now call.now) deeds.new.bodies result }
{
    deeds.rise();
    match deeds.get_mut(Name::Proc(who.pid)) {
        Some(body) => on_own_body(body, who, call),
        None => None,
    }
}

/// A child that the call found is gone, for which room is made.
#[cold]
fn bury_child(deeds: &mut Deeds<Body>, child: Pid) -> Result<(), Memory>
    ensures { OnOk result (deeds.new.bodies ≡ put_named deeds.old.bodies (Name.Proc child) Body.Gone) }
{
    deeds.reserve(1)?;
    bury(deeds, child);
    Ok(())
}

/// The child that the call found is gone, where it found one. Only then memory may be refused.
#[inline(always)]
fn bury_found(deeds: &mut Deeds<Body>, own: &Option<Reply>) -> Result<(), Memory>
    ensures buried { OnOk result (deeds.new.bodies ≡ bury_found own.now deeds.old.bodies) }
    ensures memory { OnErr result (IsSome (child_in own.now)) }
{
    match child_in(own) {
        Some(child) => bury_child(deeds, child),
        None => Ok(()),
    }
}

/// A call of a process on its own row has its reply exactly where that row is held, the process isn't its own child,
/// and the call needn't wait. A child that it found is gone. None: it is another call, or one of these isn't so;
/// nothing has changed. Memory is refused only to a call that finds a child; then nothing is said of what is left.
#[inline(always)]
pub fn reply_on_own(
    deeds: &mut Deeds<Body>,
    who: &Who,
    call: &Call,
) -> Result<Option<Reply>, Memory>
    ensures due { IfOk result (λ own. own ≡ own_reply deeds.old.bodies (waiting_with who.now call.now)) }
    ensures memory { OnErr result
        (IsSome (child_in (own_reply deeds.old.bodies (waiting_with who.now call.now)))) }
    ensures left { IfOk result (AnswersOwnOr deeds.old.bodies (waiting_with who.now call.now) deeds.new.bodies) }
{
    if !is_on_own_row(who.pid, call) {
        return Ok(None);
    }
    let own = on_own_deed(deeds, who, call);
    bury_found(deeds, &own)?;
    Ok(own)
}
