//! A call is served on the deeds that a node holds.
ghost use Rattle.std.specs.Prelude.{◌≡◌, ◌<◌, IfOk, OnErr, IsTrue, nat_eq};
ghost use Rattle.std.specs.List.{list_any};
ghost use Rattle.node_model.specs.Kinds.{put_named};
ghost use Rattle.node_model.specs.Serving.{name_for};
ghost use Rattle.node_serve.specs.Callers.{waiting_with};
ghost use Rattle.node_serve.specs.Serving.{AreSame, Serves, ServesAsDefined, ServesAsTheKernel, ServesName, bury_found, child_in, gives_message, gives_number, may_be_served, reads_among};

use crate::carrying::on_body;
use crate::{Body, Who};
use deed_box::{Deed, Deeds};
use pico_base::{Call, Home, Memory, Name, Pid, Reply, home};
use std::alloc::Global;
use waiting_model::{Wake, Wakes};

/// Which of those who are woken have read: those who are given a message, or those of these processes, each in a
/// `semop` that takes from a semaphore, where it was carried out.
#[derive(Debug, Drop)]
pub enum Readers {
    OfMessages,
    OfSemaphores(Vec<Pid>),
}

/// Whether the process is one of these.
fn is_among(pids: &[Pid], pid: Pid) -> bool
    ensures { result ≡ list_any (λ other. nat_eq other pid) pids.now }
{
    pids.iter().any(|other| other.0 == pid.0)
}

/// Whether the reply is a message.
fn gives_message(reply: &Reply) -> bool
    ensures { result ≡ gives_message reply.now }
{
    matches!(reply, Reply::Message { .. })
}

/// Whether the reply is a number.
fn gives_number(reply: &Reply) -> bool
    ensures { result ≡ gives_number reply.now }
{
    matches!(reply, Reply::Num(_))
}

impl Readers {
    /// Whether the call of one who is woken has read.
    pub fn have(&self, wake: &Wake) -> bool
        ensures { result ≡ reads_among self.now wake.now }
    {
        match self {
            Readers::OfMessages => gives_message(&wake.reply),
            Readers::OfSemaphores(pids) => is_among(pids.as_slice(), wake.pid)
                && gives_number(&wake.reply),
        }
    }
}

/// What serving a call came to.
#[derive(Debug, Drop)]
pub enum Served {
    /// The call was carried out. Its caller has a reply, or has to wait where there is none; those who are woken are in
    /// order. `reads` says whether it was a receive that gave a message, or a `semop` that took from a semaphore, and
    /// `readers` of which of the woken that is so.
    Did {
        own: Option<Reply>,
        wakes: Wakes,
        reads: bool,
        readers: Readers,
    },
    /// There is no room for one more who waits at the name, or this process waits there already.
    NotAdmitted,
    /// The deed of the call's name isn't here.
    NotHeld,
}

/// The name that a call is carried out on, where it isn't one of the keys' or an end.
pub fn name_for(caller: Pid, call: &Call) -> Option<Name>
    ensures { result ≡ name_for caller call.now }
{
    match home(caller, call) {
        Home::Own => Some(Name::Proc(caller)),
        Home::At(name) | Home::Removal(name) => Some(name),
        Home::Keys | Home::Parent => None,
    }
}

/// A process is gone: its deed says so, which is a new one if it isn't here. It takes no memory, since there is room.
pub fn bury(deeds: &mut Deeds<Body>, child: Pid)
    requires { 0 < deeds.old.spare }
    ensures { deeds.new.bodies ≡ put_named deeds.old.bodies (Name.Proc child) Body.Gone }
{
    if deeds.has(Name::Proc(child)) {
        if let Some(body) = deeds.get_mut(Name::Proc(child)) {
            *body = Body::Gone;
        }
    } else {
        match deeds.put(Deed::create(Name::Proc(child), Body::Gone)) {
            Ok(()) => {}
            Err(_) => unreachable!(),
        }
    }
}

/// A call on the body of a name that is held. A refusal for want of memory changes no body.
fn on_held(
    alloc: Global,
    deeds: &mut Deeds<Body>,
    name: Name,
    who: &Who,
    call: &Call,
) -> Result<Served, Memory>
    ensures ok { IfOk result (ServesName deeds.old.bodies name (waiting_with who.now call.now) deeds.new.bodies) }
    ensures err { OnErr result (AreSame deeds.old.bodies deeds.new.bodies) }
    ensures spare { deeds.new.spare ≡ deeds.old.spare }
{
    deeds.rise();
    match deeds.get_mut(name) {
        Some(body) => Ok(on_body(alloc, body, name, who, call)?),
        None => Ok(Served::NotHeld),
    }
}

/// The child that a reply names.
pub(crate) fn child_in(own: &Option<Reply>) -> Option<Pid>
    ensures { result ≡ child_in own.now }
{
    match own {
        Some(Reply::Child { pid, .. }) => Some(*pid),
        _ => None,
    }
}

/// The child that the call found is gone.
fn bury_found(deeds: &mut Deeds<Body>, own: &Option<Reply>)
    requires { 0 < deeds.old.spare }
    ensures { deeds.new.bodies ≡ bury_found own.now deeds.old.bodies }
{
    if let Some(child) = child_in(own) {
        bury(deeds, child);
    }
}

/// Carries a call out on the deed of its name, where that is here.
fn carry_out(
    alloc: Global,
    deeds: &mut Deeds<Body>,
    who: &Who,
    call: &Call,
) -> Result<Served, Memory>
    ensures ok { IfOk result (Serves deeds.old.bodies (waiting_with who.now call.now) deeds.new.bodies) }
    ensures err { OnErr result (AreSame deeds.old.bodies deeds.new.bodies) }
{
    let Some(name) = name_for(who.pid, call) else {
        return Ok(Served::NotHeld);
    };
    deeds.reserve(1)?;
    let served = on_held(alloc, deeds, name, who, call)?;
    if let Served::Did { own, .. } = &served {
        bury_found(deeds, own);
    }
    Ok(served)
}

/// Carries a call out on the deed of its name, or lets its caller wait there. NotHeld comes exactly where that deed
/// isn't here, and NotAdmitted where it has no room for one more who waits or the process waits there already; then
/// nothing has changed. A removal makes the body Removed, and whoever waits there is woken; a child that `waitpid`
/// found is gone; all other bodies stay. `defined` says the same by the definition of a served call, and `kernel`, for
/// a call that can't have to wait and a name at which nobody waits, by the transition of any valid kernel that agrees
/// with the deeds on the name. A refusal for want of memory changes no body.
pub fn serve(
    alloc: Global,
    deeds: &mut Deeds<Body>,
    who: &Who,
    call: &Call,
) -> Result<Served, Memory>
    requires { IsTrue (may_be_served call.now) }
    ensures ok { IfOk result (Serves deeds.old.bodies (waiting_with who.now call.now) deeds.new.bodies) }
    ensures defined { IfOk result (ServesAsDefined deeds.old.bodies (waiting_with who.now call.now) deeds.new.bodies) }
    ensures kernel { IfOk result
        (ServesAsTheKernel deeds.old.bodies (waiting_with who.now call.now) deeds.new.bodies) }
    ensures err { OnErr result (AreSame deeds.old.bodies deeds.new.bodies) }
{
    carry_out(alloc, deeds, who, call)
}
