//! A call is carried out on the deed that is held for it.
ghost use Rattle.std.specs.Prelude.{◌≡◌, [], IfOk, IfSome, IsTrue, Some, map};
ghost use Rattle.std.specs.List.{filter};
ghost use Rattle.node_model.specs.Carrying.{makes_or_ends};
ghost use Rattle.node_model.specs.Serving.{name_for};
ghost use Rattle.serve_laws.specs.Served.{MakesOwn};
ghost use Rattle.pico_base.specs.declared.numbers.Name.{Name as Names};
ghost use Rattle.waiting_model.specs.declared.callers.Waiting.{Waiting as Waits};
ghost use Rattle.node_model.specs.Kinds.{Named, get_named};
ghost use Rattle.node_serve.specs.declared.body.Body.{Body as Carried};
ghost use Rattle.node_serve.specs.Bodies.{body_of};
ghost use Rattle.node_serve.specs.Callers.{waiting_with};
ghost use Rattle.node_serve.specs.Spelled.{suits};
ghost use Rattle.node_serve.specs.Serving.{MayMake, may_be_served, reads_among};
ghost use Rattle.serve_rules.specs.Held.{IsServed, IsServedHere};

use deed_box::{Deeds, Shared};
use node_serve::{Body, Readers, Served, Who, name_for, serve};
use node_state::forms::is_withdrawal;
use node_state::unreached;
use pico_base::{Call, Home, Memory, Name, Node, Pid, Reply, home};
use std::alloc::Global;
use waiting_model::{Wake, Wakes};

/// Whether the call takes a number, gets something by a key, or ends its process.
fn makes_or_ends(call: &Call) -> bool
    ensures { result ≡ makes_or_ends call.now }
{
    match call {
        Call::Fork { .. } | Call::MsgGet { .. } | Call::SemGet { .. } => true,
        Call::Exit { .. } | Call::Killed { .. } => true,
        _ => false,
    }
}

/// Whether the call is one that is carried out on a deed alone.
fn may_be_served(call: &Call) -> bool
    ensures { result ≡ may_be_served call.now }
{
    !makes_or_ends(call) && !is_withdrawal(call)
}

/// Whether this body is of a process that lives and isn't its own child.
fn makes_own(body: &Body, caller: Pid) -> bool
    ensures { IsTrue result → MakesOwn caller (body_of body.now) }
{
    match body {
        Body::Living(row) => !row.family.is_child(caller),
        _ => false,
    }
}

/// Whether the caller's own body, where that is held, is of a process that lives and isn't its own child.
fn may_act(deeds: &Deeds<Body>, caller: Pid) -> bool
    ensures { IsTrue result → IfSome (get_named deeds.now.bodies (Name.Proc caller)) (λ body.
        MakesOwn caller (body_of body)) }
{
    match deeds.get(Name::Proc(caller)) {
        Some(body) => makes_own(body, caller),
        None => true,
    }
}

/// Whether the name's body, where that is held, goes with the name.
fn fits_at(deeds: &Deeds<Body>, name: &Name) -> bool
    ensures { IsTrue result → IfSome (get_named deeds.now.bodies name.now) (λ body. IsTrue (suits body name.now)) }
{
    match deeds.get(*name) {
        Some(body) => body.fits(*name),
        None => true,
    }
}

/// Whether the call may be carried out on what is held: the body of its name goes with the name, and whoever makes a
/// call of its own lives and isn't its own child.
fn may_make(deeds: &Deeds<Body>, caller: Pid, call: &Call) -> bool
    ensures { IsTrue result → MayMake deeds.now.bodies caller call.now }
{
    match home(caller, call) {
        Home::Own => may_act(deeds, caller),
        Home::At(name) | Home::Removal(name) => fits_at(deeds, &name),
        Home::Keys | Home::Parent => true,
    }
}

/// Whether the call is carried out on this name.
fn is_on(name: &Name, caller: Pid, call: &Call) -> bool
    ensures { IsTrue result → name_for caller call.now ≡ Some name.now }
{
    match name_for(caller, call) {
        Some(other) => other == *name,
        None => false,
    }
}

/// The nodes of those who are woken and whose calls have read, in order.
#[inline(never)]
fn nodes_of(alloc: Global, wakes: &[Wake], readers: &Readers) -> Result<Vec<Node>, Memory>
    ensures { IfOk result (λ nodes. nodes.items
        ≡ map (λ w. w.caller) (filter (reads_among readers.now) wakes.now)) }
{
    let mut nodes = Vec::new(alloc);
    for wake in wakes {
        if readers.have(wake) {
            nodes.push(wake.caller)?;
        }
    }
    Ok(nodes)
}

/// What serving a call came to.
#[derive(Drop)]
pub(crate) enum Held {
    /// It was carried out, its caller has this reply, and nobody is woken. `reads` says whether it read.
    AtOnce {
        reply: Reply,
        reads: bool,
    },
    /// It was carried out. Its caller has a reply, or has to wait where there is none; those who are woken are in
    /// order.
    /// `reads` says whether it read, and `readers` has the nodes of the woken whose calls did.
    Did {
        own: Option<Reply>,
        wakes: Wakes,
        reads: bool,
        readers: Vec<Node>,
    },
    /// There is no room for one more who waits at the name, or the process waits there already: nothing was done.
    NotAdmitted,
}

/// What a call came to that woke nobody.
#[inline(always)]
fn unwoken(alloc: Global, own: Option<Reply>, reads: bool) -> Held
    ensures { (old : Named Carried) (name : Names) (who : Waits) (new : Named Carried)
        → IsServed old name who new own [] reads [] → IsServedHere old name who new result }
{
    match own {
        Some(reply) => Held::AtOnce { reply, reads },
        None => Held::Did {
            own: None,
            wakes: Wakes::new(alloc),
            reads,
            readers: Vec::new(alloc),
        },
    }
}

/// The call is carried out on the deed of its name. Memory, too, where the name isn't its own, the deed isn't held or
/// its body doesn't go with its name, and for a call that isn't carried out on a deed alone.
pub(crate) fn serve_held(
    alloc: Global,
    deeds: &mut Deeds<Body>,
    name: &Name,
    who: &Who,
    call: &Call,
) -> Result<Held, Memory>
    ensures { IfOk result
        (IsServedHere deeds.old.bodies name.now (waiting_with who.now call.now) deeds.new.bodies) }
{
    if !may_be_served(call) || !may_make(deeds, who.pid, call) || !is_on(name, who.pid, call) {
        return Err(unreached());
    }
    match serve(alloc, deeds, who, call)? {
        Served::Did {
            own,
            wakes,
            reads,
            readers,
        } => {
            if wakes.len() == 0 {
                return Ok(unwoken(alloc, own, reads));
            }
            let readers = nodes_of(alloc, wakes.as_slice(), &readers)?;
            Ok(Held::Did {
                own,
                wakes,
                reads,
                readers,
            })
        }
        Served::NotAdmitted => Ok(Held::NotAdmitted),
        Served::NotHeld => Err(unreached()),
    }
}
