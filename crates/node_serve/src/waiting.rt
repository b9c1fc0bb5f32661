//! Calls as their callers would wait, and what comes of one that wakes nobody.
ghost use Rattle.std.specs.Prelude.{◌≡◌, [], IfOk, Some};
ghost use Rattle.node_serve.specs.Callers.{waiting_with};

use crate::Who;
use pico_base::{Call, Memory, Reply};
use std::alloc::Global;
use waiting_model::{Applied, Waiting, Wakes};

/// The caller as it would wait, with a copy of its call.
#[inline(always)]
pub(crate) fn waiting_with(alloc: Global, who: &Who, call: &Call) -> Result<Waiting, Memory>
    ensures { IfOk result (λ waiting. waiting ≡ waiting_with who.now call.now) }
{
    Ok(Waiting {
        caller: who.caller,
        ticket: who.ticket,
        pid: who.pid,
        call: call.try_copy(alloc)?,
    })
}

/// The caller has this reply, if there is one, and nobody is woken.
pub(crate) fn alone(alloc: Global, own: Option<Reply>) -> Applied
    ensures { result ≡ record { own = own; wakes = [] } }
{
    Applied {
        own,
        wakes: Wakes::new(alloc),
    }
}

/// The caller has this reply, and nobody is woken.
pub(crate) fn at_once(alloc: Global, reply: Reply) -> Applied
    ensures { result ≡ record { own = Some reply; wakes = [] } }
{
    alone(alloc, Some(reply))
}
