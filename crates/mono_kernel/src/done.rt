//! What a call comes to that is carried out.
ghost use Rattle.std.specs.Prelude.{◌≡◌, []};
ghost use Rattle.mono_kernel.specs.declared.done.Done.TheVariants.{Replies};
ghost use Rattle.mono_kernel.specs.Done.{done_of};

use crate::fault::CallFault;
use pico_base::{Call, Reply, Sequence, Woken};
use std::alloc::Global;

/// The caller waits in this call, or has its reply, and these callers are woken.
#[derive(Drop)]
pub(crate) enum Done {
    Parks(Call),
    Replies { reply: Reply, woken: Woken },
}

impl Done {
    /// The same of a call that makes something new, or has no transition.
    pub(crate) fn of(alloc: Global, reply: Result<Reply, CallFault>) -> Result<Done, CallFault>
        ensures { result ≡ done_of reply }
    {
        match reply {
            Ok(reply) => Ok(Done::alone(alloc, reply)),
            Err(fault) => Err(fault),
        }
    }

    /// The caller has its reply, and nobody is woken.
    pub(crate) fn alone(alloc: Global, reply: Reply) -> Done
        ensures { result ≡ Replies reply [] }
    {
        Done::Replies {
            reply,
            woken: Sequence::new(alloc),
        }
    }
}
