//! A stream, which its two ends share.
ghost use Rattle.std.specs.Prelude.{◌≡◌, [], IfOk};

use crate::bell::Bell;
use crate::company::Company;
use crate::inlet::In;
use crate::order::{Parts, Queue};
use crate::outlet::Out;
use pico_base::Memory;
use std::alloc::Global;
use std::sync::Arc;

/// The queue of a stream. What is left in it is let go with the last of its ends.
pub(crate) struct Stream {
    pub(crate) queue: Queue,
}

impl Drop for Stream {
    fn drop(self) {
        let Self { queue } = self;
        queue.destroy();
    }
}

/// The two ends of a new stream, on which nothing was sent.
pub fn pair(alloc: Global) -> Result<(Out, In), Memory>
    ensures one { IfOk result (λ ends. ends.0.stream ≡ ends.1.stream) }
    ensures new { IfOk result (λ ends.
        (ends.0.sent ≡ []) × (ends.1.taken ≡ []) × (ends.1.told ≡ []) × (ends.1.looks ≡ 0)) }
{
    let bell = Bell::new(alloc, &Company::new(alloc)?)?;
    pair_to(alloc, &bell)
}

/// The same, for a stream to the receiver with this bell.
pub fn pair_to(alloc: Global, bell: &Bell) -> Result<(Out, In), Memory>
    ensures one { IfOk result (λ ends. ends.0.stream ≡ ends.1.stream) }
    ensures new { IfOk result (λ ends.
        (ends.0.sent ≡ []) × (ends.1.taken ≡ []) × (ends.1.told ≡ []) × (ends.1.looks ≡ 0)) }
{
    let (rung, heard) = (bell.share()?, bell.share()?);
    let (queue, mut sender) = Queue::with_rule(alloc)?;
    let taker = queue.another::<Parts>(&mut sender);
    let stream = Arc::new(alloc, Stream { queue })?;
    let theirs = stream.clone()?;
    Ok((
        Out::new(alloc, stream, rung, sender),
        In::new(theirs, heard, taker),
    ))
}
