//! Bodies written as bytes.
ghost use Rattle.std.specs.Prelude.{◌≡◌, ◌∷◌, [], IfOk};
ghost use Rattle.fork_wait.specs.Spelling.{ending_bytes};
ghost use Rattle.node_serve.specs.Spelled.{IsEnding, IsSpelled};

use crate::{Body, Row};
use pico_base::{Bytes, Ending, Memory};
use std::alloc::Global;

// The codes of the bodies but for those of a queue and of a set, which write their own.
pub(crate) const LIVING: u8 = 1;

pub(crate) const ENDED: u8 = 2;

pub(crate) const GONE: u8 = 3;

pub(crate) const REMOVED: u8 = 6;

/// A living process: the 55 bytes of its signals, and its family.
fn pack_row(alloc: Global, row: &Row) -> Result<Bytes, Memory>
    ensures { IfOk result (IsSpelled (Body.Living row.now)) }
{
    let signals = row.signals.pack();
    let family = row.family.pack(alloc)?;
    let mut bytes = Vec::with_capacity(alloc, 56)?;
    bytes.push(LIVING)?;
    bytes.extend_from_slice(&signals)?;
    bytes.extend_from_slice(family.as_slice())?;
    Ok(Bytes::from_vec(bytes))
}

/// The two bytes of an ending: 0 and the status, or 1 and the signal's number.
fn ending_fields(ending: Ending) -> (u8, u8)
    ensures fields { result.0 ∷ result.1 ∷ [] ≡ ending_bytes ending }
    ensures within { IsEnding ending }
{
    match ending {
        Ending::Exited(status) => (0, status),
        Ending::Killed(sig) => (1, sig as u8),
    }
}

/// A process that has ended.
fn pack_ending(alloc: Global, ending: Ending) -> Result<Bytes, Memory>
    ensures { IfOk result (IsSpelled (Body.Ended ending)) }
{
    let (kind, value) = ending_fields(ending);
    Bytes::from_slice(alloc, &[ENDED, kind, value])
}

/// The body as bytes.
pub(crate) fn pack(alloc: Global, body: &Body) -> Result<Bytes, Memory>
    ensures { IfOk result (IsSpelled body.now) }
{
    match body {
        Body::Living(row) => pack_row(alloc, row),
        Body::Ended(ending) => pack_ending(alloc, *ending),
        Body::Gone => Bytes::from_slice(alloc, &[GONE]),
        Body::Queue(queue) => queue.pack(),
        Body::Set(set) => set.pack(),
        Body::Removed => Bytes::from_slice(alloc, &[REMOVED]),
    }
}
