//! The stamp of an event, and its place in the journal and in the log.
ghost use Rattle.std.specs.Prelude.{◌≡◌, ◌++◌, [], ◌∷◌, ℕ, IfErr, IfOk, Err};
ghost use Rattle.log_model.specs.declared.answer.LogFault.TheVariants as faults;
ghost use Rattle.log_model.specs.Turns.{IsStamped, HasNoStamp};
ghost use Rattle.node_log.specs.Steps.{IsStampFault, IsSameSeat};
ghost use Rattle.node_log.specs.Parts.{stamped_event};

use crate::parting::Log;
use journal_core::{AppendFault, JSeat, JournalLock};
use log_model::LogFault;
use pico_base::{Entries, Event, Node};
use stamp_merge::Stamped;
use std::sync::Wait;

/// The greatest stamp, 2^63 - 1.
const LAST: u64 = 0x7fff_ffff_ffff_ffff;

/// The stamp of an event: one more than the floor, or what an append gives where it makes entries.
fn stamp_of<R: Wait>(
    rt: &R,
    lock: &JournalLock,
    seat: &mut JSeat,
    floor: u64,
    entries: Entries,
) -> Result<u64, LogFault>
    requires { seat.old.lock ≡ lock.now.id }
    ensures ok { IfOk result (λ stamp. IsStamped floor entries seat.old seat.new stamp) }
    ensures end { (last : ℕ) → result ≡ Err (faults.StampEnd last)
        → HasNoStamp floor entries seat.old seat.new last }
    ensures cause { IfErr result IsStampFault }
    ensures same { IsSameSeat seat.old seat.new }
{
    if entries.as_slice().is_empty() {
        return if floor < LAST {
            Ok(floor + 1)
        } else {
            Err(LogFault::StampEnd { last: floor })
        };
    }
    match lock.append(rt, seat, floor, entries) {
        Ok(stamp) => Ok(stamp),
        Err(AppendFault::Memory) => Err(LogFault::Memory),
        Err(AppendFault::StampEnd { last }) => Err(LogFault::StampEnd { last }),
    }
}

/// Notes an event of this node under its stamp: its entries go into the journal, and it into the log. Its place in the
/// log is reserved first, so that an event whose entries are appended is logged, too.
pub(crate) fn note_event<R: Wait>(
    rt: &R,
    lock: &JournalLock,
    seat: &mut JSeat,
    log: &mut Log,
    floor: u64,
    event: (Node, Event),
    entries: Entries,
) -> Result<u64, LogFault>
    requires { seat.old.lock ≡ lock.now.id }
    ensures ok { IfOk result (λ stamp. IsStamped floor entries seat.old seat.new stamp) }
    ensures logged { IfOk result (λ stamp. log.new ≡ log.old ++ stamped_event stamp event ∷ []) }
    ensures end { (last : ℕ) → result ≡ Err (faults.StampEnd last)
        → HasNoStamp floor entries seat.old seat.new last × (log.new ≡ log.old) }
    ensures cause { IfErr result IsStampFault }
    ensures same { IsSameSeat seat.old seat.new }
{
    let events = log.as_mut_vec();
    if events.reserve(1).is_err() {
        return Err(LogFault::Memory);
    }
    let stamp = stamp_of(rt, lock, seat, floor, entries)?;
    events.push_reserved(Stamped {
        stamp,
        node: event.0,
        item: event.1,
    });
    Ok(stamp)
}
