//! Entries behind a journal that was found.
ghost use Rattle.std.specs.Prelude.{◌≡◌, ◌+◌, ◌≤◌, ◌++◌, length, vec_len, vec_capacity};
ghost use Rattle.journal_core.specs.Journal.{last_stamp, under};
ghost use Rattle.journal_core.specs.Turns.{Adds};

use crate::{AppendFault, Stamped};
use pico_base::Entries;

/// The greatest stamp, 2^63 - 1.
const LAST: u64 = 0x7fff_ffff_ffff_ffff;

/// The stamp of the last entry, and 0 where there is none.
fn last_stamp(journal: &[Stamped]) -> u64
    ensures { result ≡ last_stamp journal.now }
{
    match journal.last() {
        Some(line) => line.stamp,
        None => 0,
    }
}

/// Adds the entries of this seat behind the journal, for which there is room.
fn push_all(journal: &mut Vec<Stamped>, stamp: u64, seat: u32, entries: Entries)
    requires { vec_len journal.old + length entries ≤ vec_capacity journal.old }
    ensures { journal.new.items ≡ journal.old.items ++ under stamp seat entries }
{
    for entry in entries.into_vec() {
        journal.push_reserved(Stamped { stamp, seat, entry });
    }
}

/// Adds the entries of this seat behind the journal, under the next stamp. The room is taken before they are added, so
/// the journal is unchanged where it is refused.
pub(crate) fn add(
    journal: &mut Vec<Stamped>,
    floor: u64,
    seat: u32,
    entries: Entries,
) -> Result<u64, AppendFault>
    ensures { Adds floor seat entries journal.old.items journal.new.items result }
{
    let last = floor.max(last_stamp(journal.as_slice()));
    if last >= LAST {
        return Err(AppendFault::StampEnd { last });
    }
    if journal.reserve(entries.len()).is_err() {
        return Err(AppendFault::Memory);
    }
    push_all(journal, last + 1, seat, entries);
    Ok(last + 1)
}
