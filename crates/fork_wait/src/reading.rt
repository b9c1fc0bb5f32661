//! Reading a packed family, which takes no memory: the lists have fixed room.
ghost use Rattle.std.specs.Prelude.{◌≡◌, ◌≤◌, [], IfSome, length};
ghost use Rattle.std.specs.Int.{w32};
ghost use Rattle.body_fields.specs.Fields.{Reads};
ghost use Rattle.kernel_model.specs.Row.{ended_child};
ghost use Rattle.fork_wait.specs.Reading.{all_ended_at, ended_at, ending_from, family_at, numbers_at};

use crate::ended::Ended;
use crate::family::MOST;
use arrayvec::ArrayVec;
use body_fields::{u8_at, u8_upto, u32_at};
use pico_base::{Ending, Pid, Sig};

/// Living children that were read.
pub(crate) type LivingList = ArrayVec<Pid, MOST>;

/// Ended children that were read, with their endings.
pub(crate) type EndedList = ArrayVec<Ended, MOST>;

/// The ending of these two bytes.
fn ending_of(kind: u8, value: u8) -> Option<Ending>
    ensures { result ≡ ending_from kind value }
{
    match kind {
        0 => Some(Ending::Exited(value)),
        1 => match Sig::from_number(value) {
            Some(sig) => Some(Ending::Killed(sig)),
            None => None,
        },
        _ => None,
    }
}

/// The number and the ending at the front.
#[tactic(auto, unfolding(crate::specs::Reading::ended_at))]
fn ended_of(bytes: &[u8]) -> Option<(u32, Ending, &[u8])>
    ensures { Reads (λ x. (ended_child x.0 x.1, x.2.now)) result (ended_at bytes.now) }
{
    let (number, rest) = u32_at(bytes)?;
    let (kind, rest) = u8_at(rest)?;
    let (value, rest) = u8_at(rest)?;
    let ending = ending_of(kind, value)?;
    Some((number, ending, rest))
}

/// Reads so many process numbers into an empty list, and gives the bytes after them.
fn read_numbers<'a>(into: &mut LivingList, count: u8, bytes: &'a [u8]) -> Option<&'a [u8]>
    requires empty { into.old.items ≡ [] }
    requires room { count ≤ 31 }
    ensures { Reads (λ rest. (into.new.items, rest.now)) result (numbers_at count bytes.now) }
{
    let mut rest = bytes;
    for _ in 0..count {
        let (number, after) = u32_at(rest)?;
        into.push(Pid(number));
        rest = after;
    }
    Some(rest)
}

/// Reads so many ended children into an empty list, and gives the bytes after them.
fn read_ended<'a>(into: &mut EndedList, count: u8, bytes: &'a [u8]) -> Option<&'a [u8]>
    requires empty { into.old.items ≡ [] }
    requires room { count ≤ 31 }
    ensures { Reads (λ rest. (into.new.items, rest.now)) result (all_ended_at count bytes.now) }
{
    let mut rest = bytes;
    for _ in 0..count {
        let (number, ending, after) = ended_of(rest)?;
        let pid = Pid(number);
        into.push(Ended { pid, ending });
        rest = after;
    }
    Some(rest)
}

/// The two lists of a family, from all of the bytes.
#[tactic(auto, unfolding(crate::specs::Reading::family_at))]
pub(crate) fn lists_of(bytes: &[u8]) -> Option<(LivingList, EndedList)>
    ensures { Reads (λ x. record { living = x.0.items; ended = x.1.items }) result (family_at bytes.now) }
{
    let mut living = LivingList::new();
    let mut ended = EndedList::new();
    let (count, rest) = u8_upto(MOST as u8, bytes)?;
    let rest = read_numbers(&mut living, count, rest)?;
    let (count, rest) = u8_upto(MOST as u8, rest)?;
    let rest = read_ended(&mut ended, count, rest)?;
    if !rest.is_empty() {
        return None;
    }
    Some((living, ended))
}
