//! Bodies read from bytes.
ghost use Rattle.std.specs.Prelude.{◌≡◌, ◌∷◌, [], ℕ, Err, None, true, false, IsTrue, IfOk, IfSome};
ghost use Rattle.std.specs.Bool.{OnTrue};
ghost use Rattle.pico_base.specs.declared.fault.UnpackFault.TheVariants.{NotABody};
ghost use Rattle.pico_base.specs.declared.reply.Ending.{Ending as Ends};
ghost use Rattle.fork_wait.specs.Spelling.{ending_bytes};
ghost use Rattle.node_serve.specs.declared.body.Row.{Row as Rows};
ghost use Rattle.node_serve.specs.declared.body.Body.{Body as Bodies};
ghost use Rattle.node_serve.specs.Spelled.{IsEnding, IsRow, IsSpelled, IsUnawaited, suits};

use crate::packing::{ENDED, GONE, LIVING, REMOVED};
use crate::{Body, Row};
use fork_wait::Family;
use pico_base::{Ending, Name, Sig, UnpackFault};
use signal_state::{PACKED, Signals};
use std::alloc::Global;
use sysv_msg::{HeldQueue, Queue};
use sysv_sem::SemSet;

/// The row of these bytes. NotABody: no row has them.
fn row_of(alloc: Global, bytes: &[u8]) -> Result<Row, UnpackFault>
    ensures found { IfOk result (λ row. IsRow row bytes.now) }
    ensures refused { result ≡ Err NotABody → (row : Rows) → IsRow row bytes.now → ⊥ }
{
    if bytes.len() < PACKED {
        return Err(UnpackFault::NotABody);
    }
    let (front, rest) = bytes.split_at(PACKED);
    let signals = match Signals::unpack(front) {
        Some(signals) => signals,
        None => return Err(UnpackFault::NotABody),
    };
    match Family::unpack(alloc, rest) {
        Ok(family) => Ok(Row { signals, family }),
        Err(fault) => Err(fault),
    }
}

/// The ending of these two bytes: 0 and the status, or 1 and a signal's number.
fn ending_of(kind: u8, value: u8) -> Option<Ending>
    ensures found { IfSome result (λ ending. IsEnding ending × (kind ∷ value ∷ [] ≡ ending_bytes ending)) }
    ensures refused { result ≡ None → (ending : Ends) → kind ∷ value ∷ [] ≡ ending_bytes ending → ⊥ }
{
    match kind {
        0 => Some(Ending::Exited(value)),
        1 => match Sig::from_number(value) {
            Some(sig) => Some(Ending::Killed(sig)),
            None => None,
        },
        _ => None,
    }
}

/// The body of a process. NotABody: no process has these bytes.
fn process_of(alloc: Global, bytes: &[u8]) -> Result<Body, UnpackFault>
    ensures found { IfOk result (λ body. IsSpelled body bytes.now) }
    ensures suits { IfOk result (λ body. (pid : ℕ) → IsTrue (suits body (Name.Proc pid))) }
    ensures refused { result ≡ Err NotABody → (pid : ℕ) (body : Bodies) → IsTrue (suits body (Name.Proc pid))
        → IsSpelled body bytes.now → ⊥ }
{
    match bytes {
        [LIVING, row @ ..] => Ok(Body::Living(row_of(alloc, row)?)),
        [ENDED, kind, value] => match ending_of(*kind, *value) {
            Some(ending) => Ok(Body::Ended(ending)),
            None => Err(UnpackFault::NotABody),
        },
        [GONE] => Ok(Body::Gone),
        _ => Err(UnpackFault::NotABody),
    }
}

/// The body of a queue. NotABody: no queue has these bytes.
fn queue_of(alloc: Global, bytes: &[u8]) -> Result<Body, UnpackFault>
    ensures found { IfOk result (λ body. IsSpelled body bytes.now) }
    ensures suits { IfOk result (λ body. (id : ℕ) → IsTrue (suits body (Name.Msg id))) }
    ensures refused { result ≡ Err NotABody → (id : ℕ) (body : Bodies) → IsTrue (suits body (Name.Msg id))
        → IsSpelled body bytes.now → ⊥ }
{
    match bytes {
        [REMOVED] => Ok(Body::Removed),
        _ => Ok(Body::Queue(HeldQueue::unpack(alloc, bytes)?)),
    }
}

/// The body of a set. NotABody: no set has these bytes.
fn set_of(alloc: Global, bytes: &[u8]) -> Result<Body, UnpackFault>
    ensures found { IfOk result (λ body. IsSpelled body bytes.now) }
    ensures suits { IfOk result (λ body. (id : ℕ) → IsTrue (suits body (Name.Sem id))) }
    ensures refused { result ≡ Err NotABody → (id : ℕ) (body : Bodies) → IsTrue (suits body (Name.Sem id))
        → IsSpelled body bytes.now → ⊥ }
{
    match bytes {
        [REMOVED] => Ok(Body::Removed),
        _ => Ok(Body::Set(SemSet::unpack(alloc, bytes)?)),
    }
}

/// The body of these bytes, of a kind that goes with the name. NotABody: none of that kind has them.
pub(crate) fn unpack(alloc: Global, name: Name, bytes: &[u8]) -> Result<Body, UnpackFault>
    ensures found { IfOk result (λ body. IsSpelled body bytes.now) }
    ensures suits { IfOk result (λ body. IsTrue (suits body name)) }
    ensures refused { result ≡ Err NotABody → (body : Bodies) → IsTrue (suits body name) → IsSpelled body bytes.now
        → ⊥ }
{
    match name {
        Name::Proc(_) => process_of(alloc, bytes),
        Name::Msg(_) => queue_of(alloc, bytes),
        Name::Sem(_) => set_of(alloc, bytes),
    }
}

/// Whether the bytes are those of a queue or set that was removed.
fn are_removed(bytes: &[u8]) -> bool
    ensures { OnTrue result (bytes.now ≡ 6 ∷ []) }
{
    matches!(bytes, [REMOVED])
}

/// Only where the bytes spell a queue or a set that goes with the name, and at which nobody waits, is it true. It takes
/// no memory.
pub fn is_unawaited(name: Name, bytes: &[u8]) -> bool
    ensures { OnTrue result (IsUnawaited name bytes.now) }
{
    match name {
        Name::Proc(_) => false,
        Name::Msg(_) => are_removed(bytes) || Queue::is_unawaited(bytes),
        Name::Sem(_) => are_removed(bytes) || SemSet::is_unawaited(bytes),
    }
}
