//! How a process stands: unknown, living, doomed, waiting, ended or gone.
ghost use Rattle.std.specs.Prelude.{◌≡◌};
ghost use Rattle.std.specs.Option.{option_copied};
ghost use Rattle.mono_kernel.specs.Standing.{standing_of, standing_alive};

use crate::process::{LiveProcess, ProcessCell};
use pico_base::Sig;

/// How a process stands.
#[derive(Clone, Copy, Debug, PartialEq, Eq)]
pub enum Standing {
    /// There is no process of this number.
    Unknown,
    /// It lives and doesn't wait, and no signal will end it yet.
    Living,
    /// It lives and doesn't wait, and will end by this signal. `more` counts the entries that it may still have before
    /// that, 1 or 0.
    Doomed { sig: Sig, more: u8 },
    /// It waits, and will end by this signal, if there is one.
    Parked { doom: Option<Sig> },
    /// It has ended, and is kept for its parent.
    Ended,
    /// It has ended, and nobody waits for it any more.
    Gone,
}

/// How a living process stands.
fn of_alive(alive: &LiveProcess) -> Standing
    ensures { result ≡ standing_alive alive.now }
{
    let doom = alive.doom();
    if alive.is_parked() {
        return Standing::Parked { doom };
    }
    match doom {
        None => Standing::Living,
        Some(sig) => Standing::Doomed {
            sig,
            more: if alive.is_spent() { 0 } else { 1 },
        },
    }
}

/// How the process in this place stands, if there is one.
pub(crate) fn of_cell(cell: Option<&ProcessCell>) -> Standing
    ensures { result ≡ standing_of (option_copied cell.entry) }
{
    let Some(cell) = cell else {
        return Standing::Unknown;
    };
    match cell.alive() {
        Some(alive) => of_alive(alive),
        None if cell.is_gone() => Standing::Gone,
        None => Standing::Ended,
    }
}
