//! The parts of a packed family, written one behind another.
ghost use Rattle.std.specs.Prelude.{◌≡◌, ◌<◌, ◌^◌, ◌++◌, All, OnOk};
ghost use Rattle.std.specs.Int.{w32, to_be_bytes};
ghost use Rattle.std.specs.List.{flat_map};
ghost use Rattle.fork_wait.specs.Spelling.{ended_bytes, ending_bytes};

use crate::ended::Ended;
use pico_base::{Ending, Memory, Pid};

/// Writes a process number.
fn write_number(bytes: &mut Vec<u8>, pid: Pid) -> Result<(), Memory>
    ensures written { OnOk result (bytes.new.items ≡ bytes.old.items ++ to_be_bytes w32 pid) }
    ensures number { pid < 2 ^ 32 }
{
    bytes.extend_from_slice(&pid.0.to_be_bytes())?;
    Ok(())
}

/// Writes an ending.
fn write_ending(bytes: &mut Vec<u8>, ending: Ending) -> Result<(), Memory>
    ensures { OnOk result (bytes.new.items ≡ bytes.old.items ++ ending_bytes ending) }
{
    let (kind, value) = match ending {
        Ending::Exited(status) => (0, status),
        Ending::Killed(sig) => (1, sig as u8),
    };
    bytes.extend_from_slice(&[kind, value])?;
    Ok(())
}

/// Writes these process numbers.
pub(crate) fn write_numbers(bytes: &mut Vec<u8>, numbers: &[Pid]) -> Result<(), Memory>
    ensures written { OnOk result (bytes.new.items ≡ bytes.old.items ++ flat_map (to_be_bytes w32) numbers.now) }
    ensures numbers { OnOk result (All (λ n. n < 2 ^ 32) numbers.now) }
{
    for pid in numbers {
        write_number(bytes, *pid)?;
    }
    Ok(())
}

/// Writes these ended children.
pub(crate) fn write_ended(bytes: &mut Vec<u8>, ended: &[Ended]) -> Result<(), Memory>
    ensures written { OnOk result (bytes.new.items ≡ bytes.old.items ++ flat_map ended_bytes ended.now) }
    ensures numbers { OnOk result (All (λ e. e.pid < 2 ^ 32) ended.now) }
{
    for child in ended {
        write_number(bytes, child.pid)?;
        write_ending(bytes, child.ending)?;
    }
    Ok(())
}
