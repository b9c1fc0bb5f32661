//! The run of a script with threads.
ghost use Rattle.std.specs.Prelude.{IfOk};
ghost use Rattle.kernel_model.specs.Script.{IsSoundScript};
ghost use Rattle.pico_run.specs.Rested.{IsRested};

use crate::joining::run_threads;
use crate::merging::merge_threads;
use crate::rested::Rested;
use crate::resting::rest;
use host_iface::Gate;
use pico_base::{Memory, Node, Script};
use std::alloc::Global;
use std::sync::Wait;
use std::thread::Threads;

/// Runs a script with a thread for each of its picoprocesses, to rest: whatever the threads do, what they did and what
/// is stepped behind it is one run of the machine. The gate is passed before each turn of a thread, and no answer
/// depends on it. The answer `Memory` comes from want of memory alone.
pub fn run<R: Threads + Wait + Sync, G: Gate>(
    rt: &R,
    alloc: Global,
    script: Script,
    gate: &G,
) -> Result<Rested, Memory>
    requires { IsSoundScript script }
    ensures { IfOk result (IsRested script) }
{
    let last = Node(script.blocks.len() as u8);
    let threaded = run_threads(rt, alloc, &script, gate)?;
    let so_far = merge_threads(alloc, script, threaded)?;
    rest(alloc, so_far, last)
}
