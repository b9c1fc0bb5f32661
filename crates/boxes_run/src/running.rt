//! The run of several sandboxes.
ghost use Rattle.std.specs.Prelude.{◌≡◌, ◌≤◌, map, All, Ok, IfOk};
ghost use Rattle.kernel_model.specs.Script.{IsSoundScript};
ghost use Rattle.sandbox_set.specs.Sound.{blocks_in};
ghost use Rattle.pico_run.specs.Rested.{IsRested};
ghost use Rattle.boxes_run.specs.Jobs.{AreOutcomes};
ghost use Rattle.boxes_run.specs.Runs.{AreRested, scripts_of};

use crate::job::{Job, jobs_of};
use crate::shifted::Shifted;
use host_iface::Gate;
use pico_base::{Memory, Sequence};
use pico_run::{Rested, run};
use sandbox_set::Boxes;
use std::alloc::Global;
use std::sync::Wait;
use std::thread::{Threads, map_vec};

/// What runs with threads came to.
pub type RestedList = Sequence<Rested>;

// Runs one sandbox with threads of its own.
fn run_one<R: Threads + Wait + Sync, G: Gate>(
    rt: &R,
    alloc: Global,
    job: Job,
    gate: &G,
) -> Result<Rested, Memory>
    requires { IsSoundScript job.script }
    ensures { IfOk result (IsRested job.script) }
{
    let Job { script, before } = job;
    let own = Shifted { gate, before };
    run(rt, alloc, script, &own)
}

// Runs each sandbox in a thread of its own, which starts those of its nodes and is one of them.
fn run_each<R: Threads + Wait + Sync, G: Gate>(
    rt: &R,
    alloc: Global,
    jobs: Vec<Job>,
    gate: &G,
) -> Result<Vec<Result<Rested, Memory>>, Memory>
    requires { All (λ j. IsSoundScript j.script) jobs.items }
    ensures { IfOk result (λ outcomes. AreOutcomes jobs.items outcomes.items) }
{
    let outcomes = map_vec(
        rt,
        jobs,
        &move |job: Job| -> Result<Rested, Memory>
            requires { IsSoundScript job.script }
            ensures { IfOk result (IsRested job.script) }
        { run_one(rt, alloc, job, gate) },
    )?;
    Ok(outcomes)
}

// What all came to; want of memory where one wanted it.
fn all_of(alloc: Global, outcomes: Vec<Result<Rested, Memory>>) -> Result<RestedList, Memory>
    ensures { IfOk result (λ list. map Ok list ≡ outcomes.items) }
{
    let mut list = RestedList::new(alloc);
    for outcome in outcomes {
        list.push(outcome?)?;
    }
    Ok(list)
}

/// Runs the scripts of several sandboxes at once, each with a thread for each of its picoprocesses, to rest, and gives
/// what each came to, in order. The sandboxes share nothing but the gate, which is passed before each turn of a thread,
/// as in a run of one script, and counts the nodes over all sandboxes in order, from 1 to 32. Whatever the others are
/// and do, a sandbox comes to what a run of its script alone may come to. The answer `Memory` comes from want of memory
/// alone, and then for all.
pub fn run_all<R: Threads + Wait + Sync, G: Gate>(
    rt: &R,
    alloc: Global,
    boxes: Boxes,
    gate: &G,
) -> Result<RestedList, Memory>
    requires sound { All (λ b. IsSoundScript b.script) boxes }
    requires few { blocks_in boxes ≤ 32 }
    ensures { IfOk result (AreRested (scripts_of boxes)) }
{
    let jobs = jobs_of(alloc, boxes)?;
    let outcomes = run_each(rt, alloc, jobs, gate)?;
    all_of(alloc, outcomes)
}
