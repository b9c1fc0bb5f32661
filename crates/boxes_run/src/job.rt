//! What is to be run: a script for each sandbox.
ghost use Rattle.std.specs.Prelude.{◌≡◌, ◌≤◌, IfOk};
ghost use Rattle.sandbox_set.specs.Sound.{blocks_in};
ghost use Rattle.boxes_run.specs.Jobs.{jobs_from};

use pico_base::{Memory, Script};
use sandbox_set::Boxes;
use std::alloc::Global;

/// The script of a sandbox, and how many nodes the sandboxes before it have.
#[derive(Drop)]
pub struct Job {
    pub script: Script,
    pub before: u8,
}

/// A job for each sandbox, in order.
pub(crate) fn jobs_of(alloc: Global, boxes: Boxes) -> Result<Vec<Job>, Memory>
    requires { blocks_in boxes ≤ 32 }
    ensures { IfOk result (λ jobs. jobs.items ≡ jobs_from 0 boxes) }
{
    let mut jobs = Vec::new(alloc);
    let mut before: u8 = 0;
    for sandbox in boxes.into_vec() {
        let script = sandbox.script;
        let count = script.blocks.len() as u8;
        jobs.push(Job { script, before })?;
        before += count;
    }
    Ok(jobs)
}
