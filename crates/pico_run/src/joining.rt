//! What the threads leave, put together.
ghost use Rattle.std.specs.Prelude.{◌≡◌, ◌≢◌, ℕ, ◌≤◌, false, length, map, IfOk, Some};
ghost use Rattle.std.specs.List.{AllByRecursion};
ghost use Rattle.kernel_model.specs.Script.{IsSoundScript};
ghost use Rattle.log_model.specs.declared.answer.LogFault.TheVariants as faults;
ghost use Rattle.log_model.specs.Views.{LoggedNode};
ghost use Rattle.pico_run.specs.Joined.{IsThreaded};
ghost use Rattle.pico_run.specs.Joining.{IsLeft};

use crate::opening::{Opened, open};
use crate::settling::settle_all;
use crate::threads::turn_all;
use host_iface::Gate;
use journal_core::{Journal, JournalLock, Seats};
use node_log::{Ends, Finished, LogFault, Logged, Parting};
use pico_base::{Memory, Script};
use std::alloc::Global;
use std::sync::Wait;
use std::thread::Threads;

/// What is left of all nodes.
#[derive(Drop)]
pub(crate) struct Parts {
    pub partings: Vec<Parting>,
    pub seats: Seats,
    pub rows: Vec<Ends>,
}

/// What the threads came to: the journal, and what each node's turns came to.
#[derive(Drop)]
pub(crate) struct Threaded {
    pub journal: Journal,
    pub partings: Vec<Parting>,
}

/// Whether some node is spent.
fn is_one_spent(nodes: &[Logged]) -> bool
    ensures { result ≡ false → AllByRecursion (λ l. l.fault ≢ Some faults.Memory) nodes.now }
{
    for logged in nodes {
        if let Some(LogFault::Memory) = logged.fault() {
            return true;
        }
    }
    false
}

/// Takes the nodes apart.
fn finish_all(alloc: Global, nodes: Vec<Logged>) -> Result<Parts, Memory>
    requires { AllByRecursion (λ l. l.fault ≢ Some faults.Memory) nodes.items }
    ensures { IfOk result (λ parts. IsLeft nodes.items parts) }
{
    let mut parts = Parts {
        partings: Vec::new(alloc),
        seats: Seats::new(alloc),
        rows: Vec::new(alloc),
    };
    for logged in nodes {
        let Finished {
            node: _,
            parting,
            ends,
            seat,
        } = logged.finish();
        parts.partings.push(parting)?;
        parts.seats.push(seat)?;
        parts.rows.push(ends)?;
    }
    Ok(parts)
}

/// Runs the nodes of the script in threads, and puts together what they leave.
pub(crate) fn run_threads<R: Threads + Wait + Sync, G: Gate>(
    rt: &R,
    alloc: Global,
    script: &Script,
    gate: &G,
) -> Result<Threaded, Memory>
    requires { IsSoundScript script.now }
    ensures { IfOk result (λ t. IsThreaded script.now t.journal t.partings.items) }
{
    let Opened {
        lock,
        mut nodes,
        beds,
    } = open(alloc, script)?;
    turn_all(rt, &lock, script, gate, &beds, nodes.as_mut_slice());
    if is_one_spent(nodes.as_slice()) {
        return Err(Memory);
    }
    let Parts {
        partings,
        seats,
        rows,
    } = finish_all(alloc, nodes)?;
    settle_all(rt, alloc, rows)?;
    let journal = lock.close(seats);
    Ok(Threaded { journal, partings })
}
