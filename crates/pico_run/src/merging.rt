//! The merge of what the nodes logged: one run of the machine.
ghost use Rattle.std.specs.Prelude.{◌≡◌, map, IfOk};
ghost use Rattle.kernel_model.specs.Script.{IsSoundScript};
ghost use Rattle.stamp_merge.specs.Merge.{IsMerge};
ghost use Rattle.log_laws.specs.Merge.{MayMerge};
ghost use Rattle.pico_run.specs.Joined.{IsThreaded};
ghost use Rattle.pico_run.specs.Resting.{IsGoing, logs_in};

use crate::joining::Threaded;
use crate::rested::{Partings, Rested};
use node_log::{Log, Parting};
use pico_base::{Event, Memory, Script};
use stamp_merge::{Logs, Merged, Stamped, merge};
use std::alloc::Global;
use thread_laws::{nodes_may_merge, threads_make_a_run};
use world_core::World;

fn copy_log(alloc: Global, log: &[Stamped<Event>]) -> Result<Log, Memory>
    ensures { IfOk result (λ copy. copy ≡ log.now) }
{
    let mut copy = Log::new(alloc);
    for logged in log {
        copy.push(Stamped {
            stamp: logged.stamp,
            node: logged.node,
            item: logged.item,
        })?;
    }
    Ok(copy)
}

/// The events of all nodes, by stamp and node.
fn merge_logs(alloc: Global, partings: &[Parting]) -> Result<Merged<Event>, Memory>
    requires { MayMerge (logs_in partings.now) }
    ensures { IfOk result (λ merged. IsMerge (logs_in partings.now) merged) }
{
    let mut logs = Logs::new(alloc);
    for parting in partings {
        logs.push(copy_log(alloc, parting.log().as_slice())?)?;
    }
    merge(alloc, logs)
}

/// The events without stamps and nodes.
fn plain(alloc: Global, events: &[Stamped<Event>]) -> Result<Vec<Event>, Memory>
    ensures { IfOk result (λ plain. plain.items ≡ map (λ e. e.item) events.now) }
{
    let mut plain = Vec::with_capacity(alloc, events.len())?;
    for event in events {
        plain.push(event.item)?;
    }
    Ok(plain)
}

/// The run that the threads made, as far as it has come.
pub(crate) fn merge_threads(
    alloc: Global,
    script: Script,
    threaded: Threaded,
) -> Result<Rested, Memory>
    requires sound { IsSoundScript script }
    requires threaded { IsThreaded script threaded.journal threaded.partings.items }
    ensures { IfOk result (IsGoing script) }
{
    nodes_may_merge();
    threads_make_a_run();
    let Threaded { journal, partings } = threaded;
    let events = merge_logs(alloc, &partings)?;
    let plain = plain(alloc, events.as_slice())?;
    let world = World::of_logs(alloc, script, &plain)?;
    Ok(Rested {
        journal,
        events,
        world,
        partings: Partings::from_vec(partings),
    })
}
