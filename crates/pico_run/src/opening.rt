//! The nodes of a script before their threads start.
ghost use Rattle.std.specs.Prelude.{◌≡◌, ℕ, ◌+◌, ◌<◌, ◌≤◌, [], length, map, Some, IfOk};
ghost use Rattle.std.specs.List.{AllByRecursion};
ghost use Rattle.kernel_model.specs.Script.{IsSoundScript};
ghost use Rattle.world_model.specs.World.{node_count};
ghost use Rattle.pico_run.specs.Grid.{IsNewEnd};
ghost use Rattle.pico_run.specs.Opened.{AreOpened, opened_node};

use crate::beds::Beds;
use crate::grid::{Row, node_at, rows};
use journal_core::{JSeat, JournalLock};
use logged_laws::new_nodes_are_logged;
use node_core::PicoNode;
use node_log::{Ends, Logged};
use pico_base::{Memory, Node, Script};
use std::alloc::Global;
use stream_pair::Company;

/// The nodes with their streams and seats, the journal's lock, and where their threads sleep.
#[derive(Drop)]
pub(crate) struct Opened {
    pub lock: JournalLock,
    pub nodes: Vec<Logged>,
    pub beds: Beds,
}

/// A node of the script that has made no turn.
fn open_node(
    alloc: Global,
    script: &Script,
    number: Node,
    ends: Ends,
    seat: JSeat,
) -> Result<Logged, Memory>
    requires sound { IsSoundScript script.now }
    requires number { (seat.number ≡ number) × (1 ≤ number) × (number ≤ node_count script.now) }
    requires new { AllByRecursion IsNewEnd ends }
    ensures { IfOk result (λ l. l ≡ opened_node ends seat) }
{
    let node = PicoNode::new(alloc, script, number)?;
    Logged::new(alloc, node, ends, seat)
}

/// All nodes of the script before their first turns.
pub(crate) fn open(alloc: Global, script: &Script) -> Result<Opened, Memory>
    requires { IsSoundScript script.now }
    ensures { IfOk result (λ o. AreOpened script.now o.lock o.nodes.items) }
{
    new_nodes_are_logged();
    let count = script.blocks.len();
    let (lock, seats) = JournalLock::new(alloc, count as u32)?;
    let company = Company::new(alloc)?;
    let mut rows = rows(alloc, &company, count)?.into_iter();
    let mut nodes = Vec::new(alloc);
    let mut bells = Vec::new(alloc);
    for seat in seats.into_vec() {
        let Some(Row { bell, ends }) = rows.next() else {
            unreachable!()
        };
        let number = node_at(nodes.len());
        nodes.push(open_node(alloc, script, number, ends, seat)?)?;
        bells.push(bell)?;
    }
    let beds = Beds { company, bells };
    Ok(Opened { lock, nodes, beds })
}
