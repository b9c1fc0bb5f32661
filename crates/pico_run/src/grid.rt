//! The streams between all nodes of a script.
ghost use Rattle.std.specs.Prelude.{◌≡◌, ℕ, ◌+◌, ◌<◌, ◌≤◌, [], length, map, IfOk};
ghost use Rattle.std.specs.List.{AllByRecursion};
ghost use Rattle.pico_run.specs.Grid.{AreTwins, IsGrid, IsNewEnd, IsNewRow, WiresAreGrown, rows_of, wire_of};

use node_log::{End, Ends};
use pico_base::{Memory, Node};
use std::alloc::Global;
use stream_pair::{Bell, Company, pair_to};

/// The ends of one node's streams with those before it, and the bell that its receivers share.
#[derive(Drop)]
pub(crate) struct Row {
    pub bell: Bell,
    pub ends: Ends,
}

/// The node at this place, from 0.
pub(crate) fn node_at(place: usize) -> Node
    requires { place < 32 }
    ensures { result ≡ place + 1 }
{
    Node((place + 1) as u8)
}

/// The ends of the streams there and back between two nodes: that of the first, and that of the second.
fn twins(
    alloc: Global,
    one: Node,
    its_bell: &Bell,
    other: Node,
    other_bell: &Bell,
) -> Result<(End, End), Memory>
    ensures nodes { IfOk result (λ ends. (ends.0.other ≡ other) × (ends.1.other ≡ one)) }
    ensures twins { IfOk result (λ ends. AreTwins (wire_of ends.0) (wire_of ends.1)) }
    ensures new { IfOk result (λ ends. IsNewEnd ends.0 × IsNewEnd ends.1) }
{
    let (out, into) = pair_to(alloc, other_bell)?;
    let (back, from) = pair_to(alloc, its_bell)?;
    let mine = End {
        other,
        out,
        into: from,
    };
    let theirs = End {
        other: one,
        out: back,
        into,
    };
    Ok((mine, theirs))
}

/// A further node behind those of these rows: it has streams with each of them.
fn with_one_more(alloc: Global, company: &Company, rows: Vec<Row>) -> Result<Vec<Row>, Memory>
    requires few { length rows.items < 32 }
    requires new { AllByRecursion IsNewRow rows.items }
    ensures grown { IfOk result (λ grown. WiresAreGrown (length rows.items) (rows_of rows.items)
        (rows_of grown.items)) }
    ensures new { IfOk result (λ grown. AllByRecursion IsNewRow grown.items) }
{
    let number = node_at(rows.len());
    let bell = Bell::new(alloc, company)?;
    let mut ends = Ends::new(alloc);
    let mut grown = Vec::new(alloc);
    for row in rows {
        let Row {
            bell: other_bell,
            ends: other_ends,
        } = row;
        let other = node_at(grown.len());
        let (mine, theirs) = twins(alloc, number, &bell, other, &other_bell)?;
        let mut other_ends = other_ends;
        ends.push(mine)?;
        other_ends.push(theirs)?;
        grown.push(Row {
            bell: other_bell,
            ends: other_ends,
        })?;
    }
    grown.push(Row { bell, ends })?;
    Ok(grown)
}

/// The ends of the streams between so many nodes, by rising node, over which nothing went.
pub(crate) fn rows(alloc: Global, company: &Company, count: usize) -> Result<Vec<Row>, Memory>
    requires { count ≤ 32 }
    ensures grid { IfOk result (λ rows. IsGrid count (rows_of rows.items)) }
    ensures new { IfOk result (λ rows. AllByRecursion IsNewRow rows.items) }
{
    let mut rows = Vec::new(alloc);
    for _ in 0..count {
        rows = with_one_more(alloc, company, rows)?;
    }
    Ok(rows)
}
