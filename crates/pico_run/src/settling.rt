//! Both ends of each stream, put together.
ghost use Rattle.std.specs.Prelude.{◌≡◌, ℕ, ◌+◌, List, length, map, IfOk, OnOk};
ghost use Rattle.node_lines.specs.declared.end.End.{End};
ghost use Rattle.pico_run.specs.Joined.{AreSettled, AreSettledRows, AreTwinEnds, AreTwinRows};
ghost use Rattle.pico_run.specs.Settling.{AreTwinsAtEnds, Settles};

use node_log::{End, Ends};
use pico_base::Memory;
use std::alloc::Global;
use std::sync::Wait;
use stream_pair::settle;

/// Puts the ends of both streams between two nodes together.
fn settle_both<R: Wait>(rt: &R, mine: End, theirs: End)
    requires { AreTwinEnds mine theirs }
    ensures { AreSettled mine theirs }
{
    let End {
        out,
        into: from,
        ..
    } = mine;
    let End {
        out: back,
        into,
        ..
    } = theirs;
    let _there = settle(rt, out, into);
    let _back = settle(rt, back, from);
}

/// Puts the ends of a node's row together with those at the ends of the other rows, and gives these without them.
fn settle_row<R: Wait>(
    rt: &R,
    alloc: Global,
    rows: Vec<Ends>,
    row: Ends,
) -> Result<Vec<Ends>, Memory>
    requires { AreTwinsAtEnds rows.items row }
    ensures { IfOk result (λ olds. Settles rows.items row olds.items) }
{
    let mut olds = Vec::new(alloc);
    let mut row = row.into_vec().into_iter();
    for other in rows {
        let mut other = other.into_vec();
        let (Some(mine), Some(theirs)) = (row.next(), other.pop()) else {
            unreachable!()
        };
        settle_both(rt, mine, theirs);
        olds.push(Ends::from_vec(other))?;
    }
    Ok(olds)
}

/// Puts the ends of all streams together: those of the last node, then those of the one before it, and so on.
pub(crate) fn settle_all<R: Wait>(rt: &R, alloc: Global, rows: Vec<Ends>) -> Result<(), Memory>
    requires { AreTwinRows (length rows.items) rows.items }
    ensures { OnOk result (AreSettledRows (length rows.items) rows.items) }
{
    let mut rows = rows;
    while let Some(row) = rows.pop() {
        rows = settle_row(rt, alloc, rows, row)?;
    }
    Ok(())
}
