//! The merge of the logs that nodes keep each by itself: one list of all their items, by stamp.
#![tactic(auto)]

ghost use Rattle.std.specs.Prelude.{◌≡◌, IfOk, OnOk};
ghost use Rattle.std.specs.List.{AllByRecursion};
ghost use Rattle.stamp_merge.specs.Merge.{StampsRise, HaveOwnNodes, IsMerge, all_items};
ghost use Rattle.stamp_merge.specs.Sorted.{IsSortOf};

use pico_base::{Memory, Node, Sequence};
use std::alloc::Global;

/// An item of a node's log, with the stamp that the node gave it. The profile's own.
#[derive(Debug, PartialEq, Eq, Drop)]
pub struct Stamped<T> {
    /// The place of the item in time: items of one node have rising stamps, and those of two nodes may share one.
    pub stamp: u64,
    /// The node whose log it stands in.
    pub node: Node,
    pub item: T,
}

/// Logs, each of one node, with its items in the order in which the node made them.
pub type Logs<T> = Sequence<Sequence<Stamped<T>>>;

/// The items of several logs, by stamp, and by node where stamps are the same.
pub type Merged<T> = Sequence<Stamped<T>>;

/// All items of these logs and no others, in order of stamp, and of node where stamps are the same. Each log is the
/// part of its node in it. The answer `Memory` comes from want of memory alone, and the logs are dropped with it.
pub fn merge<T: Drop>(alloc: Global, logs: Logs<T>) -> Result<Merged<T>, Memory>
    requires rise { AllByRecursion StampsRise logs }
    requires own_nodes { HaveOwnNodes logs }
    ensures { IfOk result (λ merged. IsMerge logs merged) }
{
    let mut items = together(alloc, logs)?;
    sort(&mut items)?;
    Ok(Merged::from_vec(items))
}

// The items of all logs, one log after the other.
fn together<T: Drop>(alloc: Global, logs: Logs<T>) -> Result<Vec<Stamped<T>>, Memory>
    ensures { IfOk result (λ items. items.items ≡ all_items logs) }
{
    let mut items = Vec::new(alloc);
    for log in logs.into_vec() {
        items.append(&mut log.into_vec())?;
    }
    Ok(items)
}

// A stable sort by stamp of what is sorted by node leaves items of one stamp by node.
fn sort<T>(items: &mut Vec<Stamped<T>>) -> Result<(), Memory>
    ensures { OnOk result (IsSortOf items.old.items items.new.items) }
{
    items.sort_by_key(|e| e.node.0)?;
    items.sort_by_key(|e| e.stamp)?;
    Ok(())
}
