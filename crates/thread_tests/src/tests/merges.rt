//! Merges of none, two and three logs, with ties of stamps.
ghost use Rattle.std.specs.Prelude.{◌≡◌, ◌<◌, [], ◌∷◌, IfOk};
ghost use Rattle.stamp_merge.specs.Example.{at};

use pico_base::{Memory, Node, Sequence};
use stamp_merge::{Logs, Merged, Stamped, merge};
use std::alloc::Global;
use std::test::*;

// The node's number as an item of its log.
fn item(stamp: u64, node: Node) -> Stamped<u8>
    ensures { result ≡ at stamp node node }
{
    let digit = node.0;
    Stamped {
        stamp,
        node,
        item: digit,
    }
}

// A log of this node with two items, each the node's number.
fn two(alloc: Global, node: Node, first: u64, second: u64) -> Result<Sequence<Stamped<u8>>, Memory>
    ensures { IfOk result (λ log. log ≡ at first node node ∷ at second node node ∷ []) }
{
    let mut log = Sequence::new(alloc);
    log.push(item(first, node))?;
    log.push(item(second, node))?;
    Ok(log)
}

// The items in order, each as a digit.
fn digits(merged: &Merged<u8>) -> u64 {
    let mut number = 0u64;
    for e in merged.as_slice() {
        number = number.wrapping_mul(10).wrapping_add(u64::from(e.item));
    }
    number
}

#[test]
fn no_logs_have_no_items(rt: HostRuntime) -> Result<(), Fail> {
    let merged: Merged<u8> = merge(rt.alloc(), Logs::new(rt.alloc()))?;
    assert!(rt; merged.len() == 0);
    Ok(())
}

#[test]
fn at_one_stamp_the_lower_node_comes_first(rt: HostRuntime) -> Result<(), Fail> {
    let alloc = rt.alloc();
    let mut logs = Logs::new(alloc);
    logs.push(two(alloc, Node(2), 1, 3)?)?;
    logs.push(two(alloc, Node(1), 3, 4)?)?;
    assert!(rt; digits(&merge(alloc, logs)?) == 2121);
    Ok(())
}

#[test]
fn three_logs_and_one_without_items(rt: HostRuntime) -> Result<(), Fail> {
    let alloc = rt.alloc();
    let mut logs = Logs::new(alloc);
    logs.push(two(alloc, Node(3), 2, 3)?)?;
    logs.push(Sequence::new(alloc))?;
    logs.push(two(alloc, Node(1), 3, 5)?)?;
    logs.push(two(alloc, Node(2), 3, 4)?)?;
    assert!(rt; digits(&merge(alloc, logs)?) == 312321);
    Ok(())
}
