//! Which turns a gate holds, as the program's words say it.
use std::alloc::Global;

/// Which turns are held.
#[derive(Clone, Copy, Debug, PartialEq, Eq)]
pub enum Plan {
    /// None.
    Open,
    /// The first turn of one node, until another one has passed so many.
    Hold { node: u8, other: u8, turn: u64 },
    /// Those of each of so many nodes in turn, each while the others pass so many.
    Each { nodes: u64, passes: u64 },
    /// Some, and for how long, as a generator says.
    Random { seed: u64 },
}

/// The numbers that the words are, of which `until` only parts some.
fn numbers_of(alloc: Global, words: &[String]) -> Option<Vec<u64>> {
    let mut numbers = Vec::new(alloc);
    for word in words {
        if word.as_str() != "until" {
            numbers.push(word.parse::<u64>().ok()?).ok()?;
        }
    }
    Some(numbers)
}

/// The number of a node.
fn node_of(number: u64) -> Option<u8> {
    if (1..=32).contains(&number) {
        u8::try_from(number).ok()
    } else {
        None
    }
}

/// The first turn of one node is held.
fn hold(node: u64, other: u64, turn: u64) -> Option<Plan> {
    Some(Plan::Hold {
        node: node_of(node)?,
        other: node_of(other)?,
        turn,
    })
}

/// The plan of a word and its numbers. None: there is none.
fn plan_by(word: &str, numbers: &[u64]) -> Option<Plan> {
    match numbers {
        [] if word == "open" => Some(Plan::Open),
        [node, other, turn] if word == "hold" => hold(*node, *other, *turn),
        [nodes, passes] if word == "each" => Some(Plan::Each {
            nodes: *nodes,
            passes: *passes,
        }),
        [seed] if word == "random" => Some(Plan::Random { seed: *seed }),
        _ => None,
    }
}

/// The plan of the program's words. None: they aren't in order.
pub fn plan_of(alloc: Global, words: &[String]) -> Option<Plan> {
    let (word, rest) = words.split_first()?;
    let numbers = numbers_of(alloc, rest)?;
    plan_by(word, &numbers)
}
