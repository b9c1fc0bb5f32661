//! Which streams a node looks at.
ghost use Rattle.std.specs.Prelude.{◌≡◌, ◌≢◌, ℕ, ◌≤◌, length, Some, IfOk, IsSome, MatchOption};
ghost use Rattle.kernel_model.specs.Script.{IsSoundScript};
ghost use Rattle.world_model.specs.Node.{Node as NodeValue};
ghost use Rattle.log_model.specs.Forkers.{forker_of};
ghost use Rattle.log_model.specs.Turns.{may_take};
ghost use Rattle.log_model.specs.Logged.{others_in, others_of};
ghost use Rattle.log_model.specs.Looks.{Looks};
ghost use Rattle.node_lines.specs.Lines.{AreSameLines, may_look};

use log_model::Found;
use node_core::PicoNode;
use node_lines::{Lines, look_at_each};
use node_state::forms::is_forked_by;
use pico_base::{Memory, Node, Script};
use std::sync::Wait;

/// The node whose block forks this one. There is none for block 1 of a sound script.
fn forker_of(script: &Script, block: Node) -> Option<Node>
    requires { length script.now.blocks ≤ 32 }
    ensures { MatchOption result (forker_of script.now block ≡ 0) (λ q. q ≡ forker_of script.now block) }
{
    for place in 0..script.blocks.len() {
        let node = Node((place + 1) as u8);
        if is_forked_by(script, node, block) {
            return Some(node);
        }
    }
    None
}

/// The one node at whose stream a node looks: each is looked at by a born node, that from the node that forks it by
/// another, which keeps who that is. Where nobody forks it that is itself, to which there is no stream.
fn only(node: &PicoNode, forker: &mut Option<Node>, number: Node, script: &Script) -> Option<Node>
    requires whole { IsSome node.now }
    requires sound { IsSoundScript script.now }
    requires known { (q : ℕ) → forker.old ≡ Some q → q ≡ forker_of script.now number }
    ensures may { (n : NodeValue) (other : ℕ) → node.now ≡ Some n → 1 ≤ other → other ≢ number
        → may_look result other ≡ may_take script.now number n other }
    ensures known { (q : ℕ) → forker.new ≡ Some q → q ≡ forker_of script.now number }
{
    if node.born() {
        return None;
    }
    if forker.is_none() {
        *forker = forker_of(script, number);
    }
    match forker {
        Some(node) => Some(*node),
        None => Some(number),
    }
}

/// Looks at all lines that may be looked at.
fn look<R: Wait>(rt: &R, lines: &mut Lines, only: Option<Node>) -> Result<Found, Memory>
    ensures looks { IfOk result (λ found. Looks (may_look only) lines.old.items found lines.new.items) }
    ensures same { AreSameLines lines.old.items lines.new.items }
{
    look_at_each(rt, lines, only)
}

/// What a node finds on the streams from which it may take. Where memory is refused a piece may be lost.
pub(crate) fn found_by<R: Wait>(
    rt: &R,
    node: &PicoNode,
    forker: &mut Option<Node>,
    number: Node,
    lines: &mut Lines,
    script: &Script,
) -> Result<Found, Memory>
    requires whole { IsSome node.now }
    requires sound { IsSoundScript script.now }
    requires known { (q : ℕ) → forker.old ≡ Some q → q ≡ forker_of script.now number }
    requires others { others_in lines.old.items ≡ others_of script.now number }
    ensures looks { (n : NodeValue) → node.now ≡ Some n
        → IfOk result (λ found. Looks (may_take script.now number n) lines.old.items found lines.new.items) }
    ensures same { AreSameLines lines.old.items lines.new.items }
    ensures known { (q : ℕ) → forker.new ≡ Some q → q ≡ forker_of script.now number }
{
    let only = only(node, forker, number, script);
    look(rt, lines, only)
}
