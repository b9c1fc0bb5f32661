//! Scripts: blocks, lines, variables; and events.
ghost use Rattle.std.specs.Prelude.{ℕ, ◌≤◌};

use crate::{Bytes, Call, Node, Sequence};
use std::marker::Model;

/// A script's variable by its index, 0 to 2885: 111 times the letter's place, and then 0 for no digit,
/// 1 + d for one digit d, and 11 + e for two digits of value e.
#[derive(Clone, Copy, Debug, PartialEq, Eq, PartialOrd, Ord)]
pub struct Var(pub u16);

impl Model for Var {
    ghost Value = { ℕ };

    ghost view = { λ v. v.0 };

    ghost invariant = { λ v. v.0 ≤ 2885 };

    ghost inverse = { λ n. record { 0 = n } };
}

/// A call line: the variable that it sets, how often the call is tried at most, and the call. Where
/// `from` is given, the value of that variable stands in place of the call's process number or
/// identifier.
#[derive(Debug, PartialEq, Eq, Drop)]
pub struct Line {
    pub set: Option<Var>,
    pub tries: u32,
    pub from: Option<Var>,
    pub call: Call,
}

/// The call lines of a block, in order.
pub type Lines = Sequence<Line>;

/// What one process does: a name of its own, and its lines.
#[derive(Debug, PartialEq, Eq, Drop)]
pub struct Block {
    pub name: Bytes,
    pub lines: Lines,
}

/// The blocks of a script, in order. Block k is node k, and block 1 is process 1.
pub type Blocks = Sequence<Block>;

/// What the processes of an application do.
#[derive(Debug, PartialEq, Eq, Drop)]
pub struct Script {
    pub blocks: Blocks,
}

/// The values of variables, by rising variable.
pub type Vars = Sequence<(Var, u32)>;

/// One step of the picoprocess machine.
#[derive(Clone, Copy, Debug, PartialEq, Eq)]
pub enum Event {
    /// The node starts its next call.
    Run(Node),
    /// The node takes one frame from the stream that comes from `from`.
    Take { node: Node, from: Node },
}
