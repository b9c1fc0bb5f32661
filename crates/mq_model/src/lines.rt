//! The calls of a given script, line for line beside those of the script of System V that runs it.

use pico_base::{Bytes, Id, Sequence, Var};

/// The call of a given line. An identifier for which a variable stands is 0.
#[derive(Debug, PartialEq, Eq, Drop)]
pub enum MqCall {
    /// `mqopen /N [create] [excl]`, with N from 1 to 1,000,000.
    Open { name: u32, create: bool, excl: bool },
    /// `mqsend Q P X`, with P from 0 to 65,535, of which those above 31 are refused.
    Send { id: Id, prio: u16, text: Bytes },
    /// `mqreceive Q Z`, with Z from 0 to 65,535, of which those below 16 are refused.
    Receive { id: Id, size: u16 },
    /// `mqgetattr Q`.
    GetAttr { id: Id },
    /// Another call, which is that of the System V line.
    Same,
}

/// A given line's call, and the variable whose value stands in place of its identifier, if one does.
#[derive(Debug, PartialEq, Eq, Drop)]
pub struct MqLine {
    pub from: Option<Var>,
    pub call: MqCall,
}

/// The lines of each block, in order.
pub type MqLines = Sequence<Sequence<MqLine>>;
