//! Why a text gave no script.

ghost use Rattle.std.specs.Prelude.{◌≡◌};
ghost use Rattle.script_reader.specs.Fault.{name_of};
ghost use Rattle.script_reader.specs.declared.fault.ScriptStop.TheVariants.{Memory as OutOfMemory};

use pico_base::Memory;
use std::alloc::{AllocError, AllocFailed};
use thiserror::Error;

/// What is wrong with a script. On one line the cause that stands first here is told, but for the two that are told
/// before all others: `ScriptTooLong`, and then `NotUtf8`.
#[derive(Clone, Copy, Debug, PartialEq, Eq, Error)]
pub enum ScriptFault {
    /// There are more than 1,048,576 bytes.
    #[error("ScriptTooLong")]
    ScriptTooLong,
    /// The bytes aren't UTF-8.
    #[error("NotUtf8")]
    NotUtf8,
    /// The line has more than 4,096 bytes.
    #[error("LineTooLong")]
    LineTooLong,
    /// Outside a block a line has words and isn't headed by `proc`; or no line has words.
    #[error("NoProc")]
    NoProc,
    /// A line inside a block is headed by `proc`, or the input ends inside a block.
    #[error("NoEnd")]
    NoEnd,
    /// In a block, the word where a call's name is due names no call.
    #[error("UnknownCall")]
    UnknownCall,
    /// The line's words are otherwise not those of its form, a name is used by two blocks, or a call follows `exit`.
    #[error("BadArgument")]
    BadArgument,
    /// `$VAR` is set by no earlier line of the block, and the block didn't begin with it.
    #[error("UnsetVariable")]
    UnsetVariable,
    /// `fork` of a name that no block has.
    #[error("UnknownProc")]
    UnknownProc,
    /// `fork` of a name that an earlier line forks.
    #[error("ForkedTwice")]
    ForkedTwice,
    /// No earlier line forks this block, which isn't the first.
    #[error("NeverForked")]
    NeverForked,
    /// `fork` of the block that it stands in, or of an earlier one.
    #[error("ForkBackwards")]
    ForkBackwards,
    /// The 33rd block begins.
    #[error("TooManyProcs")]
    TooManyProcs,
    /// The calls, each counted as often as its line may try it, pass 20,000.
    #[error("TooManyCalls")]
    TooManyCalls,
}

impl ScriptFault {
    /// The fault's name, as it is printed.
    pub fn name(self) -> &'static str
        ensures { result.now ≡ name_of self }
    {
        match self {
            ScriptFault::ScriptTooLong => "ScriptTooLong",
            ScriptFault::NotUtf8 => "NotUtf8",
            ScriptFault::LineTooLong => "LineTooLong",
            ScriptFault::NoProc => "NoProc",
            ScriptFault::NoEnd => "NoEnd",
            ScriptFault::UnknownCall => "UnknownCall",
            ScriptFault::BadArgument => "BadArgument",
            ScriptFault::UnsetVariable => "UnsetVariable",
            ScriptFault::UnknownProc => "UnknownProc",
            ScriptFault::ForkedTwice => "ForkedTwice",
            ScriptFault::NeverForked => "NeverForked",
            ScriptFault::ForkBackwards => "ForkBackwards",
            ScriptFault::TooManyProcs => "TooManyProcs",
            ScriptFault::TooManyCalls => "TooManyCalls",
        }
    }
}

/// Why no script was read.
#[derive(Clone, Copy, Debug, PartialEq, Eq, Error)]
pub enum ScriptStop {
    /// An allocation was refused.
    #[error("out of memory")]
    Memory,
    /// The first fault of the text, and its line, counted from 1.
    #[error("line {line}: {fault}")]
    At { line: u32, fault: ScriptFault },
}

impl From<Memory> for ScriptStop {
    ghost from_gives = { λ _ e. e ≡ OutOfMemory };

    fn from(_: Memory) -> Self {
        ScriptStop::Memory
    }
}

impl From<AllocError> for ScriptStop {
    ghost from_gives = { λ _ e. e ≡ OutOfMemory };

    fn from(_: AllocError) -> Self {
        ScriptStop::Memory
    }
}

impl<T: Drop> From<AllocFailed<T>> for ScriptStop {
    ghost from_gives = { λ _ e. e ≡ OutOfMemory };

    fn from(_: AllocFailed<T>) -> Self {
        ScriptStop::Memory
    }
}
