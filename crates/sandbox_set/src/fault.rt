//! Why an input gave no sandboxes.

ghost use Rattle.std.specs.Prelude.{◌≡◌};
ghost use Rattle.sandbox_set.specs.Boxes.{name_of};
ghost use Rattle.sandbox_set.specs.declared.fault.BoxStop.TheVariants.{Memory as OutOfMemory};

use pico_base::Memory;
use script_reader::ScriptFault;
use std::alloc::{AllocError, AllocFailed};
use thiserror::Error;

/// What is wrong with an input of sandboxes. On one line the cause that stands first here is told, but for a script's
/// fault, which comes last; and `ScriptTooLong` and `NotUtf8` of the whole input are told before all others.
#[derive(Clone, Copy, Debug, PartialEq, Eq, Error)]
pub enum BoxFault {
    /// A fault of a sandbox's script, or a fault of the whole input's bytes.
    #[error("{0}")]
    Script(ScriptFault),
    /// Outside a sandbox a line has words and isn't of the form `sandbox NAME`; or no line has words.
    #[error("NoSandbox")]
    NoSandbox,
    /// A line inside a sandbox is headed by `sandbox`, or the input ends inside a sandbox.
    #[error("NoEndSandbox")]
    NoEndSandbox,
    /// An earlier sandbox has this name.
    #[error("SandboxTwice")]
    SandboxTwice,
    /// The 9th sandbox begins.
    #[error("TooManySandboxes")]
    TooManySandboxes,
    /// The 33rd line headed by `proc` in the whole input.
    #[error("TooManyNodes")]
    TooManyNodes,
}

impl BoxFault {
    /// The fault's name, as it is printed: of a script's fault that fault's own.
    pub fn name(self) -> &'static str
        ensures { result.now ≡ name_of self }
    {
        match self {
            BoxFault::Script(fault) => fault.name(),
            BoxFault::NoSandbox => "NoSandbox",
            BoxFault::NoEndSandbox => "NoEndSandbox",
            BoxFault::SandboxTwice => "SandboxTwice",
            BoxFault::TooManySandboxes => "TooManySandboxes",
            BoxFault::TooManyNodes => "TooManyNodes",
        }
    }
}

/// Why no sandboxes were read.
#[derive(Clone, Copy, Debug, PartialEq, Eq, Error)]
pub enum BoxStop {
    /// An allocation was refused.
    #[error("out of memory")]
    Memory,
    /// The first fault of the input, and its line, counted from 1 over the whole input.
    #[error("line {line}: {fault}")]
    At { line: u32, fault: BoxFault },
}

impl From<Memory> for BoxStop {
    ghost from_gives = { λ _ e. e ≡ OutOfMemory };

    fn from(_: Memory) -> Self {
        BoxStop::Memory
    }
}

impl From<AllocError> for BoxStop {
    ghost from_gives = { λ _ e. e ≡ OutOfMemory };

    fn from(_: AllocError) -> Self {
        BoxStop::Memory
    }
}

impl<T: Drop> From<AllocFailed<T>> for BoxStop {
    ghost from_gives = { λ _ e. e ≡ OutOfMemory };

    fn from(_: AllocFailed<T>) -> Self {
        BoxStop::Memory
    }
}
