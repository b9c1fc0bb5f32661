//! Why a text gave no world.

ghost use Rattle.std.specs.Prelude.{◌≡◌};
ghost use Rattle.image_text.specs.Faults.{name_of};
ghost use Rattle.image_text.specs.declared.fault.ImageStop.TheVariants.{Memory as OutOfMemory};

use pico_base::Memory;
use script_reader::ScriptFault;
use std::alloc::{AllocError, AllocFailed};
use thiserror::Error;

/// What is wrong with an image behind its script. The cause that stands first here is told.
#[derive(Clone, Copy, Debug, PartialEq, Eq, Error)]
pub enum ImageFault {
    /// The line isn't `image E` with so many lines `S P run` or `S P take Q` behind it, by rising node; or no line has
    /// `image` as its first word; or it has the first byte past 16,777,216.
    #[error("NotAnImage")]
    NotAnImage,
    /// The event's stamp isn't above that of the event before it of the same node.
    #[error("NotRising")]
    NotRising,
    /// The event may not come where it comes.
    #[error("NotEnabled")]
    NotEnabled,
}

impl ImageFault {
    /// The fault's name, as it is printed.
    pub fn name(self) -> &'static str
        ensures { result.now ≡ name_of self }
    {
        match self {
            ImageFault::NotAnImage => "NotAnImage",
            ImageFault::NotRising => "NotRising",
            ImageFault::NotEnabled => "NotEnabled",
        }
    }
}

/// Why an image gave no world.
#[derive(Clone, Copy, Debug, PartialEq, Eq, Error)]
pub enum ImageStop {
    /// An allocation was refused.
    #[error("out of memory")]
    Memory,
    /// The first fault of the image's script, and its line, counted from 1. It comes before all others.
    #[error("line {line}: {fault}")]
    Script { line: u32, fault: ScriptFault },
    /// The first fault behind the script, and its line, counted from 1.
    #[error("line {line}: {fault}")]
    At { line: u32, fault: ImageFault },
}

impl From<Memory> for ImageStop {
    ghost from_gives = { λ _ e. e ≡ OutOfMemory };

    fn from(_: Memory) -> Self {
        ImageStop::Memory
    }
}

impl From<AllocError> for ImageStop {
    ghost from_gives = { λ _ e. e ≡ OutOfMemory };

    fn from(_: AllocError) -> Self {
        ImageStop::Memory
    }
}

impl<T: Drop> From<AllocFailed<T>> for ImageStop {
    ghost from_gives = { λ _ e. e ≡ OutOfMemory };

    fn from(_: AllocFailed<T>) -> Self {
        ImageStop::Memory
    }
}
