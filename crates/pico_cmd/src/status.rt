//! How a run of the program ended.
ghost use Rattle.std.specs.Prelude.{◌≡◌};
ghost use Rattle.pico_cmd.specs.Status.{code_of};

/// How a run of the program ended.
#[derive(Clone, Copy, Debug, PartialEq, Eq)]
pub enum Status {
    /// The job is done, and all that the mode writes is written.
    Done,
    /// The script has a fault, which is written.
    BadScript,
    /// The words aren't in order; the usage line is written.
    Usage,
    /// An allocation was refused; nothing is written.
    Memory,
    /// A read of the source failed; nothing is written.
    ReadFault,
    /// A write to the sink failed; a front of the text is written.
    WriteFault,
    /// The run is at rest, and processes that live wait for good; all that the mode writes is written.
    Stalled,
    /// The trace isn't that of a legal history; its first fault is written.
    NotLegal,
    /// The image has a fault behind its script, which is written.
    BadImage,
}

impl Status {
    /// The exit status of the process: their places from 0 for Done to 8 for BadImage.
    pub fn code(self) -> u8
        ensures { result ≡ code_of self }
    {
        match self {
            Status::Done => 0,
            Status::BadScript => 1,
            Status::Usage => 2,
            Status::Memory => 3,
            Status::ReadFault => 4,
            Status::WriteFault => 5,
            Status::Stalled => 6,
            Status::NotLegal => 7,
            Status::BadImage => 8,
        }
    }
}
