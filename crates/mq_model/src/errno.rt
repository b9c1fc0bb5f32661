//! The errors of calls on POSIX message queues.

ghost use Rattle.std.specs.Prelude.{◌≡◌};
ghost use Rattle.mq_model.specs.Text.{error_name, error_number};

use pico_base::Errno;

/// The error of a refused call: one that other calls have too, or one of message queues alone.
#[derive(Clone, Copy, Debug, PartialEq, Eq)]
pub enum MqErrno {
    Base(Errno),
    /// There is no queue of this number.
    Ebadf,
    /// The text is longer than a message may be, or a receive has less room than the longest message needs.
    Emsgsize,
}

fn plain_name(errno: Errno) -> &'static str
    ensures { result.now ≡ error_name (MqErrno.Base errno) }
{
    match errno {
        Errno::Esrch => "ESRCH",
        Errno::Einval => "EINVAL",
        Errno::Echild => "ECHILD",
        Errno::Enoent => "ENOENT",
        Errno::Eexist => "EEXIST",
        Errno::Enomsg => "ENOMSG",
        Errno::Eagain => "EAGAIN",
        Errno::E2big => "E2BIG",
        Errno::Efbig => "EFBIG",
        Errno::Erange => "ERANGE",
        Errno::Eidrm => "EIDRM",
        Errno::Eintr => "EINTR",
    }
}

impl MqErrno {
    /// The error's name, as a trace has it.
    pub fn name(self) -> &'static str
        ensures { result.now ≡ error_name self }
    {
        match self {
            MqErrno::Base(errno) => plain_name(errno),
            MqErrno::Ebadf => "EBADF",
            MqErrno::Emsgsize => "EMSGSIZE",
        }
    }

    /// The error's number in this profile.
    pub fn number(self) -> u32
        ensures { result ≡ error_number self }
    {
        match self {
            MqErrno::Base(errno) => errno as u32,
            MqErrno::Ebadf => 13,
            MqErrno::Emsgsize => 14,
        }
    }
}
