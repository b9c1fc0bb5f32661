//! The names of the calls, by the message queues that a script has.

use crate::lists::is_among;
use explain_base::Page;

/// Whose message queues the calls of a script are on: those of `pico mq` are POSIX's, and all others System V's.
#[derive(Clone, Copy)]
pub enum Queues {
    SystemV,
    Posix,
}

static NAMES: [&str; 16] = [
    "fork",
    "exit",
    "getpid",
    "kill",
    "sigaction",
    "sigprocmask",
    "sigpending",
    "handled",
    "waitpid",
    "msgget",
    "msgsnd",
    "msgrcv",
    "msgctl",
    "semget",
    "semop",
    "semctl",
];

static POSIX_NAMES: [&str; 16] = [
    "fork",
    "exit",
    "getpid",
    "kill",
    "sigaction",
    "sigprocmask",
    "sigpending",
    "handled",
    "waitpid",
    "mqopen",
    "mqsend",
    "mqreceive",
    "mqgetattr",
    "semget",
    "semop",
    "semctl",
];

const CALLS: &str =
    "a call: fork, exit, getpid, kill, sigaction, sigprocmask, sigpending, handled, waitpid, \
    msgget, msgsnd, msgrcv, msgctl, semget, semop, semctl";

const POSIX_CALLS: &str =
    "a call: fork, exit, getpid, kill, sigaction, sigprocmask, sigpending, handled, waitpid, \
    mqopen, mqsend, mqreceive, mqgetattr, semget, semop, semctl";

impl Queues {
    /// The names of all calls.
    pub fn names(self) -> &'static [&'static str] {
        match self {
            Queues::SystemV => &NAMES,
            Queues::Posix => &POSIX_NAMES,
        }
    }

    /// That a call is expected, and the names of all.
    pub fn calls(self) -> &'static str {
        match self {
            Queues::SystemV => CALLS,
            Queues::Posix => POSIX_CALLS,
        }
    }

    /// The page that names them.
    pub fn page(self) -> Page {
        match self {
            Queues::SystemV => Page::CallLines,
            Queues::Posix => Page::Queues,
        }
    }
}

/// Whether this is the name of a call, whatever the queues.
pub fn is_call(text: &[u8]) -> bool {
    is_among(text, &NAMES) || is_among(text, &POSIX_NAMES)
}
