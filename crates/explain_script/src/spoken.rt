//! What people write in the place of a call's name, and the calls on the other kind of message queues.

use explain_base::{Piece, Text, Word, Wrong};
use explain_calls::Queues;

// What is written in place of a call's name, and what is expected there.
#[derive(Clone, Copy)]
struct Spoken {
    written: &'static str,
    meant: &'static str,
}

static OTHER_NAMES: [Spoken; 6] = [
    Spoken {
        written: "wait",
        meant: "waitpid any nohang",
    },
    Spoken {
        written: "signal",
        meant: "sigaction",
    },
    Spoken {
        written: "semwait",
        meant: "semop S I:-1:nowait",
    },
    Spoken {
        written: "sempost",
        meant: "semop S I:1",
    },
    Spoken {
        written: "print",
        meant: "a script's calls print nothing; the trace shows each reply",
    },
    Spoken {
        written: "sleep",
        meant: "a call's name; nothing waits here, and `try N` makes a call again",
    },
];

static ON_SYSTEM_V: [Spoken; 3] = [
    Spoken {
        written: "send",
        meant: "msgsnd",
    },
    Spoken {
        written: "recv",
        meant: "msgrcv",
    },
    Spoken {
        written: "receive",
        meant: "msgrcv",
    },
];

static ON_POSIX: [Spoken; 5] = [
    Spoken {
        written: "open",
        meant: "mqopen",
    },
    Spoken {
        written: "send",
        meant: "mqsend",
    },
    Spoken {
        written: "recv",
        meant: "mqreceive",
    },
    Spoken {
        written: "receive",
        meant: "mqreceive",
    },
    Spoken {
        written: "mq_unlink",
        meant: "a call's name; no queue is removed here",
    },
];

// What is meant by a name that stands in a table.
fn meant_in(names: &'static [Spoken], text: &[u8]) -> Option<&'static str> {
    for name in names {
        if name.written.as_bytes() == text {
            return Some(name.meant);
        }
    }
    None
}

/// What is expected in place of a name that is no call's; nothing where that isn't known.
pub fn in_place_of(queues: Queues, text: &[u8]) -> Option<&'static str> {
    let on_queues = match queues {
        Queues::SystemV => meant_in(&ON_SYSTEM_V, text),
        Queues::Posix => meant_in(&ON_POSIX, text),
    };
    on_queues.or(meant_in(&OTHER_NAMES, text))
}

/// A line that sets a variable.
pub fn setting(queues: Queues) -> &'static str {
    match queues {
        Queues::SystemV => "as q = msgget private",
        Queues::Posix => "as q = mqopen /5 create",
    }
}

// A call on each kind of queues that does the same, by its name and by its form.
#[derive(Clone, Copy)]
struct Pair {
    system_v: &'static str,
    system_v_form: &'static str,
    posix: &'static str,
    posix_form: &'static str,
}

static PAIRS: [Pair; 4] = [
    Pair {
        system_v: "msgget",
        system_v_form: "msgget K [create] [excl]",
        posix: "mqopen",
        posix_form: "mqopen /N [create] [excl]",
    },
    Pair {
        system_v: "msgsnd",
        system_v_form: "msgsnd Q T X nowait",
        posix: "mqsend",
        posix_form: "mqsend Q P X",
    },
    Pair {
        system_v: "msgrcv",
        system_v_form: "msgrcv Q T Z nowait",
        posix: "mqreceive",
        posix_form: "mqreceive Q Z",
    },
    Pair {
        system_v: "msgctl",
        system_v_form: "msgctl Q stat",
        posix: "mqgetattr",
        posix_form: "mqgetattr Q",
    },
];

impl Pair {
    // What is wrong with a word in a script of these queues, where it is the name of the call on the others.
    fn wrong<'a>(&self, queues: Queues, word: Word<'a>) -> Option<Wrong<'a>> {
        let (name, behind, expected) = match queues {
            Queues::SystemV => {
                let form = Piece::plain(self.system_v_form);
                let mode = Piece::plain("; or ./pico mq, whose scripts have ");
                let expected = Text::three(form, mode, Piece::plain(self.posix));
                (self.posix, " is a call of `pico mq` alone", expected)
            }
            Queues::Posix => {
                let behind = " is no call of `pico mq`";
                (self.system_v, behind, Text::plain(self.posix_form))
            }
        };
        if word.text == name.as_bytes() {
            Some(Wrong::new(Text::said(word.text, behind), expected, word.span()))
        } else {
            None
        }
    }
}

/// What is wrong with a word that names a call on the other kind of queues.
pub fn of_other_queues(queues: Queues, word: Word<'_>) -> Option<Wrong<'_>> {
    for pair in &PAIRS {
        let wrong = pair.wrong(queues, word);
        if wrong.is_some() {
            return wrong;
        }
    }
    None
}
