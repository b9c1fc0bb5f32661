//! What a word of a call has to be.

use crate::lists::{one_of, operation, values};
use crate::numbers::{GREATEST, Range, block_name, child, key, number, numbered, queue_name};
use crate::signals::{signal_or, signal_set};
use crate::texts::text;
use explain_base::{Text, Word, Wrong};

/// What a word is looked at for.
#[derive(Clone, Copy)]
pub enum Kind {
    BlockName,
    /// A number, or a variable in its place.
    Value,
    /// The same, or `any`.
    Child,
    Key,
    /// `/N`.
    QueueName,
    Number,
    Values,
    Operation,
    /// A signal, or one of the choices.
    Signal,
    Signals,
    Text,
    /// One of the choices.
    Choice,
    /// A word that is told by what it is.
    Itself,
}

/// What a word of a call has to be: its name in docs/script.md, what is expected where it isn't there, the range of a
/// number, the words of a choice, and what is expected where it is wrong.
#[derive(Clone, Copy)]
pub struct Need {
    pub kind: Kind,
    pub called: &'static str,
    pub lacking: &'static str,
    pub low: i64,
    pub high: i64,
    pub choices: &'static [&'static str],
    pub expected: &'static str,
}

/// The name of a block.
pub const BLOCK_NAME: Need = Need {
    kind: Kind::BlockName,
    called: "NAME",
    lacking: "the name of a block",
    low: 0,
    high: 0,
    choices: &[],
    expected: "",
};

/// A process.
pub const PROCESS: Need = Need {
    kind: Kind::Value,
    called: "P",
    lacking: "a process number, or a variable as $a",
    low: 1,
    high: GREATEST,
    choices: &[],
    expected: "P is a process number from 1 to 4294967295, or a variable as $a",
};

/// A child, or any.
pub const CHILD: Need = Need {
    kind: Kind::Child,
    called: "W",
    lacking: "`any`, a process number, or a variable as $a",
    low: 0,
    high: 0,
    choices: &[],
    expected: "W is `any`, a process number from 1 on, or a variable as $a",
};

/// A signal.
pub const SIGNAL: Need = Need {
    kind: Kind::Signal,
    called: "G",
    lacking: "a signal: HUP, INT, QUIT, KILL, USR1, USR2, PIPE, ALRM, TERM, CHLD",
    low: 0,
    high: 0,
    choices: &[],
    expected: "",
};

/// A signal, none, or one that there isn't.
pub const SIGNAL_ARGUMENT: Need = Need {
    kind: Kind::Signal,
    called: "G",
    lacking: "a signal: HUP, INT, QUIT, KILL, USR1, USR2, PIPE, ALRM, TERM, CHLD",
    low: 0,
    high: 0,
    choices: &["0", "badsig"],
    expected: ", `0`, `badsig`",
};

/// What a signal does.
pub const ACTION: Need = Need {
    kind: Kind::Choice,
    called: "A",
    lacking: "dfl, ign or catch",
    low: 0,
    high: 0,
    choices: &["dfl", "ign", "catch"],
    expected: "A is dfl, ign or catch",
};

/// How the mask is changed.
pub const WAY: Need = Need {
    kind: Kind::Choice,
    called: "H",
    lacking: "block, unblock or setmask",
    low: 0,
    high: 0,
    choices: &["block", "unblock", "setmask"],
    expected: "H is block, unblock or setmask",
};

/// A set of signals.
pub const SIGNALS: Need = Need {
    kind: Kind::Signals,
    called: "M",
    lacking: "`none`, or signals joined by commas",
    low: 0,
    high: 0,
    choices: &[],
    expected: "",
};

/// A queue.
pub const QUEUE: Need = Need {
    kind: Kind::Value,
    called: "Q",
    lacking: "the queue's identifier, or a variable as $q",
    low: 0,
    high: GREATEST,
    choices: &[],
    expected: "Q is an identifier from 0 to 4294967295, or a variable as $q",
};

/// A set of semaphores.
pub const SET: Need = Need {
    kind: Kind::Value,
    called: "S",
    lacking: "the set's identifier, or a variable as $s",
    low: 0,
    high: GREATEST,
    choices: &[],
    expected: "S is an identifier from 0 to 4294967295, or a variable as $s",
};

/// A key.
pub const KEY: Need = Need {
    kind: Kind::Key,
    called: "K",
    lacking: "a key, a number from 1 on",
    low: 0,
    high: 0,
    choices: &[],
    expected: "",
};

/// The name of a POSIX message queue.
pub const QUEUE_NAME: Need = Need {
    kind: Kind::QueueName,
    called: "/N",
    lacking: "the queue's name, as /5",
    low: 0,
    high: 0,
    choices: &[],
    expected: "",
};

/// A message's priority.
pub const PRIORITY: Need = Need {
    kind: Kind::Number,
    called: "P",
    lacking: "the priority, a number from 0 to 65535; those above 31 are refused",
    low: 0,
    high: 65535,
    choices: &[],
    expected: "",
};

/// The room for a message that is taken.
pub const ROOM: Need = Need {
    kind: Kind::Number,
    called: "Z",
    lacking: "the room for the message, from 0 to 65535; less than 16 is refused",
    low: 0,
    high: 65535,
    choices: &[],
    expected: "",
};

/// A message's type.
pub const TYPE: Need = Need {
    kind: Kind::Number,
    called: "T",
    lacking: "the type, a number",
    low: -2147483647,
    high: 2147483647,
    choices: &[],
    expected: "",
};

/// A message's text.
pub const TEXT: Need = Need {
    kind: Kind::Text,
    called: "X",
    lacking: "a text, as \"hi\"",
    low: 0,
    high: 0,
    choices: &[],
    expected: "",
};

/// The most bytes that are taken.
pub const MOST_TAKEN: Need = Need {
    kind: Kind::Number,
    called: "Z",
    lacking: "the most bytes that are taken, from 0 to 65535",
    low: 0,
    high: 65535,
    choices: &[],
    expected: "",
};

/// The most bytes that a queue keeps.
pub const MOST_KEPT: Need = Need {
    kind: Kind::Number,
    called: "B",
    lacking: "B",
    low: 0,
    high: 65535,
    choices: &[],
    expected: "",
};

/// A number.
pub const NUMBER: Need = Need {
    kind: Kind::Number,
    called: "N",
    lacking: "a number from 0 to 65535",
    low: 0,
    high: 65535,
    choices: &[],
    expected: "",
};

/// A semaphore's index.
pub const INDEX: Need = Need {
    kind: Kind::Number,
    called: "I",
    lacking: "I",
    low: 0,
    high: 65535,
    choices: &[],
    expected: "",
};

/// A semaphore's value.
pub const VALUE: Need = Need {
    kind: Kind::Number,
    called: "V",
    lacking: "V",
    low: 0,
    high: 65535,
    choices: &[],
    expected: "",
};

/// The values of all semaphores.
pub const VALUES: Need = Need {
    kind: Kind::Values,
    called: "V,V,..",
    lacking: "V,V,..",
    low: 0,
    high: 0,
    choices: &[],
    expected: "",
};

/// An operation.
pub const OPERATION: Need = Need {
    kind: Kind::Operation,
    called: "OPS",
    lacking: "one operation or more, as 0:-1:nowait",
    low: 0,
    high: 0,
    choices: &[],
    expected: "",
};

/// What to do with a queue.
pub const ON_QUEUE: Need = Need {
    kind: Kind::Choice,
    called: "what to do",
    lacking: "what to do",
    low: 0,
    high: 0,
    choices: &["stat", "set", "rmid"],
    expected: "it is stat, set or rmid",
};

/// What to do with a set.
pub const ON_SET: Need = Need {
    kind: Kind::Choice,
    called: "what to do",
    lacking: "what to do",
    low: 0,
    high: 0,
    choices: &[
        "getval", "getpid", "getncnt", "getzcnt", "getall", "setval", "setall", "rmid",
    ],
    expected: "it is getval, getpid, getncnt, getzcnt, getall, setval, setall or rmid",
};

/// A word that is told by what it is.
pub const ITSELF: Need = Need {
    kind: Kind::Itself,
    called: "what to do",
    lacking: "what to do",
    low: 0,
    high: 0,
    choices: &[],
    expected: "",
};

impl Need {
    fn range(self) -> Range {
        Range::of(self.called, self.low, self.high)
    }

    /// What is wrong with a word; whether a further word follows tells of a blank behind a comma.
    pub fn wrong(self, word: Word<'_>, is_followed: bool) -> Option<Wrong<'_>> {
        match self.kind {
            Kind::Value => numbered(word, self.range(), self.expected),
            Kind::Child => child(word, self.expected),
            Kind::Key => key(word),
            Kind::Number => number(word, self.range()),
            Kind::Itself => None,
            _ => self.wrong_text(word, is_followed),
        }
    }

    // The same of what isn't a number, or more than one.
    fn wrong_text(self, word: Word<'_>, is_followed: bool) -> Option<Wrong<'_>> {
        match self.kind {
            Kind::BlockName => block_name(word),
            Kind::QueueName => queue_name(word),
            Kind::Signal => signal_or(word, self.choices, self.expected),
            Kind::Choice => one_of(word, self.choices, self.expected),
            Kind::Text => text(word),
            Kind::Operation => operation(word),
            Kind::Values => values(word, is_followed),
            _ => signal_set(word, is_followed),
        }
    }

    /// The same in a trace: numbers stand in the place of variables, and a process number may be 0, as a variable's
    /// value may.
    pub fn wrong_in_trace(self, word: Word<'_>, is_followed: bool) -> Option<Wrong<'_>> {
        match self.kind {
            Kind::Child if word.text == b"any".as_slice() => None,
            Kind::Value | Kind::Child => self.wrong_value(word),
            _ => self.wrong(word, is_followed),
        }
    }

    fn wrong_value(self, word: Word<'_>) -> Option<Wrong<'_>> {
        if word.text.starts_with(b"$") {
            let had = Text::said_in("the number that ", word.text, " had");
            return Some(Wrong::new(Text::plain("a trace has no variables"), had, word.span()));
        }
        number(word, Range::of(self.called, 0, GREATEST))
    }
}
