//! How each call is written.

use crate::lists::is_among;
use crate::names::Queues;
use crate::needs::{
    ACTION, BLOCK_NAME, CHILD, INDEX, ITSELF, KEY, MOST_KEPT, MOST_TAKEN, NUMBER, Need, ON_QUEUE,
    ON_SET, OPERATION, PRIORITY, PROCESS, QUEUE, QUEUE_NAME, ROOM, SET, SIGNAL, SIGNAL_ARGUMENT,
    SIGNALS, TEXT, TYPE, VALUE, VALUES, WAY,
};
use crate::plain::text_at;
use explain_base::{Page, Words};

/// The words that may follow those that must be there, in their order, and that they may stand there.
#[derive(Clone, Copy)]
pub struct Behind {
    pub words: &'static [&'static str],
    pub told: &'static str,
    /// Whether further operations may follow in place of such words.
    pub are_operations: bool,
}

const NOTHING: Behind = Behind {
    words: &[],
    told: "",
    are_operations: false,
};

const NOHANG: Behind = Behind {
    words: &["nohang"],
    told: "behind it may stand nohang",
    are_operations: false,
};

const NOWAIT: Behind = Behind {
    words: &["nowait"],
    told: "behind it may stand nowait",
    are_operations: false,
};

const NOERROR_NOWAIT: Behind = Behind {
    words: &["noerror", "nowait"],
    told: "behind it may stand noerror and then nowait",
    are_operations: false,
};

const CREATE_EXCL: Behind = Behind {
    words: &["create", "excl"],
    told: "behind it may stand create and then excl",
    are_operations: false,
};

const OPERATIONS: Behind = Behind {
    words: &[],
    told: "",
    are_operations: true,
};

/// How a call is written: its name, its text, what its words have to be, and the words that may follow. A form that a
/// word behind the name tells from others of that call has this word and its place.
#[derive(Clone, Copy)]
pub struct Form {
    pub call: &'static str,
    place: usize,
    word: &'static str,
    pub text: &'static str,
    pub needs: &'static [Need],
    pub behind: Behind,
}

// Those that a word tells stand before the others of their call.
static FORMS: [Form; 29] = [
    Form {
        call: "fork",
        place: 0,
        word: "",
        text: "fork NAME",
        needs: &[BLOCK_NAME],
        behind: NOTHING,
    },
    Form {
        call: "exit",
        place: 0,
        word: "",
        text: "exit N",
        needs: &[NUMBER],
        behind: NOTHING,
    },
    Form {
        call: "getpid",
        place: 0,
        word: "",
        text: "getpid",
        needs: &[],
        behind: NOTHING,
    },
    Form {
        call: "kill",
        place: 0,
        word: "",
        text: "kill P G",
        needs: &[PROCESS, SIGNAL_ARGUMENT],
        behind: NOTHING,
    },
    Form {
        call: "sigaction",
        place: 0,
        word: "",
        text: "sigaction G A",
        needs: &[SIGNAL_ARGUMENT, ACTION],
        behind: NOTHING,
    },
    Form {
        call: "sigprocmask",
        place: 0,
        word: "",
        text: "sigprocmask H M",
        needs: &[WAY, SIGNALS],
        behind: NOTHING,
    },
    Form {
        call: "sigpending",
        place: 0,
        word: "",
        text: "sigpending",
        needs: &[],
        behind: NOTHING,
    },
    Form {
        call: "handled",
        place: 0,
        word: "",
        text: "handled G",
        needs: &[SIGNAL],
        behind: NOTHING,
    },
    Form {
        call: "waitpid",
        place: 0,
        word: "",
        text: "waitpid W [nohang]",
        needs: &[CHILD],
        behind: NOHANG,
    },
    Form {
        call: "msgget",
        place: 0,
        word: "private",
        text: "msgget private",
        needs: &[ITSELF],
        behind: NOTHING,
    },
    Form {
        call: "msgget",
        place: 0,
        word: "",
        text: "msgget K [create] [excl], msgget private",
        needs: &[KEY],
        behind: CREATE_EXCL,
    },
    Form {
        call: "msgsnd",
        place: 0,
        word: "",
        text: "msgsnd Q T X [nowait]",
        needs: &[QUEUE, TYPE, TEXT],
        behind: NOWAIT,
    },
    Form {
        call: "msgrcv",
        place: 0,
        word: "",
        text: "msgrcv Q T Z [noerror] [nowait]",
        needs: &[QUEUE, TYPE, MOST_TAKEN],
        behind: NOERROR_NOWAIT,
    },
    Form {
        call: "msgctl",
        place: 1,
        word: "stat",
        text: "msgctl Q stat",
        needs: &[QUEUE, ITSELF],
        behind: NOTHING,
    },
    Form {
        call: "msgctl",
        place: 1,
        word: "set",
        text: "msgctl Q set B",
        needs: &[QUEUE, ITSELF, MOST_KEPT],
        behind: NOTHING,
    },
    Form {
        call: "msgctl",
        place: 1,
        word: "rmid",
        text: "msgctl Q rmid",
        needs: &[QUEUE, ITSELF],
        behind: NOTHING,
    },
    Form {
        call: "msgctl",
        place: 0,
        word: "",
        text: "msgctl Q stat | set | rmid",
        needs: &[QUEUE, ON_QUEUE],
        behind: NOTHING,
    },
    Form {
        call: "semget",
        place: 0,
        word: "private",
        text: "semget private N",
        needs: &[ITSELF, NUMBER],
        behind: NOTHING,
    },
    Form {
        call: "semget",
        place: 0,
        word: "",
        text: "semget K N [create] [excl], semget private N",
        needs: &[KEY, NUMBER],
        behind: CREATE_EXCL,
    },
    Form {
        call: "semop",
        place: 0,
        word: "",
        text: "semop S OPS",
        needs: &[SET, OPERATION],
        behind: OPERATIONS,
    },
    Form {
        call: "semctl",
        place: 1,
        word: "getval",
        text: "semctl S getval I",
        needs: &[SET, ITSELF, INDEX],
        behind: NOTHING,
    },
    Form {
        call: "semctl",
        place: 1,
        word: "getpid",
        text: "semctl S getpid I",
        needs: &[SET, ITSELF, INDEX],
        behind: NOTHING,
    },
    Form {
        call: "semctl",
        place: 1,
        word: "getncnt",
        text: "semctl S getncnt I",
        needs: &[SET, ITSELF, INDEX],
        behind: NOTHING,
    },
    Form {
        call: "semctl",
        place: 1,
        word: "getzcnt",
        text: "semctl S getzcnt I",
        needs: &[SET, ITSELF, INDEX],
        behind: NOTHING,
    },
    Form {
        call: "semctl",
        place: 1,
        word: "getall",
        text: "semctl S getall",
        needs: &[SET, ITSELF],
        behind: NOTHING,
    },
    Form {
        call: "semctl",
        place: 1,
        word: "setval",
        text: "semctl S setval I V",
        needs: &[SET, ITSELF, INDEX, VALUE],
        behind: NOTHING,
    },
    Form {
        call: "semctl",
        place: 1,
        word: "setall",
        text: "semctl S setall V,V,..",
        needs: &[SET, ITSELF, VALUES],
        behind: NOTHING,
    },
    Form {
        call: "semctl",
        place: 1,
        word: "rmid",
        text: "semctl S rmid",
        needs: &[SET, ITSELF],
        behind: NOTHING,
    },
    Form {
        call: "semctl",
        place: 0,
        word: "",
        text: "semctl S getval | getpid | getncnt | getzcnt | getall | setval | setall | rmid",
        needs: &[SET, ON_SET],
        behind: NOTHING,
    },
];

// The calls on POSIX message queues.
static POSIX_FORMS: [Form; 4] = [
    Form {
        call: "mqopen",
        place: 0,
        word: "",
        text: "mqopen /N [create] [excl]",
        needs: &[QUEUE_NAME],
        behind: CREATE_EXCL,
    },
    Form {
        call: "mqsend",
        place: 0,
        word: "",
        text: "mqsend Q P X",
        needs: &[QUEUE, PRIORITY, TEXT],
        behind: NOTHING,
    },
    Form {
        call: "mqreceive",
        place: 0,
        word: "",
        text: "mqreceive Q Z",
        needs: &[QUEUE, ROOM],
        behind: NOTHING,
    },
    Form {
        call: "mqgetattr",
        place: 0,
        word: "",
        text: "mqgetattr Q",
        needs: &[QUEUE],
        behind: NOTHING,
    },
];

// The first of these that a call has by its name and the words behind it.
fn form_in(forms: &'static [Form], name: &[u8], words: Words) -> Option<&'static Form> {
    for form in forms {
        if form.is_of(name, words) {
            return Some(form);
        }
    }
    None
}

impl Form {
    // Whether a call has this form by its name and the words behind it.
    fn is_of(&self, name: &[u8], words: Words) -> bool {
        self.call.as_bytes() == name
            && (self.word.is_empty() || text_at(words, self.place) == self.word.as_bytes())
    }

    /// The page that has its rule.
    pub fn page(&self) -> Page {
        for form in &POSIX_FORMS {
            if form.call == self.call {
                return Page::Queues;
            }
        }
        Page::CallLines
    }

    /// The form of a call by its name and the words behind it; none where this is the name of no call of a script with
    /// these queues.
    pub fn of(queues: Queues, name: &[u8], words: Words) -> Option<&'static Form> {
        if !is_among(name, queues.names()) {
            return None;
        }
        form_in(&POSIX_FORMS, name, words).or(form_in(&FORMS, name, words))
    }
}
