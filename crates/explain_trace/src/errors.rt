//! The errors that a call may reply, and what each says.

/// The names of all errors, and the reply of a call that ends its process.
pub static ERRORS_AND_ENDED: [&str; 13] = [
    "ESRCH", "EINVAL", "ECHILD", "ENOENT", "EEXIST", "ENOMSG", "EAGAIN", "E2BIG", "EFBIG",
    "ERANGE", "EIDRM", "EINTR", "ended",
];

// An error's name, and what it says.
#[derive(Clone, Copy)]
struct Saying {
    name: &'static str,
    says: &'static str,
}

static SAYINGS: [Saying; 12] = [
    Saying {
        name: "ESRCH",
        says: ": no such process, or it is gone",
    },
    Saying {
        name: "EINVAL",
        says: ": nothing has this number, or a word is out of the range that the call takes",
    },
    Saying {
        name: "ECHILD",
        says: ": the caller has no such child, living or ended",
    },
    Saying {
        name: "ENOENT",
        says: ": the key leads nowhere, and `create` isn't there",
    },
    Saying {
        name: "EEXIST",
        says: ": the key leads to one already, and it would have to be new",
    },
    Saying {
        name: "ENOMSG",
        says: ": the queue has no message of that type",
    },
    Saying {
        name: "EAGAIN",
        says: ": there is no room in the queue, or a semaphore doesn't let an operation go on",
    },
    Saying {
        name: "E2BIG",
        says: ": the message is longer than what is taken, or there are too many operations",
    },
    Saying {
        name: "EFBIG",
        says: ": the set has no semaphore of that index",
    },
    Saying {
        name: "ERANGE",
        says: ": a value would be above 32767",
    },
    Saying {
        name: "EIDRM",
        says: ": what the caller waited on was removed",
    },
    Saying {
        name: "EINTR",
        says: ": a signal ended the wait",
    },
];

/// What an error's name says; none where this is the name of none.
pub fn meaning(name: &[u8]) -> Option<&'static str> {
    for error in &SAYINGS {
        if error.name.as_bytes() == name {
            return Some(error.says);
        }
    }
    None
}

/// Whether it is one of those that come where nothing is ready.
pub fn is_not_ready(name: &[u8]) -> bool {
    name == b"ENOMSG".as_slice() || name == b"EAGAIN".as_slice()
}
