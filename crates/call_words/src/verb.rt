//! The names of calls.

ghost use Rattle.std.specs.Prelude.{◌≡◌, bytes_eq, drop};
ghost use Rattle.std.specs.List.{find};
ghost use Rattle.call_words.specs.Verbs.{all_verbs, verb_name, verb_of};

use crate::same::{is_five, is_four, is_six};

/// What the first word of a call names, in a script and in a trace.
#[derive(Clone, Copy)]
pub enum Verb {
    Fork,
    Exit,
    GetPid,
    Kill,
    SigAction,
    SigProcMask,
    SigPending,
    Handled,
    WaitPid,
    MsgGet,
    MsgSnd,
    MsgRcv,
    MsgCtl,
    SemGet,
    SemOp,
    SemCtl,
}

impl Verb {
    /// What this word names, of the calls that scripts have fewer of.
    #[inline(always)]
    fn named_seldom(word: &[u8]) -> Option<Verb>
        ensures { result ≡ find (λ v. bytes_eq (verb_name v) word.now) (drop 8 all_verbs) }
    {
        if b"sigaction".as_slice() == word {
            Some(Verb::SigAction)
        } else if b"sigprocmask".as_slice() == word {
            Some(Verb::SigProcMask)
        } else if b"sigpending".as_slice() == word {
            Some(Verb::SigPending)
        } else if b"handled".as_slice() == word {
            Some(Verb::Handled)
        } else if is_six(*b"msgget", word) {
            Some(Verb::MsgGet)
        } else if is_six(*b"msgctl", word) {
            Some(Verb::MsgCtl)
        } else if is_six(*b"semget", word) {
            Some(Verb::SemGet)
        } else if is_six(*b"semctl", word) {
            Some(Verb::SemCtl)
        } else {
            None
        }
    }

    /// What this word names; none where it names no call. Those that scripts and traces have most of are tried first.
    #[inline(always)]
    #[tactic(auto, unfolding(crate::specs::Verbs::verb_of))]
    pub fn named(word: &[u8]) -> Option<Verb>
        ensures { result ≡ verb_of word.now }
    {
        if is_six(*b"msgrcv", word) {
            Some(Verb::MsgRcv)
        } else if is_six(*b"msgsnd", word) {
            Some(Verb::MsgSnd)
        } else if is_five(*b"semop", word) {
            Some(Verb::SemOp)
        } else if is_six(*b"getpid", word) {
            Some(Verb::GetPid)
        } else if is_four(*b"fork", word) {
            Some(Verb::Fork)
        } else if is_four(*b"exit", word) {
            Some(Verb::Exit)
        } else if is_four(*b"kill", word) {
            Some(Verb::Kill)
        } else if b"waitpid".as_slice() == word {
            Some(Verb::WaitPid)
        } else {
            Verb::named_seldom(word)
        }
    }
}
