//! The calls by their words.

ghost use Rattle.std.specs.Prelude.{◌≡◌, OnOk};
ghost use Rattle.script_reader.specs.Words.{texts};
ghost use Rattle.script_reader.specs.Says.{said_from};
ghost use Rattle.script_reader.specs.Forms as forms;

use crate::process_forms::{
    put_exit, put_getpid, put_handled, put_kill, put_sigaction, put_sigpending, put_sigprocmask,
    put_waitpid,
};
use crate::queue_forms::{put_msgctl, put_msgget, put_msgrcv, put_msgsnd};
use crate::says::{CallFront, Said};
use crate::set_forms::{put_semctl, put_semget, put_semop};
use call_words::Verb;
use pico_base::Memory;
use std::alloc::Global;

/// Puts the line of a call in the place of what another line said: that of this name, with these words behind it.
/// `fork` is none of them.
#[inline(always)]
pub(crate) fn put_call(
    alloc: Global,
    front: &CallFront,
    verb: Verb,
    words: &[&[u8]],
    said: &mut Said,
) -> Result<(), Memory>
    ensures { OnOk result (said.new ≡ said_from front.now.set front.now.tries (forms.call_of verb (texts words.now))) }
{
    match verb {
        Verb::Fork => *said = Said::Bad,
        Verb::Exit => put_exit(front, words, said),
        Verb::GetPid => put_getpid(front, words, said),
        Verb::Kill => put_kill(front, words, said),
        Verb::SigAction => put_sigaction(front, words, said),
        Verb::SigProcMask => put_sigprocmask(front, words, said),
        Verb::SigPending => put_sigpending(front, words, said),
        Verb::Handled => put_handled(front, words, said),
        Verb::WaitPid => put_waitpid(front, words, said),
        Verb::MsgGet => put_msgget(front, words, said),
        Verb::MsgSnd => put_msgsnd(alloc, front, words, said)?,
        Verb::MsgRcv => put_msgrcv(front, words, said),
        Verb::MsgCtl => put_msgctl(front, words, said),
        Verb::SemGet => put_semget(front, words, said),
        Verb::SemOp => put_semop(alloc, front, words, said)?,
        Verb::SemCtl => put_semctl(alloc, front, words, said)?,
    }
    Ok(())
}
