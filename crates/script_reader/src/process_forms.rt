//! The calls about processes and signals, by their words.

ghost use Rattle.std.specs.Prelude.{◌≡◌};
ghost use Rattle.script_reader.specs.Words.{texts};
ghost use Rattle.script_reader.specs.Says.{said_from};
ghost use Rattle.script_reader.specs.Forms as forms;

use crate::form_parts::{FromCall, optional, process};
use crate::numbers::index;
use crate::parts::{action, how, signal, signal_argument, signal_set};
use crate::says::{CallFront, Said, put_from};
use pico_base::{Call, Pid, Var};

/// `exit N`.
#[tactic(auto, unfolding(crate::specs::Forms::exit_of))]
fn exit(words: &[&[u8]]) -> Option<FromCall>
    ensures { result ≡ forms.exit_of (texts words.now) }
{
    match words {
        [n] => {
            let status = index(n)?;
            Some((None, Call::Exit { status }))
        }
        _ => None,
    }
}

/// `getpid`.
#[tactic(auto, unfolding(crate::specs::Forms::getpid_of))]
fn getpid(words: &[&[u8]]) -> Option<FromCall>
    ensures { result ≡ forms.getpid_of (texts words.now) }
{
    match words {
        [] => Some((None, Call::GetPid)),
        _ => None,
    }
}

/// `sigpending`.
#[tactic(auto, unfolding(crate::specs::Forms::sigpending_of))]
fn sigpending(words: &[&[u8]]) -> Option<FromCall>
    ensures { result ≡ forms.sigpending_of (texts words.now) }
{
    match words {
        [] => Some((None, Call::SigPending)),
        _ => None,
    }
}

/// `kill P G`.
#[tactic(auto, unfolding(crate::specs::Forms::kill_of))]
fn kill(words: &[&[u8]]) -> Option<FromCall>
    ensures { result ≡ forms.kill_of (texts words.now) }
{
    match words {
        [p, g] => {
            let (from, pid) = process(p)?;
            let sig = signal_argument(g)?;
            Some((from, Call::Kill { pid, sig }))
        }
        _ => None,
    }
}

/// `sigaction G A`.
#[tactic(auto, unfolding(crate::specs::Forms::sigaction_of))]
fn sigaction(words: &[&[u8]]) -> Option<FromCall>
    ensures { result ≡ forms.sigaction_of (texts words.now) }
{
    match words {
        [g, a] => {
            let sig = signal_argument(g)?;
            let act = action(a)?;
            Some((None, Call::SigAction { sig, act }))
        }
        _ => None,
    }
}

/// `sigprocmask H M`.
#[tactic(auto, unfolding(crate::specs::Forms::sigprocmask_of))]
fn sigprocmask(words: &[&[u8]]) -> Option<FromCall>
    ensures { result ≡ forms.sigprocmask_of (texts words.now) }
{
    match words {
        [h, m] => {
            let how = how(h)?;
            let set = signal_set(m)?;
            Some((None, Call::SigProcMask { how, set }))
        }
        _ => None,
    }
}

/// `handled G`.
#[tactic(auto, unfolding(crate::specs::Forms::handled_of))]
fn handled(words: &[&[u8]]) -> Option<FromCall>
    ensures { result ≡ forms.handled_of (texts words.now) }
{
    match words {
        [g] => {
            let sig = signal(g)?;
            Some((None, Call::Handled { sig }))
        }
        _ => None,
    }
}

/// `any`, or a process.
#[tactic(auto, unfolding(crate::specs::Forms::child))]
fn child(word: &[u8]) -> Option<(Option<Var>, Option<Pid>)>
    ensures { result ≡ forms.child word.now }
{
    if word == b"any".as_slice() {
        return Some((None, None));
    }
    let (from, pid) = process(word)?;
    Some((from, Some(pid)))
}

/// `waitpid W [nohang]`.
#[tactic(auto, unfolding(crate::specs::Forms::waitpid_of))]
fn waitpid(words: &[&[u8]]) -> Option<FromCall>
    ensures { result ≡ forms.waitpid_of (texts words.now) }
{
    match words {
        [w, more @ ..] => {
            let (from, child) = child(w)?;
            let nohang = optional(b"nohang", more)?;
            Some((from, Call::WaitPid { child, nohang }))
        }
        _ => None,
    }
}

// Each of these puts a line with its call in the place of what another line said. They stay apart where they are
// compiled, so that the long value is made where it stays.

#[inline(never)]
pub(crate) fn put_exit(front: &CallFront, words: &[&[u8]], said: &mut Said)
    ensures { said.new ≡ said_from front.now.set front.now.tries (forms.exit_of (texts words.now)) }
{
    put_from(front, exit(words), said);
}

#[inline(never)]
pub(crate) fn put_getpid(front: &CallFront, words: &[&[u8]], said: &mut Said)
    ensures { said.new ≡ said_from front.now.set front.now.tries (forms.getpid_of (texts words.now)) }
{
    put_from(front, getpid(words), said);
}

#[inline(never)]
pub(crate) fn put_kill(front: &CallFront, words: &[&[u8]], said: &mut Said)
    ensures { said.new ≡ said_from front.now.set front.now.tries (forms.kill_of (texts words.now)) }
{
    put_from(front, kill(words), said);
}

#[inline(never)]
pub(crate) fn put_sigaction(front: &CallFront, words: &[&[u8]], said: &mut Said)
    ensures { said.new ≡ said_from front.now.set front.now.tries (forms.sigaction_of (texts words.now)) }
{
    put_from(front, sigaction(words), said);
}

#[inline(never)]
pub(crate) fn put_sigprocmask(front: &CallFront, words: &[&[u8]], said: &mut Said)
    ensures { said.new ≡ said_from front.now.set front.now.tries (forms.sigprocmask_of (texts words.now)) }
{
    put_from(front, sigprocmask(words), said);
}

#[inline(never)]
pub(crate) fn put_sigpending(front: &CallFront, words: &[&[u8]], said: &mut Said)
    ensures { said.new ≡ said_from front.now.set front.now.tries (forms.sigpending_of (texts words.now)) }
{
    put_from(front, sigpending(words), said);
}

#[inline(never)]
pub(crate) fn put_handled(front: &CallFront, words: &[&[u8]], said: &mut Said)
    ensures { said.new ≡ said_from front.now.set front.now.tries (forms.handled_of (texts words.now)) }
{
    put_from(front, handled(words), said);
}

#[inline(never)]
pub(crate) fn put_waitpid(front: &CallFront, words: &[&[u8]], said: &mut Said)
    ensures { said.new ≡ said_from front.now.set front.now.tries (forms.waitpid_of (texts words.now)) }
{
    put_from(front, waitpid(words), said);
}
