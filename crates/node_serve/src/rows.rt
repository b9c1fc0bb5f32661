//! Calls on a living process's row.
ghost use Rattle.std.specs.Prelude.{◌≡◌};
ghost use Rattle.kernel_model.specs.Row as definition;
ghost use Rattle.kernel_model.specs.Signals.{act_on};
ghost use Rattle.node_serve.specs.Bodies.{row_of};
ghost use Rattle.node_serve.specs.Waits.{alone, reply_to};
ghost use Rattle.node_model.specs.Awaiting.{on_own, reap};
ghost use Rattle.node_model.specs.Carrying.{act, done, signal};

use crate::Row;
use fork_wait::Waited;
use pico_base::{Act, Call, Errno, Pid, Reply, SigArg};

/// kill of this process: EINVAL where the number is no signal's.
fn signal(row: &mut Row, sig: SigArg) -> Reply
    ensures { signal (row_of row.old) sig ≡ done (row_of row.new) result }
{
    match sig {
        SigArg::Zero => Reply::Num(0),
        SigArg::Bad => Reply::Fail(Errno::Einval),
        SigArg::Is(sig) => {
            row.signals.raise(sig);
            Reply::Num(0)
        }
    }
}

/// sigaction: EINVAL.
fn act(row: &mut Row, sig: SigArg, action: Act) -> Reply
    ensures { act (row_of row.old) (act_on row.old.signals sig action) ≡ done (row_of row.new) result }
{
    match row.signals.act(sig, action) {
        Ok(()) => Reply::Num(0),
        Err(errno) => Reply::Fail(errno),
    }
}

/// The reply to a wait that found something. None: the caller has to wait.
fn found(waited: Waited, nohang: bool) -> Option<Reply>
    ensures { result ≡ reply_to nohang waited }
{
    match waited {
        Waited::Child { pid, ending } => Some(Reply::Child { pid, ending }),
        Waited::NotYet if nohang => Some(Reply::Num(0)),
        Waited::NotYet => None,
    }
}

/// waitpid: ECHILD. None: the caller has to wait.
pub(crate) fn reap(row: &mut Row, child: Option<Pid>, nohang: bool) -> Option<Reply>
    ensures { reap (row_of row.old) nohang (definition.wait row.old.family child) ≡ alone (row_of row.new) result }
{
    match row.family.wait(child) {
        Ok(waited) => found(waited, nohang),
        Err(errno) => Some(Reply::Fail(errno)),
    }
}

/// A call on the row of a living process, by itself or, for kill, by another one. None: the caller has to wait.
pub(crate) fn on_row(row: &mut Row, pid: Pid, call: &Call) -> Option<Reply>
    ensures { on_own (row_of row.old) pid call.now ≡ alone (row_of row.new) result }
{
    match call {
        Call::GetPid => Some(Reply::Num(pid.0)),
        Call::Kill { sig, .. } => Some(signal(row, *sig)),
        Call::SigAction { sig, act: action } => Some(act(row, *sig, *action)),
        Call::SigProcMask { how, set } => Some(Reply::Bits(row.signals.mask(*how, *set))),
        Call::SigPending => Some(Reply::Bits(row.signals.pending())),
        Call::Handled { sig } => Some(Reply::Num(row.signals.handled(*sig))),
        Call::WaitPid { child, nohang } => reap(row, *child, *nohang),
        _ => Some(Reply::Fail(Errno::Einval)),
    }
}
