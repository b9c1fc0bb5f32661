//! Where a call can be carried out.
ghost use Rattle.std.specs.Prelude.{◌≡◌};
ghost use Rattle.pico_base.specs.Home.{home_of, home_of_process, home_of_withdrawal};

use crate::{Call, Home, Name, Pid, SigArg};

/// The home of a call that this process makes.
pub fn home(caller: Pid, call: &Call) -> Home
    ensures { result ≡ home_of caller call.now }
{
    match call {
        Call::Exit { .. } | Call::Killed { .. } => Home::Parent,
        Call::Kill {
            sig: SigArg::Bad,
            ..
        } => Home::Own,
        Call::Kill { pid, .. } => home_of_process(caller, *pid),
        Call::MsgGet { key: Some(_), .. } | Call::SemGet { key: Some(_), .. } => Home::Keys,
        Call::MsgRmid { id } => Home::Removal(Name::Msg(*id)),
        Call::SemRmid { id } => Home::Removal(Name::Sem(*id)),
        Call::MsgSnd { id, .. }
        | Call::MsgRcv { id, .. }
        | Call::MsgStat { id }
        | Call::MsgSet { id, .. } => Home::At(Name::Msg(*id)),
        Call::SemOp { id, .. }
        | Call::SemGetVal { id, .. }
        | Call::SemGetPid { id, .. }
        | Call::SemGetNcnt { id, .. }
        | Call::SemGetZcnt { id, .. }
        | Call::SemSetVal { id, .. }
        | Call::SemGetAll { id }
        | Call::SemSetAll { id, .. } => Home::At(Name::Sem(*id)),
        Call::Withdraw { name } => home_of_withdrawal(caller, name),
        _ => Home::Own,
    }
}

/// The home of what concerns this process alone.
fn home_of_process(caller: Pid, pid: Pid) -> Home
    ensures { result ≡ home_of_process caller pid }
{
    if pid == caller {
        Home::Own
    } else {
        Home::At(Name::Proc(pid))
    }
}

/// The home of a withdrawal from this name.
fn home_of_withdrawal(caller: Pid, name: &Name) -> Home
    ensures { result ≡ home_of_withdrawal caller name.now }
{
    match name {
        Name::Proc(pid) => home_of_process(caller, *pid),
        Name::Msg(id) => Home::At(Name::Msg(*id)),
        Name::Sem(id) => Home::At(Name::Sem(*id)),
    }
}
