//! The call that a line makes.

ghost use Rattle.std.specs.Prelude.{◌≡◌, IfOk};
ghost use Rattle.kernel_model.specs.Script.{value_of, with_target, call_of};

use pico_base::{Call, Id, Line, Memory, Pid, Var, Vars};
use std::alloc::Global;

/// The value of a variable, 0 where nothing has set it.
fn value(vars: &[(Var, u32)], variable: Var) -> u32
    ensures { result ≡ value_of vars.now variable }
{
    for (name, value) in vars {
        if *name == variable {
            return *value;
        }
    }
    0
}

/// A call with this number for the process or the object that it names, where it names one.
pub fn call_naming(alloc: Global, call: &Call, number: u32) -> Result<Call, Memory>
    ensures { IfOk result (λ made. made ≡ with_target call.now number) }
{
    let id = Id(number);
    match call {
        Call::Kill { pid: _, sig } => Ok(Call::Kill {
            pid: Pid(number),
            sig: *sig,
        }),
        Call::WaitPid { child: _, nohang } => Ok(Call::WaitPid {
            child: Some(Pid(number)),
            nohang: *nohang,
        }),
        Call::MsgSnd {
            id: _,
            class,
            text,
            nowait,
        } => Ok(Call::MsgSnd {
            id,
            class: *class,
            text: text.try_copy(alloc)?,
            nowait: *nowait,
        }),
        Call::MsgRcv {
            id: _,
            class,
            size,
            noerror,
            nowait,
        } => Ok(Call::MsgRcv {
            id,
            class: *class,
            size: *size,
            noerror: *noerror,
            nowait: *nowait,
        }),
        Call::MsgStat { id: _ } => Ok(Call::MsgStat { id }),
        Call::MsgSet { id: _, qbytes } => Ok(Call::MsgSet {
            id,
            qbytes: *qbytes,
        }),
        Call::MsgRmid { id: _ } => Ok(Call::MsgRmid { id }),
        Call::SemOp { id: _, steps } => Ok(Call::SemOp {
            id,
            steps: steps.try_copy(alloc)?,
        }),
        Call::SemGetVal { id: _, num } => Ok(Call::SemGetVal { id, num: *num }),
        Call::SemGetPid { id: _, num } => Ok(Call::SemGetPid { id, num: *num }),
        Call::SemGetNcnt { id: _, num } => Ok(Call::SemGetNcnt { id, num: *num }),
        Call::SemGetZcnt { id: _, num } => Ok(Call::SemGetZcnt { id, num: *num }),
        Call::SemSetVal { id: _, num, value } => Ok(Call::SemSetVal {
            id,
            num: *num,
            value: *value,
        }),
        Call::SemGetAll { id: _ } => Ok(Call::SemGetAll { id }),
        Call::SemSetAll { id: _, values } => Ok(Call::SemSetAll {
            id,
            values: values.try_copy(alloc)?,
        }),
        Call::SemRmid { id: _ } => Ok(Call::SemRmid { id }),
        unnamed => unnamed.try_copy(alloc),
    }
}

/// The call of a line. Where the line names a variable, its value, 0 for one that isn't set, stands in place of
/// the call's process number or identifier. The variables come by rising index.
pub fn call_with(alloc: Global, line: &Line, vars: &Vars) -> Result<Call, Memory>
    ensures { IfOk result (λ call. call ≡ call_of line.now vars.now) }
{
    match line.from {
        None => line.call.try_copy(alloc),
        Some(variable) => call_naming(alloc, &line.call, value(vars.as_slice(), variable)),
    }
}
