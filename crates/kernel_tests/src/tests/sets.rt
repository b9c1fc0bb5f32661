//! Semaphore sets at which callers wait.
use super::{Row, fork, make, told};
use mono_kernel::Kernel;
use pico_base::{Call, Id, SemStep, Steps};
use std::alloc::Global;
use std::test::Fail;

/// An operation that may wait.
fn step(num: u16, add: i32) -> SemStep {
    SemStep {
        num,
        add,
        nowait: false,
    }
}

/// A process makes these operations on set 1.
fn operate(
    alloc: Global,
    kernel: &mut Kernel,
    said: &mut String,
    pid: u32,
    steps: &[SemStep],
) -> Result<(), Fail> {
    let call = Call::SemOp {
        id: Id(1),
        steps: Steps::from_vec(Vec::from_slice(alloc, steps)?),
    };
    make(alloc, kernel, said, pid, &call)
}

/// Process 1 asks how many wait for a higher value of each semaphore.
fn count(alloc: Global, kernel: &mut Kernel, said: &mut String) -> Result<(), Fail> {
    let id = Id(1);
    make(alloc, kernel, said, 1, &Call::SemGetNcnt { id, num: 0 })?;
    make(alloc, kernel, said, 1, &Call::SemGetNcnt { id, num: 1 })
}

/// Process 1 sets the first semaphore to 1.
fn raise(alloc: Global, kernel: &mut Kernel, said: &mut String) -> Result<(), Fail> {
    let call = Call::SemSetVal {
        id: Id(1),
        num: 0,
        value: 1,
    };
    make(alloc, kernel, said, 1, &call)
}

/// One who waits is counted where its trial stops, and woken by a removal.
pub(super) fn count_and_remove(
    alloc: Global,
    kernel: &mut Kernel,
    said: &mut String,
) -> Result<(), Fail> {
    operate(alloc, kernel, said, 2, &[step(0, -1), step(1, -1)])?;
    count(alloc, kernel, said)?;
    raise(alloc, kernel, said)?;
    count(alloc, kernel, said)?;
    make(alloc, kernel, said, 1, &Call::SemRmid { id: Id(1) })?;
    operate(alloc, kernel, said, 2, &[step(0, 1)])
}

#[test]
fn who_waits_is_counted_where_it_stops(rt: HostRuntime) -> Result<(), Fail> {
    let alloc = rt.alloc();
    let said = told(alloc, Row::CountAndRemove)?;
    assert_eq!(rt;
        said.as_str(),
        "parked\n1\n0\n0\n0\n1\n0 wakes 2 Eidrm\nEinval\n"
    );
    Ok(())
}

/// The second of three who wait wants more than there is.
pub(super) fn pass_over_one(
    alloc: Global,
    kernel: &mut Kernel,
    said: &mut String,
) -> Result<(), Fail> {
    fork(alloc, kernel, said, 4)?;
    operate(alloc, kernel, said, 2, &[step(0, -1)])?;
    operate(alloc, kernel, said, 3, &[step(0, -5)])?;
    operate(alloc, kernel, said, 4, &[step(0, -1)])?;
    operate(alloc, kernel, said, 1, &[step(0, 2)])?;
    count(alloc, kernel, said)
}

#[test]
fn the_third_goes_on_and_not_the_second(rt: HostRuntime) -> Result<(), Fail> {
    let alloc = rt.alloc();
    let said = told(alloc, Row::PassOverOne)?;
    assert_eq!(rt;
        said.as_str(),
        "4\nparked\nparked\nparked\n0 wakes 2 0 wakes 4 0\n1\n0\n"
    );
    Ok(())
}

/// Once the first operation can go on, the trial stops at one that mayn't wait.
pub(super) fn stop_at_nowait(
    alloc: Global,
    kernel: &mut Kernel,
    said: &mut String,
) -> Result<(), Fail> {
    let second = SemStep {
        num: 1,
        add: -1,
        nowait: true,
    };
    operate(alloc, kernel, said, 2, &[step(0, -1), second])?;
    raise(alloc, kernel, said)?;
    make(alloc, kernel, said, 1, &Call::SemGetAll { id: Id(1) })
}

#[test]
fn a_woken_operation_is_refused_at_nowait(rt: HostRuntime) -> Result<(), Fail> {
    let alloc = rt.alloc();
    let said = told(alloc, Row::StopAtNowait)?;
    assert_eq!(rt;
        said.as_str(),
        "parked\n0 wakes 2 Eagain\nAll(Sequence { items: [1, 0] })\n"
    );
    Ok(())
}
