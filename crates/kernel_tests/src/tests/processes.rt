//! Parents that wait for children, and processes that withdraw.
use super::{Row, catch, make, receive, told};
use mono_kernel::Kernel;
use pico_base::{Call, Id, Name, Pid, Sig, SigArg};
use std::alloc::Global;
use std::test::Fail;

/// A process withdraws from queue 1.
fn withdraw(alloc: Global, kernel: &mut Kernel, said: &mut String, pid: u32) -> Result<(), Fail> {
    let name = Name::Msg(Id(1));
    make(alloc, kernel, said, pid, &Call::Withdraw { name })
}

/// Process 1 waits for this child.
fn wait(alloc: Global, kernel: &mut Kernel, said: &mut String, child: u32) -> Result<(), Fail> {
    let call = Call::WaitPid {
        child: Some(Pid(child)),
        nohang: false,
    };
    make(alloc, kernel, said, 1, &call)
}

/// Tells how a process stands.
fn stand(alloc: Global, kernel: &Kernel, said: &mut String, pid: u32) -> Result<(), Fail> {
    let line = format!(in alloc; "{:?}\n", kernel.standing(Pid(pid)))?;
    said.push_str(line.as_str())?;
    Ok(())
}

/// A parent that catches CHLD is woken by the end of the child that it waits for, and then struck.
pub(super) fn wake_and_strike(
    alloc: Global,
    kernel: &mut Kernel,
    said: &mut String,
) -> Result<(), Fail> {
    make(alloc, kernel, said, 1, &catch(Sig::Chld))?;
    wait(alloc, kernel, said, 2)?;
    make(alloc, kernel, said, 2, &Call::Exit { status: 7 })?;
    stand(alloc, kernel, said, 2)?;
    make(alloc, kernel, said, 1, &receive(0, 8))?;
    withdraw(alloc, kernel, said, 1)?;
    make(alloc, kernel, said, 1, &Call::Handled { sig: Sig::Chld })
}

#[test]
fn a_parent_is_woken_and_struck_behind_it(rt: HostRuntime) -> Result<(), Fail> {
    let alloc = rt.alloc();
    let said = told(alloc, Row::WakeAndStrike)?;
    assert_eq!(rt;
        said.as_str(),
        "0\nparked\nEnded wakes 1 Child { pid: Pid(2), ending: Exited(7) }\nGone\nparked\nEintr\n1\n"
    );
    Ok(())
}

/// A parent waits for one child while the other one ends.
pub(super) fn end_another(
    alloc: Global,
    kernel: &mut Kernel,
    said: &mut String,
) -> Result<(), Fail> {
    wait(alloc, kernel, said, 3)?;
    make(alloc, kernel, said, 2, &Call::Exit { status: 0 })?;
    stand(alloc, kernel, said, 2)?;
    stand(alloc, kernel, said, 1)
}

#[test]
fn another_child_is_kept_for_its_parent(rt: HostRuntime) -> Result<(), Fail> {
    let alloc = rt.alloc();
    let said = told(alloc, Row::EndAnother)?;
    assert_eq!(rt;
        said.as_str(),
        "parked\nEnded\nEnded\nParked { doom: None }\n"
    );
    Ok(())
}

/// A signal strikes a process that waits, which may then withdraw, and the queue has nobody who waits.
pub(super) fn strike(alloc: Global, kernel: &mut Kernel, said: &mut String) -> Result<(), Fail> {
    make(alloc, kernel, said, 2, &catch(Sig::Usr1))?;
    make(alloc, kernel, said, 2, &receive(0, 8))?;
    withdraw(alloc, kernel, said, 2)?;
    let kill = Call::Kill {
        pid: Pid(2),
        sig: SigArg::Is(Sig::Usr1),
    };
    make(alloc, kernel, said, 1, &kill)?;
    withdraw(alloc, kernel, said, 2)?;
    make(alloc, kernel, said, 1, &Call::MsgRmid { id: Id(1) })
}

#[test]
fn a_struck_process_withdraws(rt: HostRuntime) -> Result<(), Fail> {
    let alloc = rt.alloc();
    let said = told(alloc, Row::Strike)?;
    assert_eq!(rt; said.as_str(), "0\nparked\nnone\n0\nEintr\n0\n");
    Ok(())
}
