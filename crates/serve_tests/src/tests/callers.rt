//! Lines that are tried again, and the variables of a child.
ghost use Rattle.kernel_model.specs.Script.{IsSoundScript};

use node_calls::Caller;
use pico_base::{Call, Ending, Errno, Node, Pid, Reply, Script, Sequence, Sig, SigArg, Var};
use script_reader::read_script;
use std::mem::ManuallyDrop;
use std::test::Fail;

// `c`
const C: Var = Var(222);

const SCRIPT: &[u8] =
    b"proc main\nc = fork child\ntry 3 waitpid $c nohang\nkill $c 0\nend\nproc child\nend\n";

/// The calls of the first process, one after the other: the wait is made twice.
fn due_of(ticket: u32) -> Call {
    match ticket {
        1 => Call::Fork { block: Node(2) },
        2 | 3 => Call::WaitPid {
            child: Some(Pid(2)),
            nohang: true,
        },
        4 => Call::Kill {
            pid: Pid(2),
            sig: SigArg::Zero,
        },
        _ => Call::Exit { status: 0 },
    }
}

/// Their replies.
fn reply_of(ticket: u32) -> Reply {
    match ticket {
        1 => Reply::Num(2),
        2 => Reply::Num(0),
        3 => Reply::Child {
            pid: Pid(2),
            ending: Ending::Exited(44),
        },
        4 => Reply::Fail(Errno::Esrch),
        _ => Reply::Ended,
    }
}

/// Whether the call of this ticket is due, and has it. It is answered.
fn makes(caller: &mut Caller, script: &Script, ticket: u32) -> Result<bool, Fail>
    requires { IsSoundScript script.now }
{
    if !caller.has_line(script) || caller.under_way().is_some() {
        return Ok(false);
    }
    // What is only compared is never taken apart: to own a value of so many kinds is dear at each step.
    let due = ManuallyDrop::new(due_of(ticket));
    let reply = ManuallyDrop::new(reply_of(ticket));
    let call = caller.due(script, None)?;
    let is_due = call == *due;
    let its = caller.start(call);
    let is_under_way = caller.under_way() == Some(&*due);
    caller.answered(script, &reply)?;
    Ok(is_due && is_under_way && its == ticket)
}

/// Whether its first call is due, or its end where a signal dooms it.
fn is_doomed_by_term(caller: &Caller, script: &Script) -> Result<bool, Fail>
    requires { IsSoundScript script.now }
{
    if !caller.has_line(script) || caller.under_way().is_some() {
        return Ok(false);
    }
    Ok(caller.due(script, Some(Sig::Term))? == Call::Killed { sig: Sig::Term })
}

#[test]
fn goes_through_its_block(rt: HostRuntime) -> Result<(), Fail> {
    let script = read_script(rt.alloc(), SCRIPT)?;
    // It is never taken apart, so that its owner is cheaper to prove.
    let mut caller = ManuallyDrop::new(Caller::new(rt.alloc(), Node(1), Sequence::new(rt.alloc())));
    assert!(rt; is_doomed_by_term(&caller, &script)?);
    for ticket in 1..6 {
        assert!(rt; makes(&mut caller, &script, ticket)?, "{ticket}");
    }
    assert!(rt; !caller.has_line(&script));
    Ok(())
}

/// A child begins with the variable that its number goes to, which is 0 there.
#[test]
fn a_child_has_its_variables(rt: HostRuntime) -> Result<(), Fail> {
    let script = read_script(rt.alloc(), SCRIPT)?;
    let caller = ManuallyDrop::new(Caller::new(rt.alloc(), Node(1), Sequence::new(rt.alloc())));
    assert!(rt; caller.has_line(&script));
    assert!(rt; caller.child_vars(&script)?.as_slice() == [(C, 0)].as_slice());
    Ok(())
}
