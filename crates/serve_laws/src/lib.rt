//! The laws of serving: what is carried out on the bodies of deeds is what the kernel does. No call runs here.
#![tactic(auto)]

ghost use Rattle.serve_laws.specs.Laws.{ServedCallsAreTheKernels};
ghost use Rattle.serve_laws.specs.Ends.{EndsAreTheKernels, EndsWakeInLine};
ghost use Rattle.serve_laws.specs.Served.{BodiesCarryNoMarks, ServedIsOnWhole, ServingIsInLine};

/// A call that is served at once on the kernel's part for its name leaves there what the kernel's transition leaves,
/// and has its reply, in any kernel that has a transition for it. The child that a `waitpid` found is gone, and each
/// other name has the part that it had. What a process may still do, which no deed carries, follows from its doom and
/// from who made the entry.
pub fn served_calls_are_the_kernels()
    ensures { ServedCallsAreTheKernels }
{}

/// The end of a process that is carried out where its parent's deed is held, with the parcel of its deeds, is the
/// kernel's, on any valid kernel that agrees with those deeds and the parcel on the process, its ended children, whose
/// child it is and the parent. The outcome is the transition's, and so is what becomes of these. Each other name has
/// the part and the deed that it had; what the parcel has besides is gone.
pub fn ends_are_the_kernels()
    ensures { EndsAreTheKernels }
{}

/// An end that gives the parent's `waitpid` its reply is the end as nobody waited, and then that `waitpid` as it is
/// made at once. One that doesn't wake the parent is as if that didn't wait.
pub fn ends_wake_in_line()
    ensures { EndsWakeInLine }
{}

/// The two definitions of a served call are one: what a kernel that has the name alone makes of it, and what the call
/// does on the name's body, where its caller may have to wait and others may be woken.
pub fn served_is_on_whole()
    ensures { ServedIsOnWhole }
{}

/// A call that is served on a body where callers wait is so many calls at once in turn: its own, if it needn't wait,
/// and then those of the woken, each with the reply that it has. What is left is left by these where nobody waits.
pub fn serving_is_in_line()
    ensures { ServingIsInLine }
{}

/// The body of a deed carries no marks: kernels that differ in what a process may still do, in the call with which it
/// waits, or in whether a signal struck it, have the same body at each name.
pub fn bodies_carry_no_marks()
    ensures { BodiesCarryNoMarks }
{}
