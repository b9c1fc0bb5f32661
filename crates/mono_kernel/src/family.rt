//! The living and the ended children of one process.
ghost use Rattle.std.specs.Prelude.{◌≡◌, ◌∷◌, ◌++◌, true, OnOk, OnErr, IfOk, nat_eq, ◌+◌, ◌≤◌, vec_len, vec_capacity};
ghost use Rattle.std.specs.List.{list_any};
ghost use Rattle.kernel_model.specs.Row.{no_family, with_child, lists, family_after_end, first_ended_child, without_ended, matches, others, wait};
ghost use Rattle.mono_kernel.specs.Waited.{waited_of};
ghost use Rattle.mono_kernel.specs.Ends.{other_ends};

use pico_base::{EndedChild, Ending, Memory, Pid};
use std::alloc::Global;
use std::marker::Model;

/// A process's children: the living ones in order of fork, and the ended ones with their endings in
/// order of end. There is always room for each living child among the ended ones, so that an end
/// takes no memory.
#[derive(Drop)]
pub(crate) struct ChildList {
    living: Vec<Pid>,
    ended: Vec<EndedChild>,
}

impl Model for ChildList {
    ghost use Rattle.std.specs.Prelude.{◌+◌, ◌≤◌};
    ghost use Rattle.std.specs.Vec.{vec_len, vec_capacity};
    ghost use Rattle.kernel_model.specs.Row.{Family};

    ghost Value = { Family };

    ghost view = { λ f. record { living = f.living.items; ended = f.ended.items } };

    ghost invariant = { λ f. vec_len f.living + vec_len f.ended ≤ vec_capacity f.ended };
}

/// What waitpid finds: an ended child, only living ones, or none.
#[derive(Clone, Copy)]
pub(crate) enum Waited {
    Found(EndedChild),
    NotYet,
    NoChild,
}

/// Whether a child is the one that is waited for.
fn is_waited_for(which: &Option<Pid>, child: Pid) -> bool
    ensures { result ≡ matches which.now child }
{
    match which {
        Some(which) => *which == child,
        None => true,
    }
}

/// Takes a child out of the living ones.
fn drop_living(living: &mut Vec<Pid>, child: Pid)
    ensures others { living.new.items ≡ others child living.old.items }
    ensures fewer { list_any (nat_eq child) living.old.items ≡ true → vec_len living.new + 1 ≤ vec_len living.old }
{
    living.retain(|c| child != *c);
}

/// Takes a child out of the ended ones.
fn drop_ended(ended: &mut Vec<EndedChild>, child: Pid)
    ensures others { ended.new.items ≡ other_ends child ended.old.items }
    ensures fewer { vec_len ended.new ≤ vec_len ended.old }
    ensures capacity { vec_capacity ended.new ≡ vec_capacity ended.old }
{
    ended.retain(|ended| child != ended.pid);
}

impl ChildList {
    /// No children. It takes no memory.
    pub(crate) fn new(alloc: Global) -> ChildList
        ensures { result ≡ no_family }
    {
        ChildList {
            living: Vec::new(alloc),
            ended: Vec::new(alloc),
        }
    }

    /// A new child. A refusal changes nothing.
    pub(crate) fn add(&mut self, child: Pid) -> Result<(), Memory>
        ensures ok { OnOk result (self.new ≡ with_child self.old child) }
        ensures err { OnErr result (self.new ≡ self.old) }
    {
        let living = self.living.len();
        self.ended.reserve(living + 1)?;
        self.living.push(child)?;
        Ok(())
    }

    /// Whether it is a living child.
    pub(crate) fn lists(&self, child: Pid) -> bool
        ensures { result ≡ lists self.now child }
    {
        self.living.iter().any(|c| child == *c)
    }

    /// A child has ended: it is kept, unless it is ignored.
    pub(crate) fn end(&mut self, child: Pid, ending: Ending, ignored: bool)
        requires { lists self.old child ≡ true }
        ensures { self.new ≡ family_after_end self.old child ending ignored }
    {
        drop_living(&mut self.living, child);
        if !ignored {
            let child = EndedChild { pid: child, ending };
            match self.ended.push(child) {
                Ok(()) => (),
                Err(_) => unreachable!(),
            }
        }
    }

    /// What waitpid finds.
    pub(crate) fn wait(&self, which: &Option<Pid>) -> Waited
        ensures { waited_of result ≡ wait self.now which.now }
    {
        match self.first_ended(which) {
            Some(child) => Waited::Found(child),
            None if self.awaits(which) => Waited::NotYet,
            None => Waited::NoChild,
        }
    }

    /// The first ended child that is waited for, with its ending.
    fn first_ended(&self, which: &Option<Pid>) -> Option<EndedChild>
        ensures { result ≡ first_ended_child which.now self.now.ended }
    {
        for child in &self.ended {
            if is_waited_for(which, child.pid) {
                return Some(*child);
            }
        }
        None
    }

    /// Whether a living child is waited for.
    fn awaits(&self, which: &Option<Pid>) -> bool
        ensures { result ≡ list_any (matches which.now) self.now.living }
    {
        self.living.iter().any(|child| is_waited_for(which, *child))
    }

    /// The ended child is gone.
    pub(crate) fn reap(&mut self, child: Pid)
        ensures { self.new ≡ without_ended child self.old }
    {
        drop_ended(&mut self.ended, child);
    }

    /// The ended children with their endings.
    pub(crate) fn all_ended(&self, alloc: Global) -> Result<Vec<EndedChild>, Memory>
        ensures { IfOk result (λ ended. ended.items ≡ self.now.ended) }
    {
        Ok(Vec::from_slice(alloc, self.ended.as_slice())?)
    }
}
