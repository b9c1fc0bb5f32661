//! The two lists of a family, and the bytes that they travel as.
ghost use Rattle.std.specs.Prelude.{◌≡◌, ◌<◌, ◌≤◌, IfErr, IfOk, IsTrue, MatchOption, OnOk, false, length, map, nat_eq, not};
ghost use Rattle.std.specs.List.{filter, list_any};
ghost use Rattle.std.specs.Vec.{vec_capacity};
ghost use Rattle.body_fields.specs.Fields.{Refuses};
ghost use Rattle.fork_wait.specs.Spelling.{HasBytes, family_bytes};
ghost use Rattle.kernel_model.specs.Row.{Family as Members, first_ended_child, lists, matches, no_family, others, wait, with_child, family_after_end};
ghost use Rattle.fork_wait.specs.Children.{children, is_child, members_of};
ghost use Rattle.fork_wait.specs.Waiting.{answer_of, family_after};

use crate::checking::{are_children, has};
use crate::ended::Ended;
use crate::reading::{EndedList, LivingList, lists_of};
use crate::writing::{write_ended, write_numbers};
use pico_base::{Bytes, Ending, Errno, Memory, Pid, UnpackFault};
use std::alloc::{AllocError, Global};
use std::marker::Model;

/// How many children a process can have: each other picoprocess is forked once.
pub(crate) const MOST: usize = 31;

/// What `wait` found.
#[derive(Clone, Copy, Debug, PartialEq, Eq)]
pub enum Waited {
    /// A child that has ended, and is no longer one of the children.
    Child { pid: Pid, ending: Ending },
    /// Only living children match.
    NotYet,
}

/// The living children of a process in order of fork, and its ended ones with their endings in order of
/// end. Their numbers are at least 1, all different, and together at most 31.
#[derive(Debug, Drop)]
pub struct Family {
    living: Vec<Pid>,
    ended: Vec<Ended>,
}

impl Model for Family {
    ghost use Rattle.std.specs.Prelude.{◌≤◌};
    ghost use Rattle.std.specs.Vec.{vec_capacity};
    ghost use Rattle.kernel_model.specs.Row.{Family as Members};
    ghost use Rattle.fork_wait.specs.Children.{children};
    ghost use Rattle.fork_wait.specs.Held.{HasRoom};

    ghost Value = { Members };

    ghost view = { λ f. record { living = f.living.items; ended = f.ended.items } };

    ghost invariant = { λ f.
        HasRoom (record { living = f.living.items; ended = f.ended.items }) (vec_capacity f.living)
        (vec_capacity f.ended) };
}

impl Family {
    /// No children, with room for 31 living and 31 ended ones.
    pub fn new(alloc: Global) -> Result<Family, Memory>
        ensures { IfOk result (λ family. family ≡ no_family) }
    {
        Ok(Family {
            living: Vec::with_capacity(alloc, MOST)?,
            ended: Vec::with_capacity(alloc, MOST)?,
        })
    }

    /// Adds a new living child (`fork`).
    pub fn add(&mut self, child: Pid)
        requires positive { 1 ≤ child }
        requires room { length (children self.old) < 31 }
        requires absent { is_child self.old child ≡ false }
        ensures { self.new ≡ with_child self.old child }
    {
        self.living.push(child).unwrap();
    }

    /// A living child has ended (`exit`). Its ending is kept for `wait`, and the answer is true, unless
    /// the parent ignores CHLD.
    pub fn child_ended(&mut self, child: Pid, ending: Ending, ignored: bool) -> bool
        requires { IsTrue (lists self.old child) }
        ensures kept { result ≡ not ignored }
        ensures ended { self.new ≡ family_after_end self.old child ending ignored }
    {
        take_out(&mut self.living, child);
        if !ignored {
            self.ended.push(Ended { pid: child, ending }).unwrap();
        }
        !ignored
    }

    /// Whether this is a living child.
    pub fn lists(&self, child: Pid) -> bool
        ensures { result ≡ lists self.now child }
    {
        self.living.iter().any(|pid| *pid == child)
    }

    /// Whether this is a child, living or ended.
    pub fn is_child(&self, child: Pid) -> bool
        ensures { result ≡ is_child self.now child }
    {
        has(self.living.as_slice(), self.ended.as_slice(), child)
    }

    /// How many children there are, living and ended: at most 31.
    pub fn count(&self) -> usize
        ensures { result ≡ length (children self.now) }
    {
        self.living.len() + self.ended.len()
    }

    /// The numbers of the ended children, in order of end.
    pub fn ended(&self, alloc: Global) -> Result<Vec<Pid>, Memory>
        ensures { IfOk result (λ pids. pids.items ≡ map (λ e. e.pid) self.now.ended) }
    {
        let mut pids = Vec::with_capacity(alloc, self.ended.len())?;
        for child in &self.ended {
            pids.push(child.pid)?;
        }
        Ok(pids)
    }

    /// Waits for one child, or for any (`waitpid`): the first ended child that matches is taken out. That
    /// it is the one that ended first is the profile's own.
    ///
    /// ECHILD where no child matches, and then nothing has changed, as where only living ones match.
    pub fn wait(&mut self, which: Option<Pid>) -> Result<Waited, Errno>
        ensures answer { result ≡ answer_of (wait self.old which) }
        ensures left { self.new ≡ family_after (wait self.old which) self.old }
    {
        match first_ended(&which, &self.ended) {
            Some(Ended { pid, ending }) => {
                forget(&mut self.ended, pid);
                Ok(Waited::Child { pid, ending })
            }
            None if any_matches(&which, &self.living) => Ok(Waited::NotYet),
            None => Err(Errno::Echild),
        }
    }

    /// The family as bytes: how many living children there are, in one byte, and the number of each in
    /// four, high bytes first, and then the same of the ended ones, each number with its ending behind it.
    /// An ending is 0 and the status, or 1 and the signal's number.
    #[tactic(auto, unfolding(crate::specs::Spelling::family_bytes))]
    pub fn pack(&self, alloc: Global) -> Result<Bytes, Memory>
        ensures bytes { IfOk result (λ bytes. bytes ≡ family_bytes self.now) }
        ensures state { OnOk result (HasBytes self.now) }
    {
        let mut bytes = Vec::new(alloc);
        bytes.push(self.living.len() as u8)?;
        write_numbers(&mut bytes, &self.living)?;
        bytes.push(self.ended.len() as u8)?;
        write_ended(&mut bytes, &self.ended)?;
        Ok(Bytes::from_vec(bytes))
    }

    /// The family of these bytes, with room for 31 living and 31 ended children.
    ///
    /// NotABody exactly where no family has them: they end too soon or go on, an ending isn't one, a number is
    /// 0 or there twice, or there are more than 31. So Memory comes only where a family has them.
    pub fn unpack(alloc: Global, bytes: &[u8]) -> Result<Family, UnpackFault>
        ensures found { IfOk result (λ family. (bytes.now ≡ family_bytes family) × HasBytes family) }
        ensures only { (f : Members) → bytes.now ≡ family_bytes f → HasBytes f → IfOk result (λ family. family ≡ f) }
        ensures refused { IfErr result (Refuses (λ f. (bytes.now ≡ family_bytes f) × HasBytes f)) }
    {
        let (living, ended) = family_lists(bytes).ok_or(UnpackFault::NotABody)?;
        Ok(Family {
            living: with_room(alloc, living.as_slice())?,
            ended: with_room(alloc, ended.as_slice())?,
        })
    }
}

/// The lists in these bytes, if they are those of a process.
fn family_lists(bytes: &[u8]) -> Option<(LivingList, EndedList)>
    ensures { MatchOption result ((f : Members) → bytes.now ≡ family_bytes f → HasBytes f → ⊥)
        (λ x. let f = members_of x.0.items x.1.items in (bytes.now ≡ family_bytes f) × HasBytes f) }
{
    let (living, ended) = lists_of(bytes)?;
    if !are_children(living.as_slice(), ended.as_slice()) {
        return None;
    }
    Some((living, ended))
}

/// A list of these items with room for 31.
fn with_room<T: Copy>(alloc: Global, items: &[T]) -> Result<Vec<T>, AllocError>
    ensures items { IfOk result (λ list. list.items ≡ items.now) }
    ensures room { IfOk result (λ list. 31 ≤ vec_capacity list) }
{
    let mut list = Vec::with_capacity(alloc, MOST)?;
    list.extend_from_slice(items)?;
    Ok(list)
}

/// Whether the child is the one that is waited for.
fn matches(which: &Option<Pid>, child: Pid) -> bool
    ensures { result ≡ matches which.now child }
{
    match which {
        None => true,
        Some(pid) => *pid == child,
    }
}

/// Whether some living child is waited for.
fn any_matches(which: &Option<Pid>, living: &[Pid]) -> bool
    ensures { result ≡ list_any (matches which.now) living.now }
{
    living.iter().any(|pid| matches(which, *pid))
}

/// The first ended child that is waited for.
fn first_ended(which: &Option<Pid>, ended: &[Ended]) -> Option<Ended>
    ensures { result ≡ first_ended_child which.now ended.now }
{
    for child in ended {
        if matches(which, child.pid) {
            return Some(*child);
        }
    }
    None
}

/// Takes a child out of the living ones.
fn take_out(living: &mut Vec<Pid>, child: Pid)
    ensures out { living.new.items ≡ others child living.old.items }
    ensures room { vec_capacity living.new ≡ vec_capacity living.old }
{
    living.retain(|pid| child != *pid);
}

/// Takes a child out of the ended ones.
fn forget(ended: &mut Vec<Ended>, child: Pid)
    ensures out { ended.new.items ≡ filter (λ e. not (nat_eq child e.pid)) ended.old.items }
    ensures room { vec_capacity ended.new ≡ vec_capacity ended.old }
{
    ended.retain(|e| child != e.pid);
}
