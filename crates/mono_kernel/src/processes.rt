//! All processes by number: who lives, has ended or is gone, and who lists whom.
ghost use Rattle.std.specs.Prelude.{◌≡◌, ◌<◌, vec_len, vec_capacity, ◌∷◌, ◌↔◌, ℕ, [], true, not, map, fold, OnOk, OnErr, IfOk, IsTrue, Some, None, IsSome, IsNone, IfSome, is_some, false, nat_eq};
ghost use Rattle.std.specs.Option.{option_copied, option_map};
ghost use Rattle.std.specs.List.{All};
ghost use Rattle.std.specs.Map.{keys_of};
ghost use Rattle.number_maps.specs.Maps.{get, put, used_with};
ghost use Rattle.number_maps.specs.Rising.{IsRising};
ghost use Rattle.kernel_model.specs.Row.{wait, lists};
ghost use Rattle.waiting_model.specs.Marks.{new_alive, after_reply};
ghost use Rattle.waiting_model.specs.Kernel.{Living, Ended, Gone, alive_in, living_in, parent_in, change_living};
ghost use Rattle.waiting_model.specs.ProcessCalls.{bury, bury_found, wakes_of_parent, process_after_end, end_under, found_after_end, parent_after_fork, parent_after_end, processes_after_fork, processes_after_wait};
ghost use Rattle.mono_kernel.specs.Process.{after_change};
ghost use Rattle.mono_kernel.specs.Waited.{waited_of};
ghost use Rattle.mono_kernel.specs.Table.{IfLiving, lists_there, ignores_there, parent_number, parent_at, table_after, IsThere, IsFoundIn, table_after_end, woken_pairs, woken_by_end, listed, with_answers};

use crate::family::Waited;
use crate::process::{Change, LiveProcess, ProcessCell};
use number_table::Table;
use pico_base::{EndedChild, Ending, Errno, Memory, Pid, Reply};
use std::alloc::Global;
use std::collections::BTreeMap;
use std::marker::Model;

/// The table of processes, each found by one look where numbers were given out in order. The parent
/// of each child is kept beside it, so that an end doesn't go through the table.
#[derive(Drop)]
pub(crate) struct Processes {
    cells: Table<ProcessCell>,
    parents: BTreeMap<Pid, Pid>,
}

impl Model for Processes {
    ghost use Rattle.std.specs.Prelude.{ℕ, List};
    ghost use Rattle.waiting_model.specs.Kernel.{Process};
    ghost use Rattle.mono_kernel.specs.Table.{IsTable};

    ghost Value = { List (ℕ × Process) };

    ghost view = { λ t. t.cells.entries };

    ghost invariant = { λ t. IsTable t.cells.entries t.parents.entries };
}

/// A change of the process that lives at a number.
#[inline(always)]
fn change_at(cells: &mut Table<ProcessCell>, pid: Pid, change: Change)
    requires { IsSome (living_in cells.old.entries pid) }
    ensures changed { IfLiving cells.old.entries pid
        (λ a. cells.new.entries ≡ put cells.old.entries pid (Living (after_change change a))) }
    ensures same_numbers { keys_of cells.new.entries ≡ keys_of cells.old.entries }
    ensures rising { IsRising cells.new.entries }
{
    cells.rise();
    if let Some(place) = cells.find(pid.0) {
        cells.value_mut(pid.0, place).change(change);
    }
}

/// A child of the process that lives at a number has ended. Gives what a waitpid finds in which that
/// waited.
fn end_child_at(cells: &mut Table<ProcessCell>, pid: Pid, child: Pid, ending: Ending) -> Waited
    requires lives { IsSome (living_in cells.old.entries pid) }
    requires listed { IfLiving cells.old.entries pid (λ a. lists a.row.family child ≡ true) }
    ensures found { IfLiving cells.old.entries pid (λ a. waited_of result ≡ found_after_end a child ending) }
    ensures changed { IfLiving cells.old.entries pid
        (λ a. cells.new.entries ≡ put cells.old.entries pid (Living (parent_after_end a child ending))) }
    ensures same_numbers { keys_of cells.new.entries ≡ keys_of cells.old.entries }
    ensures rising { IsRising cells.new.entries }
{
    cells.rise();
    match cells.find(pid.0) {
        Some(place) => cells.value_mut(pid.0, place).end_child(child, ending),
        None => Waited::NotYet,
    }
}

/// A process that is there lives no longer.
fn settle_at(cells: &mut Table<ProcessCell>, pid: Pid, cell: ProcessCell)
    requires { IsSome (get cells.old.entries pid) }
    ensures settled { cells.new.entries ≡ put cells.old.entries pid cell }
    ensures same_numbers { keys_of cells.new.entries ≡ keys_of cells.old.entries }
    ensures rising { IsRising cells.new.entries }
{
    cells.rise();
    *cells.entry_mut(pid.0) = cell;
}

/// A new child of the process that lives at a number. A refusal changes nothing.
fn add_child_at(cells: &mut Table<ProcessCell>, pid: Pid, child: Pid) -> Result<(), Memory>
    requires { IsSome (living_in cells.old.entries pid) }
    ensures ok { OnOk result
        (IfLiving cells.old.entries pid
        (λ a. cells.new.entries ≡ put cells.old.entries pid (Living (parent_after_fork a child)))) }
    ensures err { OnErr result (cells.new.entries ≡ cells.old.entries) }
    ensures same_numbers { keys_of cells.new.entries ≡ keys_of cells.old.entries }
    ensures rising { IsRising cells.new.entries }
{
    cells.rise();
    match cells.find(pid.0) {
        Some(place) => cells.value_mut(pid.0, place).add_child(child),
        None => Ok(()),
    }
}

/// A new process, which that of another number lists. A refusal changes nothing.
fn fork_at(
    cells: &mut Table<ProcessCell>,
    pid: Pid,
    child: Pid,
    cell: ProcessCell,
) -> Result<(), Memory>
    requires lives { IsSome (living_in cells.old.entries pid) }
    requires fresh { get cells.old.entries child ≡ None }
    ensures ok { OnOk result
        (IfLiving cells.old.entries pid
        (λ a. cells.new.entries ≡ put (put cells.old.entries child cell) pid (Living (parent_after_fork a child)))) }
    ensures numbers { OnOk result (keys_of cells.new.entries ≡ used_with (keys_of cells.old.entries) child) }
    ensures err { OnErr result (cells.new.entries ≡ cells.old.entries) }
    ensures rising { IsRising cells.new.entries }
{
    cells.rise();
    cells.insert(child.0, cell)?;
    if let Err(memory) = add_child_at(cells, pid, child) {
        let _ = cells.take(child.0);
        return Err(memory);
    }
    Ok(())
}

/// A process that has ended under a living parent.
fn cell_after_end(ignored: bool, ending: Ending) -> ProcessCell
    ensures { result ≡ process_after_end ignored ending }
{
    if ignored {
        ProcessCell::gone()
    } else {
        ProcessCell::ended(ending)
    }
}

/// Notes who is woken, if anybody is.
fn noted(mut woken: Vec<(Pid, Reply)>, pair: Option<(Pid, Reply)>) -> Vec<(Pid, Reply)>
    requires nobody { woken.items ≡ [] }
    requires room { vec_len woken < vec_capacity woken }
    ensures { result.items ≡ listed pair }
{
    match pair {
        Some(pair) => {
            woken.push_reserved(pair);
            woken
        }
        None => woken,
    }
}

/// A parent whose waitpid has its reply.
fn woken_parent(parent: Pid, found: &Waited) -> Option<(Pid, Reply)>
    ensures { listed result ≡ woken_pairs (wakes_of_parent parent (waited_of found.now)) }
{
    match found {
        Waited::Found(child) => Some((
            parent,
            Reply::Child {
                pid: child.pid,
                ending: child.ending,
            },
        )),
        Waited::NotYet => None,
        Waited::NoChild => Some((parent, Reply::Fail(Errno::Echild))),
    }
}

impl Processes {
    /// The table with process 1 alone, which lives.
    pub(crate) fn new(alloc: Global) -> Result<Processes, Memory>
        ensures { IfOk result (λ ps. ps ≡ (1, Living new_alive) ∷ []) }
    {
        let mut cells = Table::new(alloc);
        cells.insert(1, ProcessCell::living(LiveProcess::new(alloc)))?;
        cells.rise();
        Ok(Processes {
            cells,
            parents: BTreeMap::new(alloc),
        })
    }

    /// Whether there is or was a process of this number.
    pub(crate) fn is_there(&self, pid: Pid) -> bool
        ensures { result ≡ is_some (get self.now pid) }
    {
        self.cells.has(pid.0)
    }

    /// The process's place.
    pub(crate) fn cell(&self, pid: Pid) -> Option<&ProcessCell>
        ensures { option_copied result ≡ get self.now pid }
    {
        self.cells.get(pid.0)
    }

    /// The living process of a number.
    pub(crate) fn alive(&self, pid: Pid) -> Option<&LiveProcess>
        ensures { option_copied result ≡ living_in self.now pid }
    {
        match self.cells.get(pid.0) {
            Some(cell) => cell.alive(),
            None => None,
        }
    }

    /// Makes a change of a living process.
    #[inline(always)]
    pub(crate) fn change(&mut self, pid: Pid, change: Change)
        requires { IsSome (living_in self.old pid) }
        ensures changed { IfLiving self.old pid (λ a. self.new ≡ put self.old pid (Living (after_change change a))) }
        ensures same_numbers { keys_of self.new ≡ keys_of self.old }
    {
        change_at(&mut self.cells, pid, change);
    }

    /// Makes a change, if the process lives.
    #[inline(always)]
    pub(crate) fn change_there(&mut self, pid: Pid, change: Change)
        ensures changed { self.new ≡ change_living self.old pid (λ a. after_change change a) }
        ensures same_numbers { keys_of self.new ≡ keys_of self.old }
    {
        if self.is_living(pid) {
            self.change(pid, change);
        }
    }

    /// Whether the process lives.
    fn is_living(&self, pid: Pid) -> bool
        ensures lives { result ≡ is_some (living_in self.now pid) }
        ensures rising { IsRising self.now }
    {
        let _ = &self.cells;
        self.alive(pid).is_some()
    }

    /// Each of those who are woken has its reply, and doesn't wait any more.
    pub(crate) fn answer(&mut self, woken: &[(Pid, Reply)])
        ensures answered { self.new ≡ with_answers self.old woken.now }
        ensures same_numbers { keys_of self.new ≡ keys_of self.old }
    {
        for pair in woken {
            self.change_there(pair.0, Change::Answer);
        }
    }

    /// A child has ended: it is listed as ended, or forgotten. Gives what a waitpid finds in which the
    /// parent waited.
    fn end_child(&mut self, parent: Pid, child: Pid, ending: Ending) -> Waited
        requires lives { IsSome (living_in self.old parent) }
        requires listed { IfLiving self.old parent (λ a. lists a.row.family child ≡ true) }
        requires ended { living_in self.old child ≡ None }
        ensures found { IfLiving self.old parent (λ a. waited_of result ≡ found_after_end a child ending) }
        ensures there { IsFoundIn self.old parent (waited_of result) }
        ensures changed { IfLiving self.old parent
            (λ a. self.new ≡ put self.old parent (Living (parent_after_end a child ending))) }
        ensures same_numbers { keys_of self.new ≡ keys_of self.old }
    {
        end_child_at(&mut self.cells, parent, child, ending)
    }

    /// A process that is there lives no longer.
    fn settle(&mut self, pid: Pid, cell: ProcessCell)
        requires there { IsSome (get self.old pid) }
        requires dead { alive_in cell ≡ None }
        ensures settled { self.new ≡ put self.old pid cell }
        ensures same_numbers { keys_of self.new ≡ keys_of self.old }
    {
        settle_at(&mut self.cells, pid, cell);
    }

    /// Whether the process lives and lists the child.
    fn lists(&self, pid: Pid, child: Pid) -> bool
        ensures { result ≡ lists_there self.now pid child }
    {
        match self.alive(pid) {
            Some(alive) => alive.lists(child),
            None => false,
        }
    }

    /// The number of the process's parent.
    fn parent_of(&self, pid: Pid) -> Option<Pid>
        ensures number { result ≡ parent_number self.now pid }
        ensures parent { parent_in pid self.now ≡ parent_at self.now result }
        ensures lists { IfSome result (λ p. (lists_there self.now p pid ≡ true) × (nat_eq p pid ≡ false)) }
    {
        let Some(parent) = self.parents.get(&pid).copied() else {
            return None;
        };
        if self.lists(parent, pid) {
            Some(parent)
        } else {
            None
        }
    }

    /// Children that have ended are gone.
    fn bury(&mut self, children: &[EndedChild])
        requires { All (λ e. is_some (get self.old e.pid) ≡ true) children.now }
        ensures buried { self.new ≡ fold bury self.old children.now }
        ensures same_numbers { keys_of self.new ≡ keys_of self.old }
    {
        for child in children {
            self.settle(child.pid, ProcessCell::gone());
        }
    }

    /// A process leaves: its parent, if there is one, keeps its ending, unless it ignores its children.
    /// Where the parent waits for it, the parent is woken.
    fn leave(&mut self, pid: Pid, ending: Ending, parent: Option<Pid>) -> Option<(Pid, Reply)>
        requires there { IsSome (get self.old pid) }
        requires listed { IfSome parent (λ p. (lists_there self.old p pid ≡ true) × (nat_eq p pid ≡ false)) }
        ensures left { self.new ≡ end_under self.old pid ending (parent_at self.old parent) }
        ensures woken { listed result ≡ woken_by_end pid ending (parent_at self.old parent) }
        ensures same_numbers { keys_of self.new ≡ keys_of self.old }
    {
        let Some(parent) = parent else {
            self.settle(pid, ProcessCell::gone());
            return None;
        };
        let ignored = self.ignores_children(parent);
        self.settle(pid, cell_after_end(ignored, ending));
        let found = self.end_child(parent, pid, ending);
        self.bury_found(&found);
        woken_parent(parent, &found)
    }

    /// The child that was found is gone.
    fn bury_found(&mut self, found: &Waited)
        requires { IsThere self.old (waited_of found.now) }
        ensures buried { self.new ≡ bury_found self.old (waited_of found.now) }
        ensures same_numbers { keys_of self.new ≡ keys_of self.old }
    {
        if let Waited::Found(child) = found {
            self.settle(child.pid, ProcessCell::gone());
        }
    }

    /// Whether the process ignores its ended children. One that doesn't live does.
    fn ignores_children(&self, pid: Pid) -> bool
        ensures { result ≡ ignores_there self.now pid }
    {
        match self.alive(pid) {
            Some(alive) => alive.ignores_children(),
            None => true,
        }
    }

    /// The ended children of the process that lives at a number.
    fn ended_children(&self, alloc: Global, pid: Pid) -> Result<Vec<EndedChild>, Memory>
        requires { IsSome (living_in self.now pid) }
        ensures children { IfOk result (λ children. IfLiving self.now pid (λ a. children.items ≡ a.row.family.ended)) }
        ensures ended { IfOk result
            (λ children. All (λ e. (is_some (get self.now e.pid) ≡ true)
            × (living_in self.now e.pid ≡ None)) children.items) }
    {
        let _ = &self.cells;
        match self.alive(pid) {
            Some(alive) => alive.all_ended(alloc),
            None => Ok(Vec::new(alloc)),
        }
    }

    /// The end of a process (exit). Gives the parent, if it waited and is woken.
    pub(crate) fn end(
        &mut self,
        alloc: Global,
        pid: Pid,
        ending: Ending,
    ) -> Result<Vec<(Pid, Reply)>, Memory>
        requires { IsSome (living_in self.old pid) }
        ensures ended { OnOk result (IfLiving self.old pid (λ a. self.new ≡ table_after_end self.old pid a ending)) }
        ensures woken { IfOk result (λ w. w.items ≡ woken_by_end pid ending (parent_in pid self.old)) }
        ensures err { OnErr result (self.new ≡ self.old) }
        ensures same_numbers { keys_of self.new ≡ keys_of self.old }
    {
        let children = self.ended_children(alloc, pid)?;
        let woken = Vec::with_capacity(alloc, 1)?;
        let parent = self.parent_of(pid);
        self.bury(children.as_slice());
        let pair = self.leave(pid, ending, parent);
        Ok(noted(woken, pair))
    }

    /// What waitpid finds.
    fn find(&self, pid: Pid, which: &Option<Pid>) -> Waited
        requires { IsSome (living_in self.now pid) }
        ensures found { IfLiving self.now pid (λ a. waited_of result ≡ wait a.row.family which.now) }
        ensures there { IsThere self.now (waited_of result) }
    {
        let _ = &self.cells;
        match self.alive(pid) {
            Some(alive) => alive.wait(which),
            None => Waited::NotYet,
        }
    }

    /// The ended child is gone.
    fn reap(&mut self, pid: Pid, child: Pid)
        requires lives { IsSome (living_in self.old pid) }
        requires there { IsSome (get self.old child) }
        ensures reaped { IfLiving self.old pid (λ a. self.new ≡ processes_after_wait self.old pid a child) }
        ensures same_numbers { keys_of self.new ≡ keys_of self.old }
    {
        self.change(pid, Change::Reap { child });
        self.settle(child, ProcessCell::gone());
    }

    /// waitpid without waiting: an ended child, which is gone then, none yet, or no child.
    pub(crate) fn wait(&mut self, pid: Pid, which: &Option<Pid>) -> Waited
        requires { IsSome (living_in self.old pid) }
        ensures found { IfLiving self.old pid (λ a. waited_of result ≡ wait a.row.family which.now) }
        ensures table { IfLiving self.old pid (λ a. self.new ≡ table_after self.old pid a (waited_of result)) }
        ensures same_numbers { keys_of self.new ≡ keys_of self.old }
    {
        let found = self.find(pid, which);
        self.reap_found(pid, &found);
        found
    }

    /// The ended child that was found is gone.
    fn reap_found(&mut self, pid: Pid, found: &Waited)
        requires lives { IsSome (living_in self.old pid) }
        requires there { IsThere self.old (waited_of found.now) }
        ensures table { IfLiving self.old pid (λ a. self.new ≡ table_after self.old pid a (waited_of found.now)) }
        ensures same_numbers { keys_of self.new ≡ keys_of self.old }
    {
        if let Waited::Found(child) = found {
            self.reap(pid, child.pid);
        }
    }

    /// fork: a new process, which the caller lists. A refusal changes nothing.
    pub(crate) fn fork(&mut self, alloc: Global, pid: Pid, child: Pid) -> Result<(), Memory>
        requires lives { IsSome (living_in self.old pid) }
        requires fresh { get self.old child ≡ None }
        ensures forked { OnOk result
            (IfLiving self.old pid (λ a. self.new ≡ processes_after_fork self.old pid a child)) }
        ensures numbers { OnOk result (keys_of self.new ≡ used_with (keys_of self.old) child) }
        ensures err { OnErr result (self.new ≡ self.old) }
    {
        let Some(parent) = self.alive(pid) else {
            return Ok(());
        };
        let cell = ProcessCell::living(parent.new_child(alloc));
        self.parents.insert(child, pid)?;
        fork_at(&mut self.cells, pid, child, cell)?;
        Ok(())
    }
}
