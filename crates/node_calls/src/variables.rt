//! The variables of a process.
ghost use Rattle.std.specs.Prelude.{◌≡◌, IfOk, IfErr, OnOk, OnErr, IsTrue};
ghost use Rattle.number_maps.specs.Maps.{put};
ghost use Rattle.kernel_model.specs.Script.{call_of, value_of};
ghost use Rattle.kernel_model.specs.Fitting.{set_variable};
ghost use Rattle.node_calls.specs.Caller.{are_rising};
ghost use Rattle.node_calls.specs.Place.{IsAt, IsGapFor};

use pico_base::{Call, Line, Memory, Var, Vars};
use script_lines::call_naming;
use std::alloc::Global;
use std::marker::Model;

/// The values of the variables that were set, by rising variable.
#[derive(Debug, Drop)]
pub(crate) struct Variables {
    values: Vec<(Var, u32)>,
}

impl Model for Variables {
    ghost use Rattle.std.specs.Prelude.{IsTrue};
    ghost use Rattle.kernel_model.specs.Script.{Vars as VarsValue};
    ghost use Rattle.node_calls.specs.Caller.{are_rising};

    ghost Value = { VarsValue };

    ghost view = { λ v. v.values.items };

    ghost invariant = { λ v. IsTrue (are_rising v.values.items) };
}

/// Where a variable is among the values, or where it would go.
fn search(values: &[(Var, u32)], variable: Var) -> Result<usize, usize>
    requires { IsTrue (are_rising values.now) }
    ensures found { IfOk result (IsAt values.now variable) }
    ensures absent { IfErr result (IsGapFor values.now variable) }
{
    let mut low = 0;
    let mut high = values.len();
    while low < high {
        let middle = low + (high - low) / 2;
        let there = values[middle].0;
        if there.0 == variable.0 {
            return Ok(middle);
        }
        if there.0 < variable.0 {
            low = middle + 1;
        } else {
            high = middle;
        }
    }
    Err(low)
}

/// Sets a variable among values that rise. A refusal changes nothing.
fn put(values: &mut Vec<(Var, u32)>, variable: Var, value: u32) -> Result<(), Memory>
    requires { IsTrue (are_rising values.old.items) }
    ensures ok { OnOk result (values.new.items ≡ put values.old.items variable value) }
    ensures err { OnErr result (values.new.items ≡ values.old.items) }
{
    match search(values, variable) {
        Ok(place) => {
            values[place] = (variable, value);
            Ok(())
        }
        Err(place) => {
            values.insert(place, (variable, value))?;
            Ok(())
        }
    }
}

impl Variables {
    /// These values, which come by rising variable. It takes no memory.
    pub(crate) fn new(vars: Vars) -> Variables
        requires { IsTrue (are_rising vars) }
        ensures { result ≡ vars }
    {
        Variables {
            values: vars.into_vec(),
        }
    }

    /// Sets the variable, if there is one. A refusal changes nothing.
    pub(crate) fn set(&mut self, variable: Option<Var>, value: u32) -> Result<(), Memory>
        ensures ok { OnOk result (self.new ≡ set_variable self.old variable value) }
        ensures err { OnErr result (self.new ≡ self.old) }
    {
        match variable {
            Some(variable) => put(&mut self.values, variable, value),
            None => Ok(()),
        }
    }

    /// The value of the variable, 0 where it wasn't set.
    fn value(&self, variable: Var) -> u32
        ensures { result ≡ value_of self.now variable }
    {
        match search(&self.values, variable) {
            Ok(place) => self.values[place].1,
            Err(_) => 0,
        }
    }

    /// The call of a line: the variable's value stands in place of the number.
    #[inline(always)]
    pub(crate) fn call_of(&self, alloc: Global, line: &Line) -> Result<Call, Memory>
        ensures { IfOk result (λ call. call ≡ call_of line.now self.now) }
    {
        match line.from {
            None => line.call.try_copy(alloc),
            Some(variable) => call_naming(alloc, &line.call, self.value(variable)),
        }
    }

    /// All values, by rising variable.
    fn try_copy(&self, alloc: Global) -> Result<Variables, Memory>
        ensures { IfOk result (λ copy. copy ≡ self.now) }
    {
        Ok(Variables {
            values: Vec::from_slice(alloc, &self.values)?,
        })
    }

    /// All values, with 0 for this variable, if there is one.
    pub(crate) fn with_zero(&self, alloc: Global, variable: Option<Var>) -> Result<Vars, Memory>
        ensures { IfOk result (λ vars. vars ≡ set_variable self.now variable 0) }
    {
        let mut copy = self.try_copy(alloc)?;
        copy.set(variable, 0)?;
        Ok(Vars::from_vec(copy.values))
    }
}
