ghost use Rattle.std.specs.Prelude.{◌≡◌, ◌<◌, Option, Some, None, length, map, replicate, slice_set, option_map, IfOk};
ghost use Rattle.ucq_answers.specs.Partly.{value_at, values_of};

use currency_base::{NoMemory, Tuple, Value};
use std::alloc::Global;
use std::marker::Model;

/// Values of some of the variables of a disjunct. Contracts see for each variable its value, if it has one.
#[derive(Drop)]
pub(crate) struct Binding<'a> {
    values: Vec<Option<&'a Value>>,
}

impl<'a> Model for Binding<'a> {
    ghost use Rattle.std.specs.Prelude.{map, option_map};
    ghost use Rattle.ucq_answers.specs.Shapes.{SomeValues};

    ghost Value = { SomeValues };

    ghost view = { λ b. map (λ value. option_map (λ v. v.now) value) b.values.items };
}

impl<'a> Binding<'a> {
    /// No value for any of so many variables.
    pub(crate) fn new(alloc: Global, vars: u32) -> Result<Binding<'a>, NoMemory>
        ensures { IfOk result (λ b. b ≡ replicate vars None) }
    {
        let mut values = Vec::new(alloc);
        for _ in 0..vars {
            values.push(None)?;
        }
        Ok(Binding { values })
    }

    /// How many variables there are.
    pub(crate) fn len(&self) -> usize
        ensures { result ≡ length self.now }
    {
        self.values.len()
    }

    /// The same values.
    pub(crate) fn duplicate(&self, alloc: Global) -> Result<Binding<'a>, NoMemory>
        ensures { IfOk result (λ b. b ≡ self.now) }
    {
        let mut values = Vec::with_capacity(alloc, self.values.len())?;
        values.extend_from_slice(&self.values)?;
        Ok(Binding { values })
    }

    /// The value of a variable, if it has one.
    pub(crate) fn value(&self, var: u32) -> Option<&'a Value>
        ensures { option_map (λ v. v.now) result ≡ value_at self.now var }
    {
        match self.values.get(var as usize) {
            Some(Some(value)) => Some(*value),
            _ => None,
        }
    }

    /// The same values, and this one for a variable.
    pub(crate) fn with(
        &self,
        alloc: Global,
        var: u32,
        value: &'a Value,
    ) -> Result<Binding<'a>, NoMemory>
        requires { var < length self.now }
        ensures { IfOk result (λ b. b ≡ slice_set self.now var (Some value.now)) }
    {
        let mut next = self.duplicate(alloc)?;
        next.set(var, value);
        Ok(next)
    }

    // Gives a variable a value.
    fn set(&mut self, var: u32, value: &'a Value)
        requires { var < length self.old }
        ensures { self.new ≡ slice_set self.old var (Some value.now) }
    {
        self.values[var as usize] = Some(value);
    }

    /// The values that variables have, in the order of the variables.
    pub(crate) fn values(&self, alloc: Global) -> Result<Tuple, NoMemory>
        ensures { IfOk result (λ tuple. tuple ≡ values_of self.now) }
    {
        let mut tuple = Tuple::new(alloc);
        for value in &self.values {
            if let Some(own) = value {
                tuple.push(own.duplicate(alloc)?)?;
            }
        }
        Ok(tuple)
    }
}
