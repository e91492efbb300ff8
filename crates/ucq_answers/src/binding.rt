ghost use Rattle.std.specs.Prelude.{◌≡◌, true, false, List, Option, Some, None, length, map, replicate, slice_get, option_map, unwrap_or, IfOk};
ghost use Rattle.currency_base.specs.declared.value.Value.{Value};
ghost use Rattle.ucq_answers.specs.Partly.{bind, fit_term, head_at, put_free, put_side, side_of, spread, value_at, values_of};

use crate::comparisons::side_of;
use currency_base::{Cmp, NoMemory, Tuple, Value};
use query_model::Term;
use query_plan::Equality;
use std::alloc::Global;
use std::marker::Model;

/// Values of some of the variables of a disjunct. Contracts see for each variable its value, if it has one.
#[derive(Drop)]
pub(crate) struct Binding<'a> {
    values: Vec<Option<&'a Value>>,
}

impl<'a> Model for Binding<'a> {
    ghost use Rattle.std.specs.Prelude.{map, option_map};
    ghost use Rattle.ucq_answers.specs.Shapes.{SomeValues};

    ghost Value = { SomeValues };

    ghost view = { λ b. map (λ value. option_map (λ v. v.now) value) b.values.items };
}

impl<'a> Binding<'a> {
    /// No value for any of so many variables.
    pub(crate) fn new(alloc: Global, vars: u32) -> Result<Binding<'a>, NoMemory>
        ensures { IfOk result (λ b. b ≡ replicate vars None) }
    {
        let mut values = Vec::new(alloc);
        for _ in 0..vars {
            values.push(None)?;
        }
        Ok(Binding { values })
    }

    /// The same values.
    pub(crate) fn duplicate(&self, alloc: Global) -> Result<Binding<'a>, NoMemory>
        ensures { IfOk result (λ b. b ≡ self.now) }
    {
        let mut values = Vec::with_capacity(alloc, self.values.len())?;
        values.extend_from_slice(&self.values)?;
        Ok(Binding { values })
    }

    /// The value of a variable, if it has one.
    pub(crate) fn value(&self, var: u32) -> Option<&'a Value>
        ensures { option_map (λ v. v.now) result ≡ value_at self.now var }
    {
        match self.values.get(var as usize) {
            Some(Some(value)) => Some(*value),
            _ => None,
        }
    }

    /// Gives a variable a value, if it has none or just this one.
    pub(crate) fn bind(&mut self, var: u32, value: &'a Value) -> bool
        ensures yes { result ≡ true → bind self.old var value.now ≡ Some self.new }
        ensures no { result ≡ false → bind self.old var value.now ≡ None }
    {
        if var as usize >= self.values.len() {
            return false;
        }
        match self.values[var as usize] {
            Some(own) => own.test(Cmp::Eq, value),
            None => {
                self.values[var as usize] = Some(value);
                true
            }
        }
    }

    /// Lets a term fit a value, if it can: a variable is given it.
    pub(crate) fn fit_term(&mut self, term: &'a Term, value: &'a Value) -> bool
        ensures yes { result ≡ true → fit_term self.old term.now value.now ≡ Some self.new }
        ensures no { result ≡ false → fit_term self.old term.now value.now ≡ None }
    {
        match term {
            Term::Var(var) => self.bind(*var, value),
            Term::Any => true,
            Term::Constant(constant) => constant.test(Cmp::Eq, value),
        }
    }

    /// Gives variables the values of sides that are known, one equality after another, where they have none.
    pub(crate) fn spread(&mut self, equalities: &[Equality<'a>])
        ensures { self.new ≡ spread equalities.now self.old }
    {
        for equality in equalities {
            self.put_side(equality);
        }
    }

    // Gives a variable the value of a side, if it has none and that is known.
    fn put_side(&mut self, equality: &Equality<'a>)
        ensures { self.new ≡ put_side (side_of self.old equality.now.side) self.old equality.now.var }
    {
        let Some(value) = side_of(self, equality.side()) else {
            return;
        };
        self.put_free(equality.var(), value);
    }

    // Gives a variable a value, if it has none.
    fn put_free(&mut self, var: u32, value: &'a Value)
        ensures { self.new ≡ put_free (slice_get self.old var) self.old var value.now }
    {
        if var as usize >= self.values.len() {
            return;
        }
        match self.values[var as usize] {
            Some(_) => {}
            None => self.values[var as usize] = Some(value),
        }
    }

    /// The values that variables have, in the order of the variables.
    pub(crate) fn values(&self, alloc: Global) -> Result<Tuple, NoMemory>
        ensures { IfOk result (λ tuple. tuple ≡ values_of self.now) }
    {
        let mut tuple = Tuple::new(alloc);
        for value in &self.values {
            if let Some(own) = value {
                tuple.push(own.duplicate(alloc)?)?;
            }
        }
        Ok(tuple)
    }

    /// The values of these variables, if they all have one.
    pub(crate) fn head(&self, alloc: Global, head: &[u32]) -> Result<Option<Tuple>, NoMemory>
        ensures { IfOk result (λ tuple. tuple ≡ head_at self.now head.now) }
    {
        let mut tuple = Tuple::new(alloc);
        for var in head {
            let Some(value) = self.value(*var) else {
                return Ok(None);
            };
            tuple.push(value.duplicate(alloc)?)?;
        }
        Ok(Some(tuple))
    }
}
