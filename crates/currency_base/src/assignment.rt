ghost use Rattle.std.specs.Prelude.{◌≡◌, ◌<◌, ◌^◌, Some, false, length, replicate, slice_get, slice_set, IfOk, vec_len};

use crate::NoMemory;
use std::alloc::Global;
use std::marker::Model;

/// A bool for each variable. Contracts see it as the list of them, in the order of the variables.
#[derive(Drop)]
pub struct Assignment {
    truths: Vec<bool>,
}

impl Model for Assignment {
    ghost use Rattle.std.specs.Prelude.{List, Bool, ◌<◌, ◌^◌, length};

    ghost Value = { List Bool };

    ghost view = { λ a. a.truths.items };

    ghost invariant = { λ a. length a.truths.items < 2 ^ 32 };
}

impl Assignment {
    /// So many variables, each false.
    pub fn new(alloc: Global, vars: u32) -> Result<Assignment, NoMemory>
        ensures { IfOk result (λ a. a ≡ replicate vars false) }
    {
        let mut truths = Vec::new(alloc);
        truths.resize(vars as usize, false)?;
        Ok(Assignment { truths })
    }

    /// How many variables there are.
    pub fn vars(&self) -> u32
        ensures { result ≡ length self.now }
    {
        self.truths.len() as u32
    }

    /// The value of a variable.
    pub fn value(&self, var: u32) -> bool
        requires { var < length self.now }
        ensures { slice_get self.now var ≡ Some result }
    {
        self.truths[var as usize]
    }

    /// Gives a variable another value.
    pub fn set(&mut self, var: u32, value: bool)
        requires { var < length self.old }
        ensures { self.new ≡ slice_set self.old var value }
    {
        self.truths[var as usize] = value;
    }
}
