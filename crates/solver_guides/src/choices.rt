ghost use Rattle.std.specs.Prelude.{◌≡◌, ◌<◌, ◌^◌, true, false, not, slice_index_or, slice_set, IfOk};
ghost use Rattle.currency_base.specs.Literals.{var_of, is_negative};
ghost use Rattle.solver_guides.specs.Choices.{as_in, first_free_as, is_free, is_pick};

use currency_base::{Assignment, Lit, NoMemory};
use search_trail::Values;
use std::alloc::Global;

// A copy of an assignment.
pub(crate) fn copied(alloc: Global, start: &Assignment) -> Result<Vec<bool>, NoMemory>
    ensures { IfOk result (λ truths. truths.items ≡ start.now) }
{
    let Ok(mut truths) = Vec::with_capacity(alloc, start.vars() as usize) else {
        return Err(NoMemory);
    };
    for var in 0..start.vars() {
        let Ok(()) = truths.push(start.value(var)) else {
            return Err(NoMemory);
        };
    }
    Ok(truths)
}

// The value of a variable in a list; beyond the list, false.
fn truth_at(truths: &[bool], var: u32) -> bool
    ensures { result ≡ slice_index_or truths.now var false }
{
    truths.get(var as usize).copied().unwrap_or(false)
}

// The literal that gives a variable the value that it has in a list; beyond the list, false.
pub(crate) fn as_in(truths: &[bool], var: u32) -> Lit
    requires { var < 2 ^ 31 }
    ensures { result ≡ as_in truths.now var }
{
    Lit::new(var, !truth_at(truths, var))
}

// Is it one of the variables, with no value?
fn is_free(values: &Values, var: u32) -> bool
    ensures same { result ≡ is_free values.now.given var }
    ensures few { result ≡ true → var < 2 ^ 31 }
{
    var < values.len() && values.value(var).is_none()
}

// Is it a variable of the scope, with no value?
pub(crate) fn is_pick(values: &Values, var: u32) -> bool
    ensures same { result ≡ is_pick values.now var }
    ensures few { result ≡ true → var < 2 ^ 31 }
{
    is_free(values, var) && values.has(var)
}

// The first free variable of the scope, with its value in a list.
pub(crate) fn first_free_as(truths: &[bool], values: &Values) -> Option<Lit>
    ensures { result ≡ first_free_as truths.now values.now }
{
    // the scope ascends, and variables are few enough for literals
    let _scope = values.scope();
    match values.first_free() {
        Some(var) => Some(as_in(truths, var)),
        None => None,
    }
}

// Gives the variable of a literal the value that makes it true, where it is in range.
pub(crate) fn set_phase(phases: &mut Vec<bool>, lit: Lit)
    ensures { phases.new.items ≡ slice_set phases.old.items (var_of lit) (not (is_negative lit)) }
{
    let var = lit.var() as usize;
    if var < phases.len() {
        phases[var] = !lit.negative();
    }
}
