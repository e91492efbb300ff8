ghost use Rattle.std.specs.Prelude.{◌≡◌, None, IfOk};
ghost use Rattle.ucq_answers.specs.Partly.{bind_all, fit};

use crate::binding::Binding;
use currency_base::{NoMemory, Value};
use query_model::Term;
use std::alloc::Global;

/// The values once terms fit a tuple, if they can.
pub(crate) fn fitted<'a>(
    alloc: Global,
    values: &Binding<'a>,
    terms: &'a [Term],
    tuple: &'a [Value],
) -> Result<Option<Binding<'a>>, NoMemory>
    ensures { IfOk result (λ next. next ≡ fit values.now terms.now tuple.now) }
{
    if terms.len() != tuple.len() {
        return Ok(None);
    }
    let mut next = values.duplicate(alloc)?;
    for place in 0..terms.len() {
        if !next.fit_term(&terms[place], &tuple[place]) {
            return Ok(None);
        }
    }
    Ok(Some(next))
}

/// The values once variables have those of a tuple, if they can.
pub(crate) fn bound<'a>(
    mut values: Binding<'a>,
    vars: &[u32],
    tuple: &'a [Value],
) -> Option<Binding<'a>>
    ensures { result ≡ bind_all values.entry vars.now tuple.now }
{
    if vars.len() != tuple.len() {
        return None;
    }
    for place in 0..vars.len() {
        if !values.bind(vars[place], &tuple[place]) {
            return None;
        }
    }
    Some(values)
}
