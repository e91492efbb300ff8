ghost use Rattle.std.specs.Prelude.{◌≡◌, nat_lt};
ghost use Rattle.std.specs.List.{list_all};
ghost use Rattle.currency_base.specs.Literals.{var_of};
ghost use Rattle.log_form.specs.Form.{steps_fault};

use crate::FormFault;
use currency_base::Lit;
use refutation_log::Steps;

/// The first of the steps with a literal that is not of so many statements, if there is one. Takes time in
/// proportion to the literals.
pub(crate) fn steps_fault(statements: usize, steps: &Steps) -> Option<FormFault>
    ensures { result ≡ steps_fault statements 0 steps.now }
{
    for place in 0..steps.len() {
        if !are_within(statements, steps.lits(place)) {
            return Some(FormFault::Step { place });
        }
    }
    None
}

// Are the literals of so many statements?
fn are_within(statements: usize, lits: &[Lit]) -> bool
    ensures { result ≡ list_all (λ lit. nat_lt (var_of lit) statements) lits.now }
{
    lits.iter().all(|lit| (lit.var() as usize) < statements)
}
