ghost use Rattle.std.specs.Prelude.{◌≡◌, List, All, IfSome, slice_get};
ghost use Rattle.std.specs.Bool.{OnTrue};
ghost use Rattle.currency_base.specs.declared.value.Value.{Value};
ghost use Rattle.query_model.specs.Answers.{FitsTuple, TestHolds, value_of};
ghost use Rattle.query_model.specs.declared.query.Test.{Test};
ghost use Rattle.query_model.specs.declared.query.Term.TheVariants.{Var};
ghost use Rattle.query_plan.specs.Implied.{IsImplied};
ghost use Rattle.semi_joins.specs.Kept.{CanFit, IsTold};

use currency_base::{Cmp, Value};
use query_model::{Term, Test, TestTerm};
use query_plan::{Conditions, Equality};

/// Is a row left out by its own values: by a constant, a variable that stands twice, or comparisons?
pub(crate) fn is_unfit(conditions: &Conditions, terms: &[Term], row: &[Value]) -> bool
    ensures { OnTrue result (CanFit conditions.now.tests terms.now row.now → ⊥) }
{
    has_unfit_term(terms, row) || fails(conditions, terms, row)
}

// Does a comparison fail, or what follows of them?
fn fails(conditions: &Conditions, terms: &[Term], row: &[Value]) -> bool
    ensures { OnTrue result (CanFit conditions.now.tests terms.now row.now → ⊥) }
{
    has_failing(conditions.tests(), terms, row) || has_unequal(conditions.equalities(), terms, row)
}

// Does a term not fit its value?
fn has_unfit_term(terms: &[Term], row: &[Value]) -> bool
    ensures { OnTrue result ((values : List Value) → FitsTuple values terms.now row.now → ⊥) }
{
    for place in 0..terms.len() {
        if is_unfit_at(terms, row, place) {
            return true;
        }
    }
    false
}

// Does the term of a place not fit its value?
fn is_unfit_at(terms: &[Term], row: &[Value], place: usize) -> bool
    ensures { OnTrue result ((values : List Value) → FitsTuple values terms.now row.now → ⊥) }
{
    match (told_at(terms, row, place), row.get(place)) {
        (Some(told), Some(own)) => !told.test(Cmp::Eq, own),
        _ => false,
    }
}

// The value that a place is to have: a constant, or the value at the first place of its variable.
fn told_at<'a>(terms: &'a [Term], row: &'a [Value], place: usize) -> Option<&'a Value>
    ensures { IfSome result (λ told. IsTold terms.now row.now (λ values. slice_get row.now place) told.now) }
{
    match terms.get(place)? {
        Term::Var(var) => value_in(terms, row, *var),
        Term::Any => None,
        Term::Constant(constant) => Some(constant),
    }
}

// Does a comparison fail?
fn has_failing(tests: &[Test], terms: &[Term], row: &[Value]) -> bool
    ensures { OnTrue result (CanFit tests.now terms.now row.now → ⊥) }
{
    for test in tests {
        if is_failing(test, terms, row) {
            return true;
        }
    }
    false
}

// Does this comparison fail?
fn is_failing(test: &Test, terms: &[Term], row: &[Value]) -> bool
    ensures { OnTrue result ((values : List Value) → FitsTuple values terms.now row.now → TestHolds values test.now → ⊥) }
{
    match (
        side_in(terms, row, &test.left),
        side_in(terms, row, &test.right),
    ) {
        (Some(left), Some(right)) => !left.test(test.cmp, right),
        _ => false,
    }
}

// Has a variable another value than a side whose value it has wherever the comparisons hold?
fn has_unequal(equalities: &[Equality], terms: &[Term], row: &[Value]) -> bool
    ensures { OnTrue result ((tests : List Test) → All (IsImplied tests) equalities.now → CanFit tests terms.now row.now → ⊥) }
{
    for equality in equalities {
        if is_unequal(equality, terms, row) {
            return true;
        }
    }
    false
}

// Has the variable of an equality another value than its side?
fn is_unequal(equality: &Equality, terms: &[Term], row: &[Value]) -> bool
    ensures { OnTrue result ((tests : List Test) → IsImplied tests equality.now → CanFit tests terms.now row.now → ⊥) }
{
    match (
        side_in(terms, row, equality.side()),
        value_in(terms, row, equality.var()),
    ) {
        (Some(side), Some(own)) => !side.test(Cmp::Eq, own),
        _ => false,
    }
}

// The value of a side where terms fit a row, if these tell it.
fn side_in<'a>(terms: &[Term], row: &'a [Value], side: &'a TestTerm) -> Option<&'a Value>
    ensures { IfSome result (λ told. IsTold terms.now row.now (λ values. value_of values side.now) told.now) }
{
    match side {
        TestTerm::Var(var) => value_in(terms, row, *var),
        TestTerm::Constant(constant) => Some(constant),
    }
}

// The value of a variable where terms fit a row, if it stands among them.
fn value_in<'a>(terms: &[Term], row: &'a [Value], var: u32) -> Option<&'a Value>
    ensures { IfSome result (λ told. IsTold terms.now row.now (λ values. slice_get values var) told.now) }
{
    for place in 0..terms.len() {
        if is_variable(&terms[place], var) {
            return row.get(place);
        }
    }
    None
}

// Is a term this variable?
fn is_variable(term: &Term, var: u32) -> bool
    ensures { OnTrue result (term.now ≡ Var var) }
{
    match term {
        Term::Var(other) => *other == var,
        _ => false,
    }
}
