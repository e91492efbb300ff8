ghost use Rattle.std.specs.Prelude.{◌≡◌, true, Some, IfSome, slice_get};
ghost use Rattle.std.specs.List.Sorted.{IsSortedBy};
ghost use Rattle.query_model.specs.declared.query.Term.TheVariants as term;
ghost use Rattle.query_model.specs.declared.query.TestTerm.TheVariants as test;
ghost use Rattle.ucq_answers.specs.Lookups.{AreCandidates, IsBound, IsNarrowed, KeepsBound, is_lower, turned};

use crate::binding::Binding;
use crate::comparisons::side_of;
use crate::place_index::PlaceIndex;
use currency_base::{Cmp, EntId, Value};
use query_model::{Term, Test, TestTerm};

/// The tuples that terms can fit with no comparison failing, if a variable stands at the index's place: those
/// whose value there the comparisons allow, as far as their other sides are known.
pub(crate) fn bounded<'a>(
    index: &'a PlaceIndex<'a>,
    tests: &[Test],
    terms: &[Term],
    values: &Binding,
) -> Option<&'a [EntId]>
    ensures { IfSome result (λ found. AreCandidates index.now.tuples tests.now terms.now values.now found.now) }
{
    let var = var_at(terms, index.place())?;
    Some(narrowed(index, tests, var, values))
}

// The variable that stands at a place.
fn var_at(terms: &[Term], place: usize) -> Option<u32>
    ensures { IfSome result (λ var. slice_get terms.now place ≡ Some (term.Var var)) }
{
    match terms.get(place)? {
        Term::Var(var) => Some(*var),
        Term::Any => None,
        Term::Constant(_) => None,
    }
}

// The tuples whose value the comparisons allow for a variable.
fn narrowed<'a>(
    index: &'a PlaceIndex<'a>,
    tests: &[Test],
    var: u32,
    values: &Binding,
) -> &'a [EntId]
    ensures { IsNarrowed index.now.tuples index.now.place tests.now var values.now result.now }
{
    let mut ents = index.by_value();
    for test in tests {
        ents = narrowed_by(index, ents, test, var, values);
    }
    ents
}

// Those of some tuples whose value a comparison allows for a variable, if its other side is known.
fn narrowed_by<'a>(
    index: &PlaceIndex<'a>,
    ents: &'a [EntId],
    test: &Test,
    var: u32,
    values: &Binding,
) -> &'a [EntId]
    requires { IsSortedBy (is_lower index.now.tuples index.now.place) ents.now }
    ensures sorted { IsSortedBy (is_lower index.now.tuples index.now.place) result.now }
    ensures kept { KeepsBound index.now.tuples index.now.place test.now var values.now ents.now result.now }
{
    match bound_of(test, var, values) {
        Some(bound) => index.among(ents, bound.cmp, bound.value),
        None => ents,
    }
}

// How the value of a variable has to stand to another.
#[derive(Drop)]
struct Bound<'a> {
    cmp: Cmp,
    value: &'a Value,
}

// How it has to stand by a comparison to the value of the other side, if this is known.
fn bound_of<'b>(test: &'b Test, var: u32, values: &Binding<'b>) -> Option<Bound<'b>>
    ensures { IfSome result (λ bound. IsBound test.now var values.now bound.cmp bound.value.now) }
{
    if is_variable(&test.left, var) {
        let value = side_of(values, &test.right)?;
        return Some(Bound {
            cmp: test.cmp,
            value,
        });
    }
    if is_variable(&test.right, var) {
        let value = side_of(values, &test.left)?;
        return Some(Bound {
            cmp: turned(test.cmp),
            value,
        });
    }
    None
}

// Is a side this variable?
fn is_variable(side: &TestTerm, var: u32) -> bool
    ensures { result ≡ true → side.now ≡ test.Var var }
{
    match side {
        TestTerm::Var(other) => *other == var,
        TestTerm::Constant(_) => false,
    }
}

// The same comparison with its sides exchanged.
fn turned(cmp: Cmp) -> Cmp
    ensures { result ≡ turned cmp }
{
    match cmp {
        Cmp::Eq => Cmp::Eq,
        Cmp::Ne => Cmp::Ne,
        Cmp::Lt => Cmp::Gt,
        Cmp::Le => Cmp::Ge,
        Cmp::Gt => Cmp::Lt,
        Cmp::Ge => Cmp::Le,
    }
}
