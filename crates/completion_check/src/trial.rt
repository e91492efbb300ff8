ghost use Rattle.std.specs.Prelude.{◌≡◌, ℕ, ◌<◌, true, length, Some, slice_get};
ghost use Rattle.std.specs.Bool.{OnTrue, OnFalse};
ghost use Rattle.denial_rules.specs.declared.rule.Predicate.{Predicate};
ghost use Rattle.completion_check.specs.Tests.{atom_test, predicate_test, conclusion_test, last_var, operand_var};
ghost use Rattle.completion_check.specs.Breaks.{IsPlaced, IsTestable, IsTrial, AreRows, AreTested, IsFailed};

use crate::relations::RelationPlaces;
use currency_base::{Row, RowId};
use denial_rules::{Conclusion, Operand, OrderAtom, Predicate, Rule};
use std::marker::Model;

/// A rule, the rows of its relation and their places: what rows that are taken for the rule's variables
/// are tried on.
#[derive(Drop)]
pub(crate) struct Trial<'a> {
    pub rule: &'a Rule,
    pub table: &'a [Row],
    pub places: &'a RelationPlaces,
}

impl<'a> Model for Trial<'a> {
    ghost use Rattle.completion_check.specs.Breaks.{Tried, IsTrial};

    ghost Value = { Tried };

    ghost view = { λ t. record { rule = t.rule.now; table = t.table.now; places = t.places.now } };

    ghost invariant = { λ t. IsTrial (record { rule = t.rule.now; table = t.table.now; places = t.places.now }) };
}

impl Trial<'_> {
    /// How many variables the rule has.
    pub(crate) fn vars(&self) -> usize
        ensures value { result ≡ self.now.rule.vars }
        ensures facts { IsTrial self.now }
    {
        self.rule.vars as usize
    }

    /// The rows of the relation.
    pub(crate) fn table(&self) -> &[Row]
        ensures value { result.now ≡ self.now.table }
        ensures facts { IsTrial self.now }
    {
        self.table
    }

    /// Do all predicates hold whose greatest variable is this one?
    pub(crate) fn passes(&self, rows: &[RowId], var: usize) -> bool
        requires bound { var < length rows.now }
        requires rows { AreRows self.now.table rows.now }
        ensures yes { OnTrue result ((k : ℕ) (p : Predicate) → slice_get self.now.rule.predicates k ≡ Some p → last_var p ≡ var
            → predicate_test self.now.table self.now.places rows.now p ≡ true) }
        ensures no { OnFalse result (IsFailed self.now var rows.now) }
    {
        for predicate in self.rule.predicates.as_slice() {
            if last_var(predicate) == var && !self.holds(rows, predicate) {
                return false;
            }
        }
        true
    }

    // Does a predicate of bound variables hold?
    fn holds(&self, rows: &[RowId], predicate: &Predicate) -> bool
        requires bound { last_var predicate.now < length rows.now }
        requires testable { IsTestable (length rows.now) (length self.now.places) predicate.now }
        requires rows { AreRows self.now.table rows.now }
        ensures { result ≡ predicate_test self.now.table self.now.places rows.now predicate.now }
    {
        match predicate {
            Predicate::Order(atom) => self.atom_holds(rows, atom),
            Predicate::Compare { .. } => predicate.comparison_holds(self.table, rows),
        }
    }

    /// Does the conclusion hold?
    pub(crate) fn concludes(&self, rows: &[RowId]) -> bool
        requires count { length rows.now ≡ self.now.rule.vars }
        requires rows { AreRows self.now.table rows.now }
        ensures { result ≡ conclusion_test self.now.places rows.now self.now.rule.conclusion }
    {
        match &self.rule.conclusion {
            Conclusion::Never => false,
            Conclusion::Order(atom) => self.atom_holds(rows, atom),
        }
    }

    // Has the row of the atom's earlier variable the smaller place in the atom's attribute?
    fn atom_holds(&self, rows: &[RowId], atom: &OrderAtom) -> bool
        requires placed { IsPlaced (length rows.now) (length self.now.places) atom.now }
        requires rows { AreRows self.now.table rows.now }
        ensures { result ≡ atom_test self.now.places rows.now atom.now }
    {
        let earlier = rows[atom.earlier as usize];
        let later = rows[atom.later as usize];
        self.places.is_lower(atom.attr, earlier, later)
    }
}

// The greatest variable of a predicate, and 0 where it has none.
fn last_var(predicate: &Predicate) -> usize
    ensures { result ≡ last_var predicate.now }
{
    match predicate {
        Predicate::Order(atom) => atom.earlier.max(atom.later) as usize,
        Predicate::Compare { left, right, .. } => operand_var(left).max(operand_var(
            right,
        )) as usize,
    }
}

// The variable of an operand, and 0 for a constant.
fn operand_var(operand: &Operand) -> u32
    ensures { result ≡ operand_var operand.now }
{
    match operand {
        Operand::Field { var, .. } => *var,
        Operand::Constant(_) => 0,
    }
}
