ghost use Rattle.std.specs.Prelude.{◌≡◌, IfOk, IfSome};
ghost use Rattle.std.specs.Bool.{OnTrue};
ghost use Rattle.std.specs.List.{filter};
ghost use Rattle.denial_rules.specs.Instances.{operand_value};
ghost use Rattle.denial_rules.specs.declared.rule.Operand.TheVariants.{Field};
ghost use Rattle.entity_ground.specs.Lookups.{IsAsked, IsAskedIn, IsKnown, IsLookup, is_alike};

use crate::index::Index;
use currency_base::{AttrId, Cmp, NoMemory, Row, RowId};
use denial_rules::{Operand, Predicate};
use spec_model::Rule;
use std::alloc::Global;
use std::marker::Model;

/// An index of rows, and the operand by whose value rows are looked up in it.
#[derive(Drop)]
pub(crate) struct Lookup<'a> {
    index: Index<'a>,
    by: &'a Operand,
}

impl<'a> Model for Lookup<'a> {
    ghost use Rattle.entity_ground.specs.Lookups.{Looked};

    ghost Value = { Looked };

    ghost view = { λ l. record { table = l.index.table; attr = l.index.attr; members = l.index.members; by = l.by.now } };
}

impl<'a> Lookup<'a> {
    /// The lookup of a variable's rows among these, if the rule asks that their value of an attribute be
    /// equal to one that is known by then.
    pub(crate) fn new(
        alloc: Global,
        rule: &'a Rule,
        table: &'a [Row],
        members: &'a [RowId],
        var: usize,
    ) -> Result<Option<Lookup<'a>>, NoMemory>
        ensures { IfOk result (λ lookup. IfSome lookup (IsLookup rule.now table.now members.now var)) }
    {
        let Some(asked) = asked_of(rule, var) else {
            return Ok(None);
        };
        let index = match Index::new(alloc, table, asked.attr, members) {
            Ok(index) => index,
            Err(NoMemory) => return Err(NoMemory),
        };
        Ok(Some(Lookup {
            index,
            by: asked.by,
        }))
    }

    /// The rows whose value is the operand's, for these rows of the first variables.
    pub(crate) fn found(&self, front: &[RowId]) -> &[RowId]
        ensures { result.now ≡ filter (is_alike self.now.table self.now.attr
            (operand_value self.now.table front.now self.now.by)) self.now.members }
    {
        match self.by.value(self.index.table(), front) {
            Some(value) => self.index.alike(value),
            None => &[],
        }
    }
}

// An attribute whose value a rule asks to be equal to that of an operand.
#[derive(Clone, Copy)]
struct Asked<'a> {
    attr: AttrId,
    by: &'a Operand,
}

// What a rule asks of the row of a variable first.
fn asked_of(rule: &Rule, var: usize) -> Option<Asked<'_>>
    ensures { IfSome result (λ a. IsAsked rule.now var a.attr a.by.now) }
{
    for predicate in rule.predicates.as_slice() {
        if let Some(asked) = asked_in(predicate, var) {
            return Some(asked);
        }
    }
    None
}

// What a predicate asks of the row of a variable.
fn asked_in(predicate: &Predicate, var: usize) -> Option<Asked<'_>>
    ensures { IfSome result (λ a. IsAskedIn predicate.now var a.attr a.by.now) }
{
    match predicate {
        Predicate::Compare {
            left,
            cmp: Cmp::Eq,
            right,
        } => match asked_by(left, right, var) {
            Some(asked) => Some(asked),
            None => asked_by(right, left, var),
        },
        _ => None,
    }
}

// An attribute of the variable, and an operand that is known by then.
fn asked_by<'a>(field: &Operand, by: &'a Operand, var: usize) -> Option<Asked<'a>>
    ensures field { IfSome result (λ a. field.now ≡ Field var a.attr) }
    ensures by { IfSome result (λ a. a.by.now ≡ by.now) }
    ensures known { IfSome result (λ a. IsKnown var by.now) }
{
    match field {
        Operand::Field { var: own, attr } if *own as usize == var && is_known(by, var) => {
            Some(Asked { attr: *attr, by })
        }
        _ => None,
    }
}

// Is the operand's value known where so many variables have a row?
fn is_known(operand: &Operand, var: usize) -> bool
    ensures { OnTrue result (IsKnown var operand.now) }
{
    match operand {
        Operand::Field { var: other, .. } => (*other as usize) < var,
        Operand::Constant(_) => true,
    }
}
