ghost use Rattle.std.specs.Prelude.{◌≡◌, true, false, IfOk, Some, [], option_map, slice_get};
ghost use Rattle.std.specs.List.{list_any};
ghost use Rattle.currency_base.specs.declared.value.Cmp.TheVariants.{Eq};
ghost use Rattle.denial_rules.specs.Instances.{field_value, is_compared};
ghost use Rattle.refutation_log.specs.Steps.{clauses_of};
ghost use Rattle.log_axioms.specs.Axioms.{before};
ghost use Rattle.log_checker.specs.Shown.{IsShownBy};
ghost use Rattle.log_units.specs.Units.{HasAnswerUnit, HasLastUnit, HasUnit};

use crate::index::Index;
use crate::said::{Place, SaidPair};
use currency_base::{AttrId, Cmp, EntId, Lit, NoMemory, RelId, RowId, Rows, Tuple, Value};
use log_checker::Checked;
use refutation_log::Log;
use spec_model::{Relation, Specification};
use std::alloc::Global;
use std::marker::Model;

/// What the units of a log say of a specification's rows, and of answers. Contracts see the relations and the log.
#[derive(Drop)]
pub struct Units<'a> {
    spec: &'a Specification,
    log: &'a Log,
    index: Index<'a>,
}

impl<'a> Model for Units<'a> {
    ghost use Rattle.std.specs.Prelude.{◌*◌, length};
    ghost use Rattle.log_units.specs.Units.{IndexedLog};
    ghost use Rattle.log_units.specs.Noted.{AreNoted};

    ghost Value = { IndexedLog };

    ghost view = { λ u. record { relations = u.spec.now.relations; log = u.log.now } };

    ghost invariant = { λ u. AreNoted u.spec.now.relations u.log.now (2 * length u.log.now.statements) u.index };
}

impl<'a> Units<'a> {
    /// Indexes what the units of a log say. Takes time in proportion to its statements. Want of memory is also
    /// answered where the statements are more than literals can name.
    pub fn new(
        alloc: Global,
        spec: &'a Specification,
        log: &'a Log,
        checked: &Checked,
    ) -> Result<Units<'a>, NoMemory>
        requires { IsShownBy (clauses_of log.now.steps) checked.now }
        ensures relations { IfOk result (λ u. u.relations ≡ spec.now.relations) }
        ensures log { IfOk result (λ u. u.log ≡ log.now) }
    {
        let statements = log.statements.as_slice();
        let tuples = log.answers.as_slice();
        if statements.len() > 1 << 31 {
            return Err(NoMemory);
        }
        let mut index = Index::new(alloc);
        for (var, statement) in statements.iter().enumerate() {
            let plain = Lit::new(var as u32, false);
            index.note_unit(spec.relations(), tuples, *statement, plain, checked)?;
            let negation = Lit::new(var as u32, true);
            index.note_unit(spec.relations(), tuples, *statement, negation, checked)?;
        }
        Ok(Units { spec, log, index })
    }

    /// The units of a log with no step: there is none. Takes no memory.
    pub fn of_no_steps(alloc: Global, spec: &'a Specification, log: &'a Log) -> Units<'a>
        requires { log.now.steps ≡ [] }
        ensures relations { result.relations ≡ spec.now.relations }
        ensures log { result.log ≡ log.now }
    {
        Units {
            spec,
            log,
            index: Index::new(alloc),
        }
    }

    /// Has the log the unit that one row stands before another?
    pub fn has_before(&self, rel: RelId, attr: AttrId, earlier: RowId, later: RowId) -> bool
        ensures there { result ≡ true → HasUnit self.now.relations self.now.log (before rel attr earlier later) }
        ensures missing { result ≡ false → HasUnit self.now.relations self.now.log (before rel attr earlier later) → ⊥ }
    {
        self.index.pairs.has(SaidPair {
            rel,
            attr,
            earlier,
            later,
        })
    }

    /// Has the log the unit that a tuple is an answer? It is found by halving among the tuples of which units say so.
    /// Takes no memory.
    pub fn has_answer(&self, tuple: &'a Tuple) -> bool
        ensures there { result ≡ true → HasAnswerUnit self.now.relations self.now.log tuple.now }
        ensures missing { result ≡ false → HasAnswerUnit self.now.relations self.now.log tuple.now → ⊥ }
    {
        self.index.answers.has(tuple)
    }

    /// Has the log the unit that a value is the current one of an entity? Takes time in proportion to the rows
    /// that units name at this place.
    pub fn has_last(&self, rel: RelId, attr: AttrId, ent: EntId, value: &Value) -> bool
        ensures there { result ≡ true → HasLastUnit self.now.relations self.now.log rel attr ent value.now }
        ensures missing { result ≡ false → HasLastUnit self.now.relations self.now.log rel attr ent value.now → ⊥ }
    {
        match relation_at(self.spec.relations(), rel) {
            Some(relation) => {
                let rows = self.index.rows.at(Place { rel, attr, ent });
                has_value(&relation.rows, rows, attr, value)
            }
            None => false,
        }
    }
}

// A relation, if it is there.
fn relation_at(relations: &[Relation], rel: RelId) -> Option<&Relation>
    ensures { option_map (λ r. r.now) result ≡ slice_get relations.now rel.0 }
{
    relations.get(rel.0 as usize)
}

// Has one of these rows the value?
fn has_value(table: &Rows, rows: &[RowId], attr: AttrId, value: &Value) -> bool
    ensures { result ≡ list_any (λ row. is_compared (field_value table.now (Some row) attr.0) Eq (Some value.now)) rows.now }
{
    rows.iter().any(|row| is_value(table, *row, attr, value))
}

// Has the row the value?
fn is_value(table: &Rows, row: RowId, attr: AttrId, value: &Value) -> bool
    ensures { result ≡ is_compared (field_value table.now (Some row) attr.0) Eq (Some value.now) }
{
    let Some(found) = table.as_slice().get(row.0 as usize) else {
        return false;
    };
    match found.values.as_slice().get(attr.0 as usize) {
        Some(own) => own.test(Cmp::Eq, value),
        None => false,
    }
}
