ghost use Rattle.std.specs.Prelude.{◌≡◌, ◌≤◌, IfOk, length};
ghost use Rattle.entity_rows.specs.Members.{AreEntityRows};
ghost use Rattle.spec_model.specs.Facts.{IsRelation};
ghost use Rattle.currency_base.specs.declared.value.Value.TheVariants as kinds;
ghost use Rattle.match_premises.specs.Premises.{entity_premises, fits};
ghost use Rattle.query_model.specs.declared.query.Term.TheVariants as term;
ghost use Rattle.std.specs.Prelude.{[]};

use crate::PremiseList;
use crate::place::{EntityTable, claims};
use currency_base::{EntId, Name, NoMemory, Value};
use entity_rows::EntityRows;
use query_model::{Atom, Term};
use spec_model::Relation;
use std::alloc::Global;
use std::cmp::Ordering;

/// What an atom claims of the current values of an entity of its relation, for these values of the variables: for each
/// place at which a value is asked for, the first of the entity's rows that has it. Nothing is answered where the atom
/// has not one term for the name and one for each attribute, where there is no such entity or its name does not fit, and
/// where no row of it has a value that is asked for.
pub fn atom_premises(
    alloc: Global,
    relation: &Relation,
    members: &EntityRows,
    atom: &Atom,
    ent: EntId,
    values: &[Value],
) -> Result<Option<PremiseList>, NoMemory>
    requires facts { IsRelation relation.now }
    requires members { AreEntityRows relation.now.rows (length relation.now.entities) members.now }
    ensures { IfOk result (λ found. found ≡ entity_premises atom.now.relation values.now atom.now.terms relation.now ent) }
{
    match atom.terms.as_slice() {
        [] => Ok(None),
        [first, more @ ..] => {
            let Some(name) = relation.entities.as_slice().get(ent.0 as usize) else {
                return Ok(None);
            };
            if more.len() != relation.attrs.len() || !fits_name(values, first, name) {
                return Ok(None);
            }
            let table = EntityTable {
                rel: atom.relation,
                rows: relation.rows.as_slice(),
                members: members.get(ent.0 as usize).as_slice(),
            };
            claims(alloc, table, values, more)
        }
    }
}

// Does a term fit an entity's name?
fn fits_name(values: &[Value], term: &Term, name: &Name) -> bool
    ensures { result ≡ fits values.now term.now (kinds.Text name.now) }
{
    match term {
        Term::Var(var) => match values.get(*var as usize) {
            Some(value) => is_text(value, name),
            None => false,
        },
        Term::Any => true,
        Term::Constant(value) => is_text(value, name),
    }
}

// Is the value this text?
fn is_text(value: &Value, name: &Name) -> bool
    ensures { result ≡ fits [] (term.Constant value.now) (kinds.Text name.now) }
{
    match value {
        Value::Int(_) => false,
        Value::Text(text) => text.cmp(name) == Ordering::Equal,
    }
}
