ghost use Rattle.std.specs.Prelude.{◌≡◌, []};
ghost use Rattle.log_axioms.specs.Truth.{meaning, rows_in};
ghost use Rattle.std.specs.List.{list_all, list_any};
ghost use Rattle.std.specs.Prelude.{slice_get, option_map};
ghost use Rattle.log_axioms.specs.Axioms.{same_place, says_same, lit_says, is_clause};

use crate::Signed;
use crate::conditions::{same_entity, same_value};
use currency_base::{AttrId, Lit, RelId, Row};
use refutation_log::Statement;
use spec_model::Relation;

/// Are the literals, as a set, this clause?
pub(crate) fn is_clause(
    relations: &[Relation],
    statements: &[Statement],
    lits: &[Lit],
    clause: &[Signed],
) -> bool
    ensures { result ≡ is_clause relations.now statements.now lits.now clause.now }
{
    are_members(relations, statements, lits, clause)
        && have_literals(relations, statements, lits, clause)
}

// Does each literal say the same as one of these?
fn are_members(
    relations: &[Relation],
    statements: &[Statement],
    lits: &[Lit],
    clause: &[Signed],
) -> bool
    ensures { result ≡ list_all (λ lit. list_any (λ s. lit_says relations.now statements.now s lit) clause.now) lits.now }
{
    lits.iter()
        .all(|lit| is_member(relations, statements, *lit, clause))
}

// Is there for each of these a literal that says the same?
fn have_literals(
    relations: &[Relation],
    statements: &[Statement],
    lits: &[Lit],
    clause: &[Signed],
) -> bool
    ensures { result ≡ list_all (λ s. list_any (lit_says relations.now statements.now s) lits.now) clause.now }
{
    clause
        .iter()
        .all(|signed| has_literal(relations, statements, *signed, lits))
}

// Does the literal say the same as one of these?
fn is_member(relations: &[Relation], statements: &[Statement], lit: Lit, clause: &[Signed]) -> bool
    ensures { result ≡ list_any (λ s. lit_says relations.now statements.now s lit) clause.now }
{
    clause
        .iter()
        .any(|signed| lit_says(relations, statements, *signed, lit))
}

// Does one of the literals say the same as this?
fn has_literal(
    relations: &[Relation],
    statements: &[Statement],
    signed: Signed,
    lits: &[Lit],
) -> bool
    ensures { result ≡ list_any (lit_says relations.now statements.now signed) lits.now }
{
    lits.iter()
        .any(|lit| lit_says(relations, statements, signed, *lit))
}

// Does the literal say the same as this?
fn lit_says(relations: &[Relation], statements: &[Statement], signed: Signed, lit: Lit) -> bool
    ensures { result ≡ lit_says relations.now statements.now signed lit }
{
    match meaning(statements, lit) {
        Some(said) => says_same(relations, said, signed),
        None => false,
    }
}

// What a literal of these statements says, if its variable is one of them.
fn meaning(statements: &[Statement], lit: Lit) -> Option<Signed>
    ensures { result ≡ meaning statements.now lit }
{
    match statements.get(lit.var() as usize) {
        Some(statement) => Some(Signed {
            statement: *statement,
            negative: lit.negative(),
        }),
        None => None,
    }
}

// Do two statements with their signs say the same?
fn says_same(relations: &[Relation], a: Signed, b: Signed) -> bool
    ensures { result ≡ says_same relations.now a b }
{
    let signs = a.negative == b.negative;
    match (a.statement, b.statement) {
        (
            Statement::Before {
                rel,
                attr,
                earlier,
                later,
            },
            Statement::Before {
                rel: other_rel,
                attr: other_attr,
                earlier: other_earlier,
                later: other_later,
            },
        ) => {
            same_place(rel, attr, other_rel, other_attr)
                && ((earlier.0 == other_earlier.0 && later.0 == other_later.0 && signs)
                    || (earlier.0 == other_later.0 && later.0 == other_earlier.0 && !signs))
        }
        (
            Statement::Top { rel, attr, row },
            Statement::Top {
                rel: other_rel,
                attr: other_attr,
                row: other_row,
            },
        ) => same_place(rel, attr, other_rel, other_attr) && row.0 == other_row.0 && signs,
        (
            Statement::Last { rel, attr, row },
            Statement::Last {
                rel: other_rel,
                attr: other_attr,
                row: other_row,
            },
        ) => {
            let rows = rows_in(relations, rel);
            same_place(rel, attr, other_rel, other_attr)
                && signs
                && same_entity(rows, row, other_row)
                && same_value(rows, attr, row, other_row)
        }
        (Statement::Answer { tuple }, Statement::Answer { tuple: other }) => {
            tuple == other && signs
        }
        _ => false,
    }
}

// Is it one attribute of one relation?
fn same_place(rel: RelId, attr: AttrId, other_rel: RelId, other_attr: AttrId) -> bool
    ensures { result ≡ same_place rel attr other_rel other_attr }
{
    rel.0 == other_rel.0 && attr.0 == other_attr.0
}

// The rows of a relation; none where it is not there.
fn rows_in(relations: &[Relation], rel: RelId) -> &[Row]
    ensures { result.now ≡ rows_in (slice_get relations.now rel.0) }
{
    match relations.get(rel.0 as usize) {
        Some(relation) => relation.rows.as_slice(),
        None => &[],
    }
}
