ghost use Rattle.std.specs.Prelude.{◌≡◌, ◌<◌, IfOk, length, Some, slice_get};
ghost use Rattle.spec_model.specs.declared.relation.Relation.{Relation};
ghost use Rattle.order_literals.specs.Numbers.{numbers_of};
ghost use Rattle.order_literals.specs.Statements.{statements_of};
ghost use Rattle.order_start.specs.Guess.{IsGuess};

use crate::order::Order;
use crate::ranking::rank_list;
use crate::source::Source;
use currency_base::{Assignment, AttrId, EntId, NoMemory, RelId};
use order_literals::{Numbering, Wanted};
use search_trail::Values;
use spec_model::Specification;
use std::alloc::Global;

/// A first guess at a model of the axioms of a specification. Each list is ranked by a topological order of the
/// pairs of rows that have a value, rows with no such pair between them in their own order; a list whose pairs go
/// round is ranked in the order of its rows. Where the guess is turned, rows are taken from the last on: rows with no
/// such pair between them, and lists whose pairs go round, in the opposite order. So two guesses from the same values, one
/// of them turned, rank a list with no such pair in opposite orders. What stands last, and which values are current,
/// follows from the ranking. Takes time in proportion to the pairs of rows of one entity in each attribute.
pub fn start(
    alloc: Global,
    spec: &Specification,
    numbering: &Numbering,
    wanted: &Wanted,
    known: &Values,
    turned: bool,
) -> Result<Assignment, NoMemory>
    requires numbering { numbering.now ≡ numbers_of spec.now.relations wanted.now }
    requires known { length known.now.given ≡ length (statements_of numbering.now) }
    ensures { IfOk result (IsGuess (statements_of numbering.now)) }
{
    let source = Source {
        spec,
        wanted,
        numbering,
        known,
        turned,
    };
    let mut order = Order::new(alloc);
    let mut guess = Assignment::new(alloc, numbering.vars())?;
    for rel in 0..source.relations().len() {
        guess_relation(&source, RelId(rel as u32), &mut order, &mut guess)?;
    }
    Ok(guess)
}

// Ranks the lists of a relation.
fn guess_relation(
    source: &Source<'_>,
    rel: RelId,
    order: &mut Order,
    guess: &mut Assignment,
) -> Result<(), NoMemory>
    requires rel { rel.0 < length source.now.relations }
    requires truths { length guess.old ≡ length (statements_of source.now.numbers) }
    ensures { length guess.new ≡ length guess.old }
{
    for attr in 0..source.relation(rel).attrs.len() {
        guess_attribute(source, rel, AttrId(attr as u32), order, guess)?;
    }
    Ok(())
}

// Ranks the lists of an attribute.
fn guess_attribute(
    source: &Source<'_>,
    rel: RelId,
    attr: AttrId,
    order: &mut Order,
    guess: &mut Assignment,
) -> Result<(), NoMemory>
    requires rel { rel.0 < length source.now.relations }
    requires attr { (r : Relation) → slice_get source.now.relations rel.0 ≡ Some r → attr.0 < length r.attrs }
    requires truths { length guess.old ≡ length (statements_of source.now.numbers) }
    ensures { length guess.new ≡ length guess.old }
{
    for ent in 0..source.relation(rel).entities.len() {
        guess_list(source, rel, attr, EntId(ent as u32), order, guess)?;
    }
    Ok(())
}

// Ranks a list. Where current values are wanted, the row that stands last and its value are told.
fn guess_list(
    source: &Source<'_>,
    rel: RelId,
    attr: AttrId,
    ent: EntId,
    order: &mut Order,
    guess: &mut Assignment,
) -> Result<(), NoMemory>
    requires rel { rel.0 < length source.now.relations }
    requires attr { (r : Relation) → slice_get source.now.relations rel.0 ≡ Some r → attr.0 < length r.attrs }
    requires ent { (r : Relation) → slice_get source.now.relations rel.0 ≡ Some r → ent.0 < length r.entities }
    requires truths { length guess.old ≡ length (statements_of source.now.numbers) }
    ensures { length guess.new ≡ length guess.old }
{
    let list = source.list(rel, attr, ent);
    let last = rank_list(&list, order, guess)?;
    if !source.is_wanted(rel) {
        return Ok(());
    }
    if let Some(last) = last {
        source.put_last(rel, attr, list.row(last), guess);
    }
    Ok(())
}
