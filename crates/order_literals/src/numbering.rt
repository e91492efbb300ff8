ghost use Rattle.std.specs.Prelude.{◌≡◌, ◌<◌, ◌^◌, List, [], true, false, Some, is_some, length, slice_get, slice_index_or, IfOk, IfSome, IfNone};
ghost use Rattle.currency_base.specs.declared.ids.RowId.{RowId};
ghost use Rattle.currency_base.specs.declared.lit.Lit.{Lit};
ghost use Rattle.refutation_log.specs.declared.statement.Statement.TheVariants as says;
ghost use Rattle.order_literals.specs.Numbers.{Numbered, numbers_of, IsPairOf, IsRowOf};
ghost use Rattle.order_literals.specs.Statements.{statements_of};
ghost use Rattle.order_literals.specs.Said.{Says, before, top, last, positive};

use crate::Wanted;
use crate::block::BlockKind;
use crate::catalogue::Catalogue;
use crate::tables::all_tables;
use currency_base::{AttrId, Lit, NoMemory, RelId, RowId};
use entity_lists::EntityLists;
use refutation_log::Statement;
use spec_model::Specification;
use std::alloc::Global;
use std::marker::Model;

/// Numbers for the statements on a specification: for each attribute and pair of different rows of one
/// entity, which stands before the other; of the wanted relations, for each attribute and row whether it
/// stands last, and for each attribute, entity and value whether it is current, the value being named by
/// the first row of the entity that has it; and the answers. A variable is the place of its statement in
/// the order of statements, counted from 0. Contracts see what is numbered; the statements follow from it.
/// It takes memory for the rows, and of the wanted relations for their values, and none for a pair.
#[derive(Drop)]
pub struct Numbering {
    catalogue: Catalogue,
}

impl Model for Numbering {
    ghost use Rattle.order_literals.specs.Numbers.{Numbers};

    ghost Value = { Numbers };

    ghost view = { λ n. n.catalogue };
}

impl Numbering {
    /// Numbers the statements on a specification, where the current values of some relations and so many
    /// answers are wanted. Takes time in proportion to the rows, and for the wanted relations to the pairs
    /// of rows in each attribute.
    pub fn new(alloc: Global, spec: &Specification, wanted: &Wanted) -> Result<Numbering, NoMemory>
        requires { length (statements_of (numbers_of spec.now.relations wanted.now)) < 2 ^ 31 }
        ensures { IfOk result (λ n. n ≡ numbers_of spec.now.relations wanted.now) }
    {
        let tables = match all_tables(alloc, spec.relations(), &wanted.currents) {
            Ok(tables) => tables,
            Err(fault) => return Err(fault),
        };
        match Catalogue::new(alloc, tables, wanted.answers) {
            Ok(catalogue) => Ok(Numbering { catalogue }),
            Err(fault) => Err(fault),
        }
    }

    /// How many variables there are: one for each statement.
    pub fn vars(&self) -> u32
        ensures value { result ≡ length (statements_of self.now) }
        ensures few { result < 2 ^ 31 }
    {
        self.catalogue.len()
    }

    /// The literal that says a statement, if it is numbered; that one row stands before another is numbered
    /// where it is the other way round, and is the negation of that. Takes logarithmic time and no memory.
    pub fn lit_of(&self, statement: Statement) -> Option<Lit>
        ensures some { IfSome result (λ lit. Says (statements_of self.now) lit (positive statement)) }
        ensures none { IfNone result ((lit : Lit) → Says (statements_of self.now) lit (positive statement) → ⊥) }
    {
        match statement {
            Statement::Before {
                rel,
                attr,
                earlier,
                later,
            } => self.before_if(rel, attr, earlier, later),
            Statement::Top { rel, attr, row } => self.top_if(rel, attr, row),
            Statement::Last { rel, attr, row } => self.last_if(rel, attr, row),
            Statement::Answer { tuple } => self.answer_if(tuple),
        }
    }

    /// The statement of a variable. Takes logarithmic time and no memory.
    pub fn meaning_of(&self, var: u32) -> Statement
        requires { var < length (statements_of self.now) }
        ensures { slice_get (statements_of self.now) var ≡ Some result }
    {
        self.catalogue.statement(var)
    }

    /// The literal that says that of two rows of one entity the first stands before the second. Takes
    /// constant time and no memory.
    pub fn before(&self, rel: RelId, attr: AttrId, earlier: RowId, later: RowId) -> Lit
        requires { IsPairOf self.now rel.0 attr.0 earlier later }
        ensures { Says (statements_of self.now) result (before rel attr earlier later) }
    {
        if earlier.0 < later.0 {
            Lit::new(self.pair_var(rel, attr, earlier, later), false)
        } else {
            Lit::new(self.pair_var(rel, attr, later, earlier), true)
        }
    }

    /// The literal that says that a row of a wanted relation stands last. Takes constant time and no memory.
    pub fn top(&self, rel: RelId, attr: AttrId, row: RowId) -> Lit
        requires { IsRowOf self.now rel.0 attr.0 row }
        ensures { Says (statements_of self.now) result (top rel attr row) }
    {
        let place = self.catalogue.place(BlockKind::Tops, rel, attr);
        Lit::new(self.catalogue.var(place, row.0 as usize), false)
    }

    /// The row that names the value of a row of a wanted relation. Takes constant time and no memory.
    pub fn name(&self, rel: RelId, attr: AttrId, row: RowId) -> RowId
        requires { IsRowOf self.now rel.0 attr.0 row }
        ensures { (table : Numbered) (names : List (List RowId)) → slice_get self.now.tables rel.0 ≡ Some table
            → table.names ≡ Some names → slice_get (slice_index_or names attr.0 []) row.0 ≡ Some result }
    {
        self.catalogue.table(rel).name(attr, row)
    }

    /// The literal that says that the value which a row of a wanted relation names is current, the row being
    /// its own name. Takes logarithmic time and no memory.
    pub fn last(&self, rel: RelId, attr: AttrId, row: RowId) -> Lit
        requires row { IsRowOf self.now rel.0 attr.0 row }
        requires named { (table : Numbered) (names : List (List RowId)) → slice_get self.now.tables rel.0 ≡ Some table
            → table.names ≡ Some names → slice_get (slice_index_or names attr.0 []) row.0 ≡ Some row }
        ensures { Says (statements_of self.now) result (last rel attr row) }
    {
        let number = self.catalogue.table(rel).number(attr, row);
        let place = self.catalogue.place(BlockKind::Lasts, rel, attr);
        Lit::new(self.catalogue.var(place, number), false)
    }

    /// Are the current values of a relation wanted? Takes constant time.
    pub fn is_wanted(&self, rel: RelId) -> bool
        requires { rel.0 < length self.now.tables }
        ensures { (table : Numbered) → slice_get self.now.tables rel.0 ≡ Some table → result ≡ is_some table.names }
    {
        self.catalogue.table(rel).is_wanted()
    }

    /// The rows of each entity of a relation.
    pub fn lists(&self, rel: RelId) -> &EntityLists
        requires { rel.0 < length self.now.tables }
        ensures { (table : Numbered) → slice_get self.now.tables rel.0 ≡ Some table → result.now ≡ table.rows }
    {
        self.catalogue.table(rel).lists()
    }

    /// The variable that says that of two rows of one entity the first, whose number is less, stands before
    /// the second.
    fn pair_var(&self, rel: RelId, attr: AttrId, earlier: RowId, later: RowId) -> u32
        requires pair { IsPairOf self.now rel.0 attr.0 earlier later }
        requires order { earlier.0 < later.0 }
        ensures value { slice_get (statements_of self.now) result ≡ Some (says.Before rel attr earlier later) }
        ensures few { result < 2 ^ 31 }
    {
        let number = self.catalogue.table(rel).pairs().number(earlier, later);
        let place = self.catalogue.place(BlockKind::Pairs, rel, attr);
        self.catalogue.var(place, number as usize)
    }

    /// Is it a row of a relation whose current values are wanted?
    fn is_row(&self, rel: RelId, attr: AttrId, row: RowId) -> bool
        ensures yes { result ≡ true → IsRowOf self.now rel.0 attr.0 row }
        ensures no { result ≡ false → IsRowOf self.now rel.0 attr.0 row → ⊥ }
    {
        if !self.catalogue.has_place(rel, attr) {
            return false;
        }
        let table = self.catalogue.table(rel);
        if !table.is_wanted() {
            return false;
        }
        (row.0 as usize) < table.lists().rows()
    }

    /// The literal of a pair of rows, if it is of different rows of one entity.
    fn before_if(&self, rel: RelId, attr: AttrId, earlier: RowId, later: RowId) -> Option<Lit>
        ensures some { IfSome result (λ lit. Says (statements_of self.now) lit (before rel attr earlier later)) }
        ensures none { IfNone result ((lit : Lit) → Says (statements_of self.now) lit (before rel attr earlier later) → ⊥) }
    {
        if !self.catalogue.has_place(rel, attr) {
            return None;
        }
        if !self.catalogue.table(rel).is_pair(earlier, later) {
            return None;
        }
        Some(self.before(rel, attr, earlier, later))
    }

    /// The literal that says that a row stands last, if it is a row of a wanted relation.
    fn top_if(&self, rel: RelId, attr: AttrId, row: RowId) -> Option<Lit>
        ensures some { IfSome result (λ lit. Says (statements_of self.now) lit (top rel attr row)) }
        ensures none { IfNone result ((lit : Lit) → Says (statements_of self.now) lit (top rel attr row) → ⊥) }
    {
        if !self.is_row(rel, attr, row) {
            return None;
        }
        Some(self.top(rel, attr, row))
    }

    /// The literal that says that the value which a row names is current, if the row is of a wanted relation
    /// and its own name.
    fn last_if(&self, rel: RelId, attr: AttrId, row: RowId) -> Option<Lit>
        ensures some { IfSome result (λ lit. Says (statements_of self.now) lit (last rel attr row)) }
        ensures none { IfNone result ((lit : Lit) → Says (statements_of self.now) lit (last rel attr row) → ⊥) }
    {
        if !self.catalogue.has_place(rel, attr) {
            return None;
        }
        if !self.catalogue.table(rel).is_own_name(attr, row) {
            return None;
        }
        Some(self.last(rel, attr, row))
    }

    /// The literal that says that a tuple is an answer, if so many are wanted.
    fn answer_if(&self, tuple: u32) -> Option<Lit>
        ensures some { IfSome result (λ lit. Says (statements_of self.now) lit (positive (says.Answer tuple))) }
        ensures none { IfNone result ((lit : Lit) → Says (statements_of self.now) lit (positive (says.Answer tuple)) → ⊥) }
    {
        if tuple >= self.catalogue.answers() {
            return None;
        }
        let place = self.catalogue.answers_place();
        Some(Lit::new(self.catalogue.var(place, tuple as usize), false))
    }
}
