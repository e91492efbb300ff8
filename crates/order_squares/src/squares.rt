ghost use Rattle.std.specs.Prelude.{◌≡◌, ◌<◌, ◌*◌, ℕ, Some, IfOk, IfSome, IfNone, length, slice_get};
ghost use Rattle.spec_model.specs.Facts.{AreRelations};
ghost use Rattle.spec_model.specs.declared.relation.Relation.{Relation};
ghost use Rattle.horn_closure.specs.Least.{cells_of};
ghost use Rattle.order_squares.specs.Entities.{count_of, entities_in};
ghost use Rattle.order_squares.specs.Squares.{attrs_of, square_at, AreRowsAt, IsLayout, IsSlot, Stand};

use crate::Square;
use crate::bases::{bases_of, slot_in};
use crate::groups::Groups;
use crate::listing::{list_squares, sizes_of};
use currency_base::{AttrId, EntId, NoMemory, Pair, RelId, RowId};
use flat_lists::{FlatLists, last_up_to};
use spec_model::Relation;
use std::alloc::Global;
use std::marker::Model;

/// The squares of a specification's relations and the slots of their cells: those of one square after those of another,
/// each row by row. Contracts see the relations, the squares and their sizes.
#[derive(Drop)]
pub struct Squares<'a> {
    groups: Groups<'a>,
    // for each relation and attribute the number of its first square
    starts: FlatLists<usize>,
    squares: Vec<Square>,
    sizes: Vec<u32>,
    // how many cells the squares before each one have, and those before the end
    bases: Vec<u32>,
}

impl<'a> Model for Squares<'a> {
    ghost use Rattle.order_squares.specs.Squares.{Layout, IsLaidOut};

    ghost Value = { Layout };

    ghost view = { λ s. record { relations = s.groups; squares = s.squares.items; sizes = s.sizes.items } };

    ghost invariant = { λ s. IsLaidOut
        (record { relations = s.groups; squares = s.squares.items; sizes = s.sizes.items }) s.starts s.bases.items };
}

impl<'a> Squares<'a> {
    /// The squares of these relations. Takes time in proportion to their rows, and to attributes times entities.
    pub fn new(alloc: Global, relations: &'a [Relation]) -> Result<Squares<'a>, NoMemory>
        requires { AreRelations relations.now }
        ensures { IfOk result (λ squares. squares.relations ≡ relations.now) }
    {
        let groups = Groups::new(alloc, relations)?;
        let listed = list_squares(alloc, relations)?;
        let sizes = sizes_of(alloc, &groups, &listed.squares)?;
        let bases = bases_of(alloc, &sizes)?;
        Ok(Squares {
            groups,
            starts: listed.starts,
            squares: listed.squares,
            sizes,
            bases,
        })
    }

    /// The sizes of the squares, in their order.
    pub fn sizes(&self) -> &[u32]
        ensures value { result.now ≡ self.now.sizes }
        ensures facts { IsLayout self.now }
    {
        &self.sizes
    }

    /// How many cells there are.
    pub fn cells(&self) -> usize
        ensures { result ≡ cells_of self.now.sizes }
    {
        self.bases[self.squares.len()] as usize
    }

    /// The slot of a pair, if its rows are of one entity. Takes constant time and no memory.
    pub fn slot(&self, rel: RelId, pair: Pair) -> Option<u32>
        requires rel { rel.0 < length self.now.relations }
        requires attr { (r : Relation) → slice_get self.now.relations rel.0 ≡ Some r → pair.attr.0 < length r.attrs }
        ensures some { IfSome result (λ slot. IsSlot self.now rel.0 pair.attr.0 pair.earlier pair.later slot) }
        ensures none { IfNone result ((slot : ℕ) → IsSlot self.now rel.0 pair.attr.0 pair.earlier pair.later slot → ⊥) }
    {
        let Some(earlier) = self.groups.entity(rel, pair.earlier) else {
            return None;
        };
        let Some(later) = self.groups.entity(rel, pair.later) else {
            return None;
        };
        if earlier == later {
            Some(self.slot_of_entity(rel, earlier, pair))
        } else {
            None
        }
    }

    /// The slot of a pair of rows of one entity. Takes constant time and no memory.
    pub fn slot_of(&self, rel: RelId, pair: Pair) -> u32
        requires { Stand self.now.relations rel.0 pair.attr.0 pair.earlier pair.later }
        ensures { IsSlot self.now rel.0 pair.attr.0 pair.earlier pair.later result }
    {
        match self.groups.entity(rel, pair.earlier) {
            Some(ent) => self.slot_of_entity(rel, ent, pair),
            None => unreachable!(),
        }
    }

    // The slot of a pair of rows of this entity.
    fn slot_of_entity(&self, rel: RelId, ent: EntId, pair: Pair) -> u32
        requires attr { pair.attr.0 < attrs_of self.now.relations rel.0 }
        requires ent { ent.0 < count_of self.now.relations rel.0 }
        requires earlier { slice_get (entities_in self.now.relations rel.0) pair.earlier.0 ≡ Some ent.0 }
        requires later { slice_get (entities_in self.now.relations rel.0) pair.later.0 ≡ Some ent.0 }
        ensures { IsSlot self.now rel.0 pair.attr.0 pair.earlier pair.later result }
    {
        let square = self.number(rel, pair.attr, ent);
        let row = self.groups.place(rel, pair.earlier);
        let column = self.groups.place(rel, pair.later);
        slot_in(self.bases[square], self.sizes[square], row, column)
    }

    // The number of the square of an attribute and an entity.
    fn number(&self, rel: RelId, attr: AttrId, ent: EntId) -> usize
        requires attr { attr.0 < attrs_of self.now.relations rel.0 }
        requires ent { ent.0 < count_of self.now.relations rel.0 }
        ensures { slice_get self.now.squares result ≡ Some (square_at rel.0 attr.0 ent.0) }
    {
        let _ = self.squares.len();
        let starts = self.starts.get(rel.0 as usize);
        starts[attr.0 as usize] + ent.0 as usize
    }

    /// The pair of a slot, and its relation. Takes logarithmic time and no memory.
    pub fn pair_at(&self, slot: u32) -> (RelId, Pair)
        requires { slot < cells_of self.now.sizes }
        ensures { IsSlot self.now result.0.0 result.1.attr.0 result.1.earlier result.1.later slot }
    {
        let number = last_up_to(&self.bases, slot);
        let square = self.squares[number];
        let members = self.groups.members(square.rel, square.ent);
        let (earlier, later) = rows_at(members, slot - self.bases[number]);
        let attr = square.attr;
        (
            square.rel,
            Pair {
                attr,
                earlier,
                later,
            },
        )
    }
}

// The rows of a cell of the square of these rows.
fn rows_at(members: &[RowId], cell: u32) -> (RowId, RowId)
    requires { cell < length members.now * length members.now }
    ensures { AreRowsAt members.now cell result.0 result.1 }
{
    let cell = cell as usize;
    let size = members.len();
    (members[cell / size], members[cell % size])
}
