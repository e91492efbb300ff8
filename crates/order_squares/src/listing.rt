ghost use Rattle.std.specs.Prelude.{◌≡◌, ◌<◌, ◌++◌, ◌^◌, All, IfOk, OnOk, length, map};
ghost use Rattle.spec_model.specs.Facts.{IsRelation, AreRelations};
ghost use Rattle.order_squares.specs.Entities.{count_of};
ghost use Rattle.order_squares.specs.Squares.{AreListed, GoesOn, column_of, size_of};

use crate::Square;
use crate::groups::Groups;
use currency_base::{AttrId, EntId, NoMemory, RelId};
use flat_lists::FlatLists;
use spec_model::Relation;
use std::alloc::Global;

/// The squares in their order, and for each relation and attribute the number of its first square.
#[derive(Drop)]
pub(crate) struct Listed {
    pub(crate) squares: Vec<Square>,
    pub(crate) starts: FlatLists<usize>,
}

/// The squares of these relations.
pub(crate) fn list_squares(alloc: Global, relations: &[Relation]) -> Result<Listed, NoMemory>
    requires { AreRelations relations.now }
    ensures { IfOk result (λ l. AreListed relations.now l.starts l.squares.items) }
{
    let mut squares = Vec::new(alloc);
    let mut starts = FlatLists::new(alloc);
    for rel in 0..relations.len() {
        let column = add_squares(alloc, &mut squares, &relations[rel], RelId(rel as u32))?;
        starts.push(&column)?;
    }
    Ok(Listed { squares, starts })
}

// Puts the squares of a relation after the others: for each attribute the number of its first square.
fn add_squares(
    alloc: Global,
    squares: &mut Vec<Square>,
    relation: &Relation,
    rel: RelId,
) -> Result<Vec<usize>, NoMemory>
    requires { IsRelation relation.now }
    ensures squares { IfOk result (λ column. GoesOn relation.now rel.0 squares.old.items column.items squares.new.items) }
    ensures attrs { IfOk result (λ column. length column.items ≡ length relation.now.attrs) }
{
    let entities = relation.entities.len();
    let mut column = Vec::new(alloc);
    for attr in 0..relation.attrs.len() {
        column.push(squares.len())?;
        add_column(squares, rel, AttrId(attr as u32), entities)?;
    }
    Ok(column)
}

// Puts the squares of an attribute after the others.
#[tactic(auto, using(crate::proofs::Columns::column_more))]
fn add_column(
    squares: &mut Vec<Square>,
    rel: RelId,
    attr: AttrId,
    entities: usize,
) -> Result<(), NoMemory>
    requires { entities < 2 ^ 32 }
    ensures { OnOk result (squares.new.items ≡ squares.old.items ++ column_of rel.0 attr.0 entities) }
{
    for ent in 0..entities {
        squares.push(Square {
            rel,
            attr,
            ent: EntId(ent as u32),
        })?;
    }
    Ok(())
}

/// How many rows the entity of each square has.
pub(crate) fn sizes_of(
    alloc: Global,
    groups: &Groups<'_>,
    squares: &[Square],
) -> Result<Vec<u32>, NoMemory>
    requires { All (λ q. q.ent.0 < count_of groups.now q.rel.0) squares.now }
    ensures { IfOk result (λ sizes. sizes.items ≡ map (size_of groups.now) squares.now) }
{
    let mut sizes = Vec::with_capacity(alloc, squares.len())?;
    for square in squares {
        sizes.push(size_of(groups, *square))?;
    }
    Ok(sizes)
}

// How many rows the entity of a square has.
fn size_of(groups: &Groups<'_>, square: Square) -> u32
    requires { square.ent.0 < count_of groups.now square.rel.0 }
    ensures { result ≡ size_of groups.now square }
{
    groups.members(square.rel, square.ent).len() as u32
}
