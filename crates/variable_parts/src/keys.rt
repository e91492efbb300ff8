ghost use Rattle.std.specs.Prelude.{◌≡◌, ◌<◌, ◌++◌, ◌^◌, Some, length, map, replicate, slice_get, false, true, IfOk, OnOk};
ghost use Rattle.std.specs.List.{flat_map, range_with_len};
ghost use Rattle.spec_model.specs.declared.relation.Relation.{Relation};
ghost use Rattle.value_names.specs.Names.{firsts_of, names_of, row_ids};
ghost use Rattle.order_literals.specs.Numbers.{is_wanted};
ghost use Rattle.order_literals.specs.Statements.{blocks_from};
ghost use Rattle.variable_parts.specs.Told.{HasAttr, IsBlockIn, block_keys, block_of, keys_of, numbers_in, pair_keys, row_key, rows_in};

use crate::source::Source;
use currency_base::{AttrId, NoMemory, RelId, RowId};
use order_literals::Block;
use std::alloc::Global;

/// A kind of blocks on attributes of relations.
#[derive(Clone, Copy)]
pub(crate) enum Kind {
    Pairs,
    Tops,
    Lasts,
}

impl Kind {
    /// The block of this kind on an attribute of a relation.
    fn block(self, rel: RelId, attr: AttrId) -> Block
        ensures { result ≡ block_of self rel attr }
    {
        match self {
            Kind::Pairs => Block::Pairs { rel, attr },
            Kind::Tops => Block::Tops { rel, attr },
            Kind::Lasts => Block::Lasts { rel, attr },
        }
    }
}

/// The part of each numbered statement, in the order of the statements; of a statement on an answer, how many parts there
/// are. Takes constant time for a statement and no search.
pub(crate) fn statement_keys(alloc: Global, source: &Source<'_>) -> Result<Vec<u32>, NoMemory>
    ensures keys { IfOk result (λ keys. keys.items ≡ keys_of source.now) }
    ensures few { length (keys_of source.now) < 2 ^ 31 }
{
    let mut keys = Vec::with_capacity(alloc, source.vars())?;
    push_kind(source, Kind::Pairs, &mut keys)?;
    push_kind(source, Kind::Tops, &mut keys)?;
    push_kind(source, Kind::Lasts, &mut keys)?;
    push_block(source, Block::Answers, &mut keys)?;
    Ok(keys)
}

// Of the blocks of a kind.
fn push_kind(source: &Source<'_>, kind: Kind, keys: &mut Vec<u32>) -> Result<(), NoMemory>
    ensures { OnOk result (keys.new.items ≡ keys.old.items
        ++ flat_map (block_keys source.now) (blocks_from (block_of kind) 0 (numbers_in source.now).tables)) }
{
    for rel in 0..source.relations() {
        push_relation(source, kind, RelId(rel as u32), keys)?;
    }
    Ok(())
}

// Of the blocks of a kind for one relation.
fn push_relation(
    source: &Source<'_>,
    kind: Kind,
    rel: RelId,
    keys: &mut Vec<u32>,
) -> Result<(), NoMemory>
    requires { rel.0 < length source.now.spec.relations }
    ensures { OnOk result ((r : Relation) → slice_get source.now.spec.relations rel.0 ≡ Some r → keys.new.items ≡ keys.old.items
        ++ flat_map (block_keys source.now) (map (λ attr. block_of kind rel (record { 0 = attr }))
        (range_with_len 0 (length r.attrs)))) }
{
    for attr in 0..source.attrs(rel) {
        push_block(source, kind.block(rel, AttrId(attr as u32)), keys)?;
    }
    Ok(())
}

// Of a block.
fn push_block(source: &Source<'_>, block: Block, keys: &mut Vec<u32>) -> Result<(), NoMemory>
    requires { IsBlockIn source.now block }
    ensures { OnOk result (keys.new.items ≡ keys.old.items ++ block_keys source.now block) }
{
    match block {
        Block::Pairs { rel, attr: _ } => push_pairs(source, rel, keys),
        Block::Tops { rel, attr: _ } => push_tops(source, rel, keys),
        Block::Lasts { rel, attr } => push_lasts(source, rel, attr, keys),
        Block::Answers => append(keys, source.parts(), source.answers() as usize),
    }
}

// Of the pairs of rows, by their first rows.
fn push_pairs(source: &Source<'_>, rel: RelId, keys: &mut Vec<u32>) -> Result<(), NoMemory>
    requires { rel.0 < length source.now.spec.relations }
    ensures { OnOk result (keys.new.items ≡ keys.old.items ++ pair_keys source.now rel) }
{
    for row in 0..source.rows(rel) {
        let row = RowId(row as u32);
        append(keys, source.part(rel, row), source.laters(rel, row))?;
    }
    Ok(())
}

// Of the rows that stand last, if they are wanted.
fn push_tops(source: &Source<'_>, rel: RelId, keys: &mut Vec<u32>) -> Result<(), NoMemory>
    requires { rel.0 < length source.now.spec.relations }
    ensures wanted { OnOk result (is_wanted source.now.wanted.currents rel.0 ≡ true
        → keys.new.items ≡ keys.old.items ++ map (row_key source.now rel) (row_ids (length (rows_in source.now rel)))) }
    ensures other { is_wanted source.now.wanted.currents rel.0 ≡ false → keys.new.items ≡ keys.old.items }
{
    if !source.is_wanted(rel) {
        return Ok(());
    }
    push_rows(source, rel, keys)
}

// Of all rows.
fn push_rows(source: &Source<'_>, rel: RelId, keys: &mut Vec<u32>) -> Result<(), NoMemory>
    requires { rel.0 < length source.now.spec.relations }
    ensures { OnOk result (keys.new.items ≡ keys.old.items ++ map (row_key source.now rel)
        (row_ids (length (rows_in source.now rel)))) }
{
    for row in 0..source.rows(rel) {
        keys.push(source.part(rel, RowId(row as u32)))?;
    }
    Ok(())
}

// Of the current values, if they are wanted.
fn push_lasts(
    source: &Source<'_>,
    rel: RelId,
    attr: AttrId,
    keys: &mut Vec<u32>,
) -> Result<(), NoMemory>
    requires { HasAttr source.now rel attr }
    ensures wanted { OnOk result (is_wanted source.now.wanted.currents rel.0 ≡ true → keys.new.items ≡ keys.old.items
        ++ map (row_key source.now rel) (firsts_of (names_of (rows_in source.now rel) attr.0))) }
    ensures other { is_wanted source.now.wanted.currents rel.0 ≡ false → keys.new.items ≡ keys.old.items }
{
    if !source.is_wanted(rel) {
        return Ok(());
    }
    push_names(source, rel, attr, keys)
}

// Of the rows that name values.
fn push_names(
    source: &Source<'_>,
    rel: RelId,
    attr: AttrId,
    keys: &mut Vec<u32>,
) -> Result<(), NoMemory>
    requires attr { HasAttr source.now rel attr }
    requires wanted { is_wanted source.now.wanted.currents rel.0 ≡ true }
    ensures { OnOk result (keys.new.items ≡ keys.old.items
        ++ map (row_key source.now rel) (firsts_of (names_of (rows_in source.now rel) attr.0))) }
{
    for row in 0..source.rows(rel) {
        let row = RowId(row as u32);
        if source.is_name(rel, attr, row) {
            keys.push(source.part(rel, row))?;
        }
    }
    Ok(())
}

// A part so many times.
fn append(keys: &mut Vec<u32>, part: u32, count: usize) -> Result<(), NoMemory>
    requires { count < 2 ^ 32 }
    ensures { OnOk result (keys.new.items ≡ keys.old.items ++ replicate count part) }
{
    keys.resize(keys.len() + count, part)?;
    Ok(())
}
