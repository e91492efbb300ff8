ghost use Rattle.std.specs.Prelude.{◌≡◌, ◌+◌, ◌-◌, ◌<◌, ◌≤◌, ◌^◌, ◌++◌, ◌∷◌, ℕ, [], All, Some, length, map, nat_le, slice_get, slice_index, IfOk, OnOk};
ghost use Rattle.std.specs.List.{flat_map, range_with_len};
ghost use Rattle.order_literals.specs.Statements.{blocks_from, blocks_of, block_statements};
ghost use Rattle.order_literals.specs.Layout.{block_of, firsts_of_tables, starts_of, AreAround, IsBlockOf};

use crate::block::{Block, BlockKind};
use crate::table::Table;
use crate::tables::table_at;
use currency_base::{AttrId, NoMemory, RelId};
use std::alloc::Global;

/// For each relation, and for one more, how many attributes those before it have. It is refused where there
/// are 2^32 or more.
pub(crate) fn firsts_of(alloc: Global, tables: &[Table]) -> Result<Vec<u32>, NoMemory>
    ensures { IfOk result (λ firsts. firsts.items ≡ firsts_of_tables tables.now) }
{
    let mut firsts = Vec::new(alloc);
    let mut total = 0u32;
    for rel in 0..tables.len() {
        let Ok(()) = firsts.push(total) else {
            return Err(NoMemory);
        };
        let Some(next) = total.checked_add(tables[rel].attrs()) else {
            return Err(NoMemory);
        };
        total = next;
    }
    match firsts.push(total) {
        Ok(()) => Ok(firsts),
        Err(_) => Err(NoMemory),
    }
}

/// All blocks: by kind, then by relation, then by attribute.
pub(crate) fn all_blocks(alloc: Global, tables: &[Table]) -> Result<Vec<Block>, NoMemory>
    requires { length tables.now < 2 ^ 32 }
    ensures { IfOk result (λ blocks. (answers : ℕ) → blocks.items ≡ blocks_of
        (record { tables = tables.now; answers = answers })) }
{
    let mut blocks = Vec::new(alloc);
    let Ok(()) = push_kind(&mut blocks, BlockKind::Pairs, tables) else {
        return Err(NoMemory);
    };
    let Ok(()) = push_kind(&mut blocks, BlockKind::Tops, tables) else {
        return Err(NoMemory);
    };
    let Ok(()) = push_kind(&mut blocks, BlockKind::Lasts, tables) else {
        return Err(NoMemory);
    };
    match blocks.push(Block::Answers) {
        Ok(()) => Ok(blocks),
        Err(_) => Err(NoMemory),
    }
}

/// Puts the blocks of a kind after the others.
fn push_kind(blocks: &mut Vec<Block>, kind: BlockKind, tables: &[Table]) -> Result<(), NoMemory>
    requires { length tables.now < 2 ^ 32 }
    ensures { OnOk result (blocks.new.items ≡ blocks.old.items ++ blocks_from (block_of kind) 0 tables.now) }
{
    for rel in 0..tables.len() {
        let Ok(()) = push_relation(blocks, kind, RelId(rel as u32), tables[rel].attrs()) else {
            return Err(NoMemory);
        };
    }
    Ok(())
}

/// Puts the blocks of a kind for a relation with so many attributes after the others.
fn push_relation(
    blocks: &mut Vec<Block>,
    kind: BlockKind,
    rel: RelId,
    attrs: u32,
) -> Result<(), NoMemory>
    ensures { OnOk result (blocks.new.items
        ≡ blocks.old.items ++ map (λ attr. block_of kind rel (record { 0 = attr })) (range_with_len 0 attrs)) }
{
    for attr in 0..attrs {
        let Ok(()) = blocks.push(kind.block(rel, AttrId(attr))) else {
            return Err(NoMemory);
        };
    }
    Ok(())
}

/// How many statements a block has.
#[tactic(auto, using(crate::proofs::Lengths::count_of_answers))]
fn block_len(tables: &[Table], answers: u32, block: Block) -> usize
    requires { IsBlockOf tables.now block }
    ensures { result ≡ length (block_statements (record { tables = tables.now; answers = answers }) block) }
{
    match block {
        Block::Pairs { rel, .. } => table_at(tables, rel).pairs().len() as usize,
        Block::Tops { rel, .. } => table_at(tables, rel).tops(),
        Block::Lasts { rel, attr } => table_at(tables, rel).lasts(attr),
        Block::Answers => answers as usize,
    }
}

/// For each block, and for one more, how many statements those before it have.
pub(crate) fn all_starts(
    alloc: Global,
    tables: &[Table],
    answers: u32,
    blocks: &[Block],
) -> Result<Vec<u32>, NoMemory>
    requires few { length (flat_map (block_statements (record { tables = tables.now; answers = answers })) blocks.now) < 2 ^ 31 }
    requires blocks { All (IsBlockOf tables.now) blocks.now }
    ensures { IfOk result (λ starts. starts.items ≡ starts_of (record { tables = tables.now; answers = answers }) blocks.now) }
{
    let mut starts = Vec::new(alloc);
    let mut total = 0;
    for place in 0..blocks.len() {
        let Ok(()) = starts.push(total as u32) else {
            return Err(NoMemory);
        };
        total += block_len(tables, answers, blocks[place]);
    }
    match starts.push(total as u32) {
        Ok(()) => Ok(starts),
        Err(_) => Err(NoMemory),
    }
}

/// The block in which a variable lies.
pub(crate) fn block_at(starts: &[u32], var: u32) -> usize
    requires { AreAround starts.now var }
    ensures within { result + 1 < length starts.now }
    ensures from { slice_index starts.now result ≤ var }
    ensures to { var < slice_index starts.now (result + 1) }
{
    starts.partition_point(
        |start: &u32| -> bool
            ensures { result ≡ nat_le start.now var }
        { *start <= var },
    ) - 1
}
