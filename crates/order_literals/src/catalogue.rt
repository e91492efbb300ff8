ghost use Rattle.std.specs.Prelude.{◌≡◌, ◌<◌, ◌^◌, ℕ, Some, true, false, length, slice_get, slice_index, IfOk};
ghost use Rattle.order_literals.specs.Numbers.{Numbered};
ghost use Rattle.order_literals.specs.Statements.{blocks_of, block_statements, statements_of};
ghost use Rattle.order_literals.specs.Layout.{block_of, firsts_of_tables, HasPlace, HasStatement, IsBlockOf};
ghost use Rattle.order_literals.specs.declared.block.Block.TheVariants.{Answers};

use crate::block::{Block, BlockKind};
use crate::blocks::{all_blocks, all_starts, block_at, firsts_of};
use crate::table::Table;
use crate::tables::table_at;
use currency_base::{AttrId, NoMemory, RelId, RowId};
use refutation_log::Statement;
use std::alloc::Global;
use std::marker::Model;

/// The tables of relations, and where the statements on them stand. Contracts see what is numbered.
#[derive(Drop)]
pub(crate) struct Catalogue {
    tables: Vec<Table>,
    answers: u32,
    // for each relation, and for one more, how many attributes those before it have
    firsts: Vec<u32>,
    blocks: Vec<Block>,
    // for each block, and for one more, how many statements those before it have
    starts: Vec<u32>,
}

impl Model for Catalogue {
    ghost use Rattle.order_literals.specs.Numbers.{Numbers};
    ghost use Rattle.order_literals.specs.Layout.{AreLaidOut};

    ghost Value = { Numbers };

    ghost view = { λ c. record { tables = c.tables.items; answers = c.answers } };

    ghost invariant = { λ c. AreLaidOut (record { tables = c.tables.items; answers = c.answers }) c.firsts.items
        c.blocks.items c.starts.items };
}

impl Catalogue {
    /// The catalogue of these tables and so many answers.
    pub(crate) fn new(
        alloc: Global,
        tables: Vec<Table>,
        answers: u32,
    ) -> Result<Catalogue, NoMemory>
        requires few_tables { length tables.items < 2 ^ 32 }
        requires few { length (statements_of (record { tables = tables.items; answers = answers })) < 2 ^ 31 }
        ensures { IfOk result (λ c. c ≡ record { tables = tables.items; answers = answers }) }
    {
        let firsts = match firsts_of(alloc, &tables) {
            Ok(firsts) => firsts,
            Err(fault) => return Err(fault),
        };
        let blocks = match all_blocks(alloc, &tables) {
            Ok(blocks) => blocks,
            Err(fault) => return Err(fault),
        };
        let starts = match all_starts(alloc, &tables, answers, &blocks) {
            Ok(starts) => starts,
            Err(fault) => return Err(fault),
        };
        Ok(Catalogue {
            tables,
            answers,
            firsts,
            blocks,
            starts,
        })
    }

    /// How many statements there are.
    pub(crate) fn len(&self) -> u32
        ensures value { result ≡ length (statements_of self.now) }
        ensures few { result < 2 ^ 31 }
    {
        start_at(&self.starts, self.blocks.len())
    }

    /// How many answers are numbered.
    pub(crate) fn answers(&self) -> u32
        ensures { result ≡ self.now.answers }
    {
        self.answers
    }

    /// The table of a relation.
    pub(crate) fn table(&self, rel: RelId) -> &Table
        requires { rel.0 < length self.now.tables }
        ensures { slice_get self.now.tables rel.0 ≡ Some result.now }
    {
        table_at(&self.tables, rel)
    }

    /// Is there such an attribute?
    pub(crate) fn has_place(&self, rel: RelId, attr: AttrId) -> bool
        ensures yes { result ≡ true → HasPlace self.now.tables rel.0 attr.0 }
        ensures no { result ≡ false → HasPlace self.now.tables rel.0 attr.0 → ⊥ }
        ensures within { result ≡ true → rel.0 < length self.now.tables }
    {
        if rel.0 as usize >= self.tables.len() {
            return false;
        }
        attr.0 < self.table(rel).attrs()
    }

    /// The place of the block of a kind on an attribute of a relation.
    pub(crate) fn place(&self, kind: BlockKind, rel: RelId, attr: AttrId) -> usize
        requires { HasPlace self.now.tables rel.0 attr.0 }
        ensures { slice_get (blocks_of self.now) result ≡ Some (block_of kind rel attr) }
    {
        place_of(&self.tables, &self.firsts, kind, rel, attr)
    }

    /// The place of the block of answers.
    pub(crate) fn answers_place(&self) -> usize
        ensures { slice_get (blocks_of self.now) result ≡ Some Answers }
    {
        self.blocks.len() - 1
    }

    /// The variable of a statement by its number in a block.
    pub(crate) fn var(&self, place: usize, number: usize) -> u32
        requires { HasStatement self.now place number }
        ensures value { (block : Block) → slice_get (blocks_of self.now) place ≡ Some block
            → slice_get (statements_of self.now) result ≡ slice_get (block_statements self.now block) number }
        ensures few { result < 2 ^ 31 }
    {
        (start_at(&self.starts, place) as usize + number) as u32
    }

    /// The statement of a variable. Takes logarithmic time.
    pub(crate) fn statement(&self, var: u32) -> Statement
        requires { var < length (statements_of self.now) }
        ensures { slice_get (statements_of self.now) var ≡ Some result }
    {
        let place = block_at(&self.starts, var);
        let start = start_at(&self.starts, place);
        self.statement_in(block_in(&self.blocks, place), var - start)
    }

    /// The statement with this number in a block.
    fn statement_in(&self, block: Block, number: u32) -> Statement
        requires block { IsBlockOf self.now.tables block }
        requires within { number < length (block_statements self.now block) }
        ensures { slice_get (block_statements self.now block) number ≡ Some result }
    {
        match block {
            Block::Pairs { rel, attr } => {
                let pair = self.table(rel).pairs().pair(number);
                Statement::Before {
                    rel,
                    attr,
                    earlier: pair.earlier,
                    later: pair.later,
                }
            }
            Block::Tops { rel, attr } => Statement::Top {
                rel,
                attr,
                row: RowId(number),
            },
            Block::Lasts { rel, attr } => {
                let row = self.table(rel).value(attr, number);
                Statement::Last { rel, attr, row }
            }
            Block::Answers => Statement::Answer { tuple: number },
        }
    }
}

/// The place of the block of a kind on an attribute of a relation.
fn place_of(tables: &[Table], firsts: &[u32], kind: BlockKind, rel: RelId, attr: AttrId) -> usize
    requires firsts { firsts.now ≡ firsts_of_tables tables.now }
    requires place { HasPlace tables.now rel.0 attr.0 }
    ensures { (answers : ℕ) → slice_get (blocks_of (record { tables = tables.now; answers = answers })) result ≡ Some
        (block_of kind rel attr) }
{
    let within = firsts[rel.0 as usize] as usize + attr.0 as usize;
    let places = firsts[tables.len()] as usize;
    match kind {
        BlockKind::Pairs => within,
        BlockKind::Tops => places + within,
        BlockKind::Lasts => 2 * places + within,
    }
}

/// The start of the block at a place.
fn start_at(starts: &[u32], place: usize) -> u32
    requires { place < length starts.now }
    ensures { result ≡ slice_index starts.now place }
{
    starts[place]
}

/// The block at a place.
fn block_in(blocks: &[Block], place: usize) -> Block
    requires { place < length blocks.now }
    ensures { slice_get blocks.now place ≡ Some result }
{
    blocks[place]
}
