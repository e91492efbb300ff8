ghost use Rattle.std.specs.Prelude.{◌≡◌, ◌≤◌, ◌*◌, ◌++◌, ◌∷◌, [], IfOk, OnOk};
ghost use Rattle.trial_documents.specs.Documents.{documents, questions, specification, tables};
ghost use Rattle.trial_documents.specs.Tables;

use crate::rows::{MOST_ENTITIES, ROWS};
use crate::table::{Table, table_text};
use currency_base::NoMemory;
use currency_edge::SteadyShelf;
use std::alloc::Global;

// The specification.
const SPECIFICATION: &[u8] =
    b"relation item from \"item.csv\" row id entity eid (a: int, b: int, c: int);
relation view from \"view.csv\" row id entity eid (d: int);
orders item from \"given.csv\";
rule mono on item (s, t): if s.a < t.a then s before t in a;
rule follow on item (s, t): if s before t in b then s before t in c;
copy mirror into view (d) from item (c) using \"copy.csv\";
";

/// How many rows the relations of a specification of `size` entities have, all together.
pub fn rows_of(size: u32) -> u32
    requires some { 1 ≤ size }
    requires limit { size ≤ MOST_ENTITIES }
    ensures { result ≡ 16 * size }
{
    2 * ROWS * size
}

/// The documents of a specification of `size` entities, with eight items and eight views each: the specification
/// `spec`, its tables, the table of pairs `asked.csv`, and the questions `q1` to `q4`.
pub fn trial_documents(alloc: Global, size: u32) -> Result<SteadyShelf, NoMemory>
    requires some { 1 ≤ size }
    requires limit { size ≤ MOST_ENTITIES }
    ensures { IfOk result (λ shelf. shelf ≡ documents size) }
{
    let mut shelf = SteadyShelf::new(alloc);
    put_specification(&mut shelf)?;
    put_tables(alloc, &mut shelf, size)?;
    put_questions(&mut shelf)?;
    Ok(shelf)
}

// Puts the specification.
#[tactic(auto, unfolding(crate::specs::Documents::specification_text))]
fn put_specification(shelf: &mut SteadyShelf) -> Result<(), NoMemory>
    ensures { OnOk result (shelf.new ≡ shelf.old ++ specification) }
{
    shelf.put("spec", SPECIFICATION)
}

// Puts the tables.
fn put_tables(alloc: Global, shelf: &mut SteadyShelf, size: u32) -> Result<(), NoMemory>
    requires { size ≤ MOST_ENTITIES }
    ensures { OnOk result (shelf.new ≡ shelf.old ++ tables size) }
{
    put_table(alloc, shelf, Table::Items, size)?;
    put_table(alloc, shelf, Table::Views, size)?;
    put_table(alloc, shelf, Table::Given, size)?;
    put_table(alloc, shelf, Table::Copies, size)?;
    put_table(alloc, shelf, Table::Asked, size)
}

// Puts a table.
fn put_table(
    alloc: Global,
    shelf: &mut SteadyShelf,
    table: Table,
    size: u32,
) -> Result<(), NoMemory>
    requires { size ≤ MOST_ENTITIES }
    ensures { OnOk result (shelf.new
        ≡ shelf.old ++ (Tables.name_of table, Tables.table_text table size) ∷ []) }
{
    let text = table_text(alloc, table, size)?;
    shelf.put(table.name(), text.bytes())
}

// Puts a question of each kind.
fn put_questions(shelf: &mut SteadyShelf) -> Result<(), NoMemory>
    ensures { OnOk result (shelf.new ≡ shelf.old ++ questions) }
{
    shelf.put("q1", b"consistent;\n")?;
    shelf.put("q2", b"certain orders item from \"asked.csv\";\n")?;
    shelf.put("q3", b"same item, view;\n")?;
    shelf.put(
        "q4",
        b"answers (e, x, y) where item(e, 3, x, _) and view(e, y);\n",
    )
}
