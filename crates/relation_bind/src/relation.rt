ghost use Rattle.std.specs.Prelude.{◌≡◌, ◌≤◌, ℕ, List, [], None, map, Contains, IfOk, IfSome};
ghost use Rattle.currency_edge.specs.Fault.{Rose};
ghost use Rattle.table_rows.specs.Rows.{AreRows};
ghost use Rattle.bind_faults.specs.Faults.{IsDetermined, IsReadFault, IsReadFaultOf};
ghost use Rattle.relation_bind.specs.Relations.{attr_of, kinds_declared, relation_of, IsDeclared, IsTableOf};
ghost use Rattle.relation_bind.specs.Steps.{names_of_attrs, RowsHaveKinds};

use crate::declaration::Declaration;
use crate::head::check_head;
use crate::named::NamedRelation;
use crate::table::read_rows;
use bind_faults::BindFault;
use currency_base::{Name, NameList, NoMemory, Rows};
use currency_edge::Shelf;
use name_index::NameIndex;
use spec_model::{Attr, AttrList, Pairs, Relation};
use spec_names::RelationNames;
use spec_syntax::AttrTree;
use std::alloc::Global;
use table_rows::TableRows;

/// The greatest id of an attribute.
const LAST_ID: usize = 4294967294;

/// The relation that a declaration and its table say, where these names of relations are taken. A taken
/// name is refused first, and then what is wrong in the table, which is read once the names are right.
pub fn bind_relation<S: Shelf>(
    alloc: Global,
    taken: &NameIndex,
    declaration: &Declaration,
    shelf: &mut S,
) -> Result<NamedRelation, BindFault>
    ensures kept { S.texts shelf.new ≡ S.texts shelf.old }
    ensures later { S.faults shelf.old ≤ S.faults shelf.new }
    ensures declared { IsDetermined result
        → IfSome (S.texts shelf.old) (λ told. IsDeclared told taken.now declaration.now result) }
    ensures fresh { IfOk result (λ r. Contains taken.now r.name → ⊥) }
    ensures read_fault { IsReadFault result → Rose (S.faults shelf.old) (S.faults shelf.new) }
    ensures table { (name : List ℕ) → IsReadFaultOf result name → IsTableOf taken.now declaration.now name }
{
    let names = check_head(alloc, taken, declaration)?;
    let rows = read_rows(alloc, declaration, shelf)?;
    match named_relation(alloc, declaration, names, rows) {
        Ok(relation) => Ok(relation),
        Err(NoMemory) => Err(BindFault::NoMemory),
    }
}

/// The relation of a declaration and the rows of its table, with its names. Where ids of 32 bits would
/// not do, it answers want of memory: no document has so many attributes.
fn named_relation(
    alloc: Global,
    declaration: &Declaration,
    attrs: NameIndex,
    table: TableRows,
) -> Result<NamedRelation, NoMemory>
    requires rows { AreRows table }
    requires values { RowsHaveKinds (kinds_declared declaration.now) table.rows }
    requires attrs { attrs ≡ names_of_attrs declaration.now.attrs }
    ensures { IfOk result (λ r. r ≡ relation_of declaration.now table) }
{
    if attrs.names().len() > LAST_ID {
        return Err(NoMemory);
    }
    let relation = new_relation(alloc, declaration, table.rows, table.entities.names())?;
    let names = RelationNames {
        attrs,
        rows: table.names,
        entities: table.entities,
    };
    Ok(NamedRelation::new(relation, names))
}

/// The relation of a declaration, with these rows and entities.
fn new_relation(
    alloc: Global,
    declaration: &Declaration,
    rows: Rows,
    entities: &[Name],
) -> Result<Relation, NoMemory>
    ensures { IfOk result (λ r. r ≡ record {
      name = declaration.now.name.name;
      attrs = map attr_of declaration.now.attrs;
      rows = rows;
      entities = entities.now;
      given = [];
    }) }
{
    Ok(Relation {
        name: declaration.name.name.duplicate(alloc)?,
        attrs: declared_attrs(alloc, declaration.attrs.as_slice())?,
        rows,
        entities: copied_names(alloc, entities)?,
        given: Pairs::new(alloc),
    })
}

/// The attributes that are declared.
fn declared_attrs(alloc: Global, attrs: &[AttrTree]) -> Result<AttrList, NoMemory>
    ensures { IfOk result (λ list. list ≡ map attr_of attrs.now) }
{
    let mut list = AttrList::new(alloc);
    for attr in attrs {
        list.push(declared_attr(alloc, attr)?)?;
    }
    Ok(list)
}

/// The attribute that is declared.
fn declared_attr(alloc: Global, attr: &AttrTree) -> Result<Attr, NoMemory>
    ensures { IfOk result (λ a. a ≡ attr_of attr.now) }
{
    Ok(Attr {
        name: attr.name.name.duplicate(alloc)?,
        kind: attr.kind,
    })
}

/// The names, copied.
fn copied_names(alloc: Global, names: &[Name]) -> Result<NameList, NoMemory>
    ensures { IfOk result (λ list. list ≡ names.now) }
{
    let mut list = NameList::new(alloc);
    for name in names {
        list.push(name.duplicate(alloc)?)?;
    }
    Ok(list)
}
