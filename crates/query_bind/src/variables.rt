// The variables of a disjunct's atoms, numbered by the places at which they stand first.

ghost use Rattle.std.specs.Prelude.{◌≡◌, IfOk, OnOk, map};
ghost use Rattle.std.specs.List.{fold};
ghost use Rattle.query_bind.specs.Queried.{vars_of, with_name, with_part, with_place};

use currency_base::{ItemList, Name, NoMemory};
use name_index::NameIndex;
use query_syntax::{DisjunctTree, PartTree, PlaceTree};
use std::alloc::Global;

/// The variables of a disjunct.
pub fn vars_of(alloc: Global, disjunct: &DisjunctTree) -> Result<NameIndex, NoMemory>
    ensures { IfOk result (λ vars. vars ≡ vars_of disjunct.now) }
{
    let mut vars = NameIndex::new(alloc);
    add_places(alloc, &mut vars, disjunct.first.places.as_slice())?;
    add_parts(alloc, &mut vars, disjunct.parts.as_slice())?;
    Ok(vars)
}

/// The variables of each disjunct.
pub fn vars_of_each(
    alloc: Global,
    disjuncts: &[DisjunctTree],
) -> Result<ItemList<NameIndex>, NoMemory>
    ensures { IfOk result (λ each. each ≡ map vars_of disjuncts.now) }
{
    let mut each = ItemList::new(alloc);
    for disjunct in disjuncts {
        each.push(vars_of(alloc, disjunct)?)?;
    }
    Ok(each)
}

/// Adds the variables of parts.
fn add_parts(alloc: Global, vars: &mut NameIndex, parts: &[PartTree]) -> Result<(), NoMemory>
    ensures { OnOk result (vars.new ≡ fold with_part vars.old parts.now) }
{
    for part in parts {
        add_part(alloc, vars, part)?;
    }
    Ok(())
}

/// Adds the variables of a part.
fn add_part(alloc: Global, vars: &mut NameIndex, part: &PartTree) -> Result<(), NoMemory>
    ensures { OnOk result (vars.new ≡ with_part vars.old part.now) }
{
    match part {
        PartTree::Atom(atom) => add_places(alloc, vars, atom.places.as_slice()),
        PartTree::Test(_) => Ok(()),
    }
}

/// Adds the variables of places.
fn add_places(alloc: Global, vars: &mut NameIndex, places: &[PlaceTree]) -> Result<(), NoMemory>
    ensures { OnOk result (vars.new ≡ fold with_place vars.old places.now) }
{
    for place in places {
        add_place(alloc, vars, place)?;
    }
    Ok(())
}

/// Adds the variable of a place.
fn add_place(alloc: Global, vars: &mut NameIndex, place: &PlaceTree) -> Result<(), NoMemory>
    ensures { OnOk result (vars.new ≡ with_place vars.old place.now) }
{
    match place {
        PlaceTree::Var(named) => add_name(alloc, vars, &named.name),
        PlaceTree::Any { .. } => Ok(()),
        PlaceTree::Constant(_) => Ok(()),
    }
}

/// Adds a name, unless it is there already.
pub fn add_name(alloc: Global, vars: &mut NameIndex, name: &Name) -> Result<(), NoMemory>
    ensures { OnOk result (vars.new ≡ with_name vars.old name.now) }
{
    if vars.find(name).is_some() {
        return Ok(());
    }
    let _ = vars.add(name.duplicate(alloc)?)?;
    Ok(())
}
