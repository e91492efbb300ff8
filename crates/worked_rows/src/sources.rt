//! Specifications of rows, and what is numbered of them.

ghost use Rattle.std.specs.Prelude.{◌≡◌, IfOk};
ghost use Rattle.bound_spec.specs.Growth.{IsWithinLimits};

use currency_base::{NoMemory, RelId};
use currency_edge::SteadyShelf;
use order_literals::Wanted;
use spec_bind::bind_spec;
use spec_model::{RelList, Specification};
use spec_syntax::read_spec;
use std::alloc::Global;
use std::test::Fail;

/// The text of a specification, and its tables by their names.
#[derive(Clone, Copy)]
pub struct Source {
    pub text: &'static str,
    pub tables: &'static [(&'static str, &'static str)],
}

/// The specification that a text and its tables say.
pub fn specification(alloc: Global, source: Source) -> Result<Specification, Fail>
    ensures { IfOk result IsWithinLimits }
{
    let mut shelf = SteadyShelf::new(alloc);
    for (name, table) in source.tables {
        shelf.put(name, table.as_bytes())?;
    }
    of_shelf(alloc, source.text, &mut shelf)
}

/// The specification that a text and the tables on a shelf say.
pub fn of_shelf(alloc: Global, text: &str, shelf: &mut SteadyShelf) -> Result<Specification, Fail>
    ensures { IfOk result IsWithinLimits }
{
    let tree = read_spec(alloc, text.as_bytes())?;
    Ok(bind_spec(alloc, &tree, shelf)?)
}

/// The current values of the first relations are wanted, of so many.
pub fn wanted(alloc: Global, currents: u32) -> Result<Wanted, NoMemory>
    ensures { IfOk result (λ wanted. wanted.answers ≡ 0) }
{
    let mut list = RelList::new(alloc);
    for rel in 0..currents {
        list.push(RelId(rel))?;
    }
    Ok(Wanted {
        currents: list,
        answers: 0,
    })
}

/// One relation of one attribute, with three rows of one entity.
pub const THREE: Source = Source {
    text: "relation R from \"r.csv\" row id entity eid (a: int);\n",
    tables: &[("r.csv", "id,eid,a\nr1,x,1\nr2,x,2\nr3,x,3\n")],
};
