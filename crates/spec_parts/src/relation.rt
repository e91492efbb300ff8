ghost use Rattle.std.specs.Prelude.{IfOk};
ghost use Rattle.spec_parts.specs.Steps.{IsCuttable, IsPartSoFar};

use crate::row::{part_names, part_rows};
use currency_base::{EntId, NoMemory, RowId};
use spec_duplicates::copied_attrs;
use spec_model::{Pairs, Relation};
use std::alloc::Global;

/// The relation with these rows and these entities alone, and with no given pair yet.
pub(crate) fn part_relation(
    alloc: Global,
    whole: &Relation,
    rows: &[RowId],
    entities: &[EntId],
) -> Result<Relation, NoMemory>
    requires { IsCuttable whole.now rows.now entities.now }
    ensures { IfOk result (IsPartSoFar whole.now rows.now entities.now) }
{
    Ok(Relation {
        name: whole.name.duplicate(alloc)?,
        attrs: copied_attrs(alloc, &whole.attrs)?,
        rows: part_rows(alloc, &whole.rows, entities, rows)?,
        entities: part_names(alloc, &whole.entities, entities)?,
        given: Pairs::new(alloc),
    })
}
