ghost use Rattle.std.specs.Prelude.{◌≡◌, ◌∷◌, ◌++◌, [], OnOk, Contains};
ghost use Rattle.log_units.specs.Said.{Adds, has_row, rows_at};

use crate::said::{Place, SaidRow};
use currency_base::{NoMemory, RowId, RowList};
use std::alloc::Global;
use std::collections::BTreeMap;
use std::marker::Model;

/// The rows whose values units say to be the current ones, place by place. Contracts see the places with
/// their rows.
#[derive(Drop)]
pub(crate) struct SaidRows {
    alloc: Global,
    map: BTreeMap<Place, RowList>,
}

impl Model for SaidRows {
    ghost use Rattle.std.specs.Prelude.{List};
    ghost use Rattle.currency_base.specs.declared.ids.RowId.{RowId};
    ghost use Rattle.log_units.specs.declared.said.Place.{Place};

    ghost Value = { List (Place × List RowId) };

    ghost view = { λ r. r.map.entries };
}

impl SaidRows {
    /// No row at any place.
    pub(crate) fn new(alloc: Global) -> SaidRows
        ensures { result ≡ [] }
    {
        SaidRows {
            alloc,
            map: BTreeMap::new(alloc),
        }
    }

    /// The rows of a place.
    pub(crate) fn at(&self, place: Place) -> &[RowId]
        ensures { result.now ≡ rows_at self.now place }
    {
        match self.map.get(&place) {
            Some(rows) => rows.as_slice(),
            None => &[],
        }
    }

    /// Notes a row, if there is one.
    pub(crate) fn note(&mut self, row: Option<SaidRow>) -> Result<(), NoMemory>
        ensures { OnOk result (Adds (has_row self.old) (has_row self.new) row) }
    {
        match row {
            Some(row) => self.add(row.place, row.row),
            None => Ok(()),
        }
    }

    // Adds a row to those of a place.
    fn add(&mut self, place: Place, row: RowId) -> Result<(), NoMemory>
        ensures { OnOk result (Adds (has_row self.old) (has_row self.new) (Some record { place = place; row = row })) }
    {
        let mut rows = match self.map.remove(&place) {
            Some(rows) => rows,
            None => RowList::new(self.alloc),
        };
        rows.push(row)?;
        self.map.insert(place, rows)?;
        Ok(())
    }
}
