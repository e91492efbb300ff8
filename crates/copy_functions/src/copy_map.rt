ghost use Rattle.std.specs.Prelude.{◌≡◌, ◌≢◌, ◌<◌, ◌+◌, ◌^◌, max, List, [], Some, None, IsSome, IsErrOf, IfErr, OnOk, OnErr, All, length, slice_set};
ghost use Rattle.currency_base.specs.declared.ids.RowId.{RowId};
ghost use Rattle.currency_base.specs.declared.row.Row.{Row};
ghost use Rattle.copy_functions.specs.Copies.{CopyFunction, source_in, source_at, values_of, with_source, without_source, Maps, IsCopyOf, IsCopied, IsPut};
ghost use Rattle.copy_functions.specs.Faults.{fault_due, IsDue};

use crate::difference::first_difference;
use crate::{CopyFault, PlaceList};
use currency_base::{ItemList, Name, NoMemory, RelId, RowId, Rows};
use std::alloc::Global;
use std::marker::Model;

/// A copy function: rows of a target relation, each mapped to the row of a source relation that it was
/// copied from. At each place the two rows have equal values. Contracts see it as a finite map.
#[derive(Drop)]
pub struct CopyMap {
    name: Name,
    target: RelId,
    source: RelId,
    places: PlaceList,
    // By target row; rows past the end are not mapped.
    sources: Vec<Option<RowId>>,
}

impl Model for CopyMap {
    ghost use Rattle.std.specs.Prelude.{◌<◌, ◌^◌, length};
    ghost use Rattle.copy_functions.specs.Copies.{CopyFunction};

    ghost Value = { CopyFunction };

    ghost view = { λ c. record {
      name = c.name;
      target = c.target;
      source = c.source;
      places = c.places;
      sources =
          c.sources.items;
    } };

    ghost invariant = { λ c. length c.places < 2 ^ 32 };
}

/// Copy functions, in the order of declaration.
pub type CopyList = ItemList<CopyMap>;

impl CopyMap {
    /// A copy function that maps no row yet. Takes no memory.
    pub fn new(
        alloc: Global,
        name: Name,
        target: RelId,
        source: RelId,
        places: PlaceList,
    ) -> CopyMap
        requires { length places < 2 ^ 32 }
        ensures value { result ≡ record { name = name; target = target; source = source; places = places; sources = [] } }
        ensures unmapped { (row : RowId) → source_at result row ≡ None }
        ensures copied { (target_rows source_rows : List Row) → IsCopied result target_rows source_rows }
    {
        CopyMap {
            name,
            target,
            source,
            places,
            sources: Vec::new(alloc),
        }
    }

    /// The name of the copy function.
    pub fn name(&self) -> &Name
        ensures { result.now ≡ self.now.name }
    {
        &self.name
    }

    /// The relation whose rows are mapped.
    pub fn target(&self) -> RelId
        ensures { result ≡ self.now.target }
    {
        self.target
    }

    /// The relation to whose rows they are mapped.
    pub fn source(&self) -> RelId
        ensures { result ≡ self.now.source }
    {
        self.source
    }

    /// The places at which mapped rows have equal values.
    pub fn places(&self) -> &PlaceList
        ensures value { result.now ≡ self.now.places }
        ensures few { length self.now.places < 2 ^ 32 }
    {
        &self.places
    }

    /// The source row that a target row is mapped to, if there is one. Takes no memory.
    pub fn source_of(&self, target: RowId) -> Option<RowId>
        ensures { result ≡ source_at self.now target }
    {
        *self.sources.as_slice().get(target.0 as usize)?
    }

    /// The fault of `add`, if it has one: a target row that is mapped already, even to the same source row, or
    /// else the first place at which values differ, with both values.
    pub fn check(
        &self,
        alloc: Global,
        target_rows: &Rows,
        source_rows: &Rows,
        target: RowId,
        source: RowId,
    ) -> Result<(), CopyFault>
        requires target_row { target.0 < length target_rows.now }
        requires source_row { source.0 < length source_rows.now }
        requires target_values { All (λ p. p.target.0 < length (values_of target_rows.now target)) self.now.places }
        requires source_values { All (λ p. p.source.0 < length (values_of source_rows.now source)) self.now.places }
        ensures unmapped { OnOk result (source_at self.now target ≡ None) }
        ensures equal { OnOk result (IsCopyOf self.now.places target_rows.now source_rows.now target source) }
        ensures faultless { OnOk result (fault_due self.now target_rows.now source_rows.now target source ≡ None) }
        ensures twice { IsErrOf result CopyFault.CopyTwice → IsSome (source_at self.now target) }
        ensures due { IfErr result (IsDue (fault_due self.now target_rows.now source_rows.now target source)) }
    {
        if self.source_of(target).is_some() {
            return Err(CopyFault::CopyTwice);
        }
        let target_values = target_rows.row(target).values.as_slice();
        let source_values = source_rows.row(source).values.as_slice();
        match first_difference(self.places.as_slice(), target_values, source_values) {
            Some(difference) => Err(difference.fault(alloc)),
            None => Ok(()),
        }
    }

    /// Maps a target row to a source row. A target row that is mapped already is refused, even to the
    /// same source row. One that is not is refused where values differ at a place, with the first such
    /// place and both values. A refusal changes nothing.
    pub fn add(
        &mut self,
        alloc: Global,
        target_rows: &Rows,
        source_rows: &Rows,
        target: RowId,
        source: RowId,
    ) -> Result<(), CopyFault>
        requires target_row { target.0 < length target_rows.now }
        requires source_row { source.0 < length source_rows.now }
        requires target_values { All (λ p. p.target.0 < length (values_of target_rows.now target)) self.old.places }
        requires source_values { All (λ p. p.source.0 < length (values_of source_rows.now source)) self.old.places }
        ensures ok { OnOk result (Maps self.old self.new target source) }
        ensures value { OnOk result (self.new ≡ with_source self.old target source) }
        ensures unmapped { OnOk result (source_at self.old target ≡ None) }
        ensures equal { OnOk result (IsCopyOf self.old.places target_rows.now source_rows.now target source) }
        ensures copied { IsCopied self.old target_rows.now source_rows.now → OnOk result
            (IsCopied self.new target_rows.now source_rows.now) }
        ensures faultless { OnOk result (fault_due self.old target_rows.now source_rows.now target source ≡ None) }
        ensures twice { IsErrOf result CopyFault.CopyTwice → IsSome (source_at self.old target) }
        ensures due { IfErr result (IsDue (fault_due self.old target_rows.now source_rows.now target source)) }
        ensures err { OnErr result (self.new ≡ self.old) }
    {
        self.check(alloc, target_rows, source_rows, target, source)?;
        put(&mut self.sources, target, source)?;
        Ok(())
    }

    /// Unmaps a target row, and answers the source row that it was mapped to, if it was mapped. Takes no
    /// memory. The list by target row stays as long as it is: after a row is mapped and unmapped again it may
    /// be longer than before, with no source row at its end, and each row is mapped as before.
    pub fn remove(&mut self, target: RowId) -> Option<RowId>
        ensures value { self.new ≡ without_source self.old target }
        ensures was { result ≡ source_at self.old target }
        ensures unmapped { source_at self.new target ≡ None }
        ensures others { (row : RowId) → row ≢ target → source_at self.new row ≡ source_at self.old row }
        ensures copied { (target_rows source_rows : List Row) → IsCopied self.old target_rows source_rows
            → IsCopied self.new target_rows source_rows }
    {
        take_out(&mut self.sources, target)
    }
}

/// A law: to map a row that was not mapped and to unmap it again leaves each row mapped as it was; to unmap
/// a row that was mapped and to map it again leaves the copy function as it was.
pub fn sources_are_restored()
    ensures mapped { (copy : CopyFunction) (target source : RowId) → source_at copy target ≡ None
        → (row : RowId) → source_at (without_source (with_source copy target source) target) row ≡ source_at copy row }
    ensures unmapped { (copy : CopyFunction) (target source : RowId) → source_at copy target ≡ Some source
        → with_source (without_source copy target) target source ≡ copy }
{}

// Sets the source row of a target row. The list grows no further than to that row.
fn put(sources: &mut Vec<Option<RowId>>, target: RowId, source: RowId) -> Result<(), NoMemory>
    ensures ok { OnOk result (IsPut sources.old.items sources.new.items target source) }
    ensures room { OnOk result (length sources.new.items ≡ max (length sources.old.items) (target.0 + 1)) }
    ensures err { OnErr result (sources.new.items ≡ sources.old.items) }
{
    let place = target.0 as usize;
    if place >= sources.len() {
        sources.resize(place + 1, None)?;
    }
    sources[place] = Some(source);
    Ok(())
}

// Takes out the source row of a target row. The list stays as long as it is.
fn take_out(sources: &mut Vec<Option<RowId>>, target: RowId) -> Option<RowId>
    ensures value { sources.new.items ≡ slice_set sources.old.items target.0 None }
    ensures was { result ≡ source_in sources.old.items target }
{
    let place = target.0 as usize;
    if place >= sources.len() {
        return None;
    }
    sources[place].take()
}
