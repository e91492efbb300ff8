ghost use Rattle.std.specs.Prelude.{◌≡◌, true, List, Option, IfOk, OnOk, slice_get};
ghost use Rattle.std.specs.Cmp.Lexicographic.{slice_cmp};
ghost use Rattle.std.specs.Option.{option_cmp};
ghost use Rattle.currency_base.specs.Values.{value_cmp};
ghost use Rattle.currency_base.specs.declared.value.Value.{Value};
ghost use Rattle.semi_joins.specs.Kept.{AreNoted, is_key, key_at};

use crate::kept::Kept;
use currency_base::{NoMemory, Tuple, Value};
use std::alloc::Global;
use std::cmp::Ordering;
use std::collections::BTreeSet;
use std::marker::Model;

/// The values of a row at places. Contracts see these values.
#[derive(Drop)]
struct Key<'a, 'b> {
    row: &'a Tuple,
    places: &'b [usize],
}

impl<'a, 'b> Model for Key<'a, 'b> {
    ghost use Rattle.semi_joins.specs.Kept.{KeyValues, key_at};

    ghost Value = { KeyValues };

    ghost view = { λ k. key_at k.places.now k.row.now };
}

impl<'a, 'b> PartialEq for Key<'a, 'b> {
    ghost use Rattle.std.specs.Ordering.{eq_by_cmp};
    ghost use Rattle.std.specs.Cmp.Lexicographic.{slice_cmp};
    ghost use Rattle.std.specs.Cmp.Rules.{comparing};
    ghost use Rattle.std.specs.Option.{option_cmp};
    ghost use Rattle.std.proofs.Common.{rules};
    ghost use Rattle.currency_base.specs.Values.{value_cmp};
    ghost use Rattle.semi_joins.specs.KeyOrder.{key_total};

    ghost eq = { eq_by_cmp (slice_cmp (option_cmp value_cmp)) };

    ghost laws = { Prim.search (comparing, rules, key_total) };

    fn eq(&self, other: &Key<'a, 'b>) -> bool {
        order(self.row, self.places, other.row, other.places) == Ordering::Equal
    }
}

impl<'a, 'b> Eq for Key<'a, 'b> {
    ghost use Rattle.std.specs.Cmp.Rules.{comparing};
    ghost use Rattle.std.proofs.Common.{rules};
    ghost use Rattle.semi_joins.specs.KeyOrder.{key_total};

    ghost laws = { Prim.search (comparing, rules, key_total) };
}

impl<'a, 'b> PartialOrd for Key<'a, 'b> {
    ghost use Rattle.std.specs.Ordering.{as_partial_cmp};
    ghost use Rattle.std.specs.Cmp.Lexicographic.{slice_cmp};
    ghost use Rattle.std.specs.Cmp.{partial_order_from_own_ties};
    ghost use Rattle.std.specs.Cmp.Rules.{comparing};
    ghost use Rattle.std.specs.Option.{option_cmp};
    ghost use Rattle.std.proofs.Common.{rules};
    ghost use Rattle.currency_base.specs.Values.{value_cmp};
    ghost use Rattle.semi_joins.specs.KeyOrder.{key_total};

    ghost partial_cmp = { as_partial_cmp (slice_cmp (option_cmp value_cmp)) };

    ghost laws = { partial_order_from_own_ties (Prim.search (comparing, rules, key_total))
        (Prim.search (comparing, rules, key_total)) };

    fn partial_cmp(&self, other: &Key<'a, 'b>) -> Option<Ordering> {
        Some(self.cmp(other))
    }
}

impl<'a, 'b> Ord for Key<'a, 'b> {
    ghost use Rattle.std.specs.Cmp.Lexicographic.{slice_cmp};
    ghost use Rattle.std.specs.Cmp.Rules.{comparing};
    ghost use Rattle.std.specs.Option.{option_cmp};
    ghost use Rattle.std.proofs.Common.{rules};
    ghost use Rattle.currency_base.specs.Values.{value_cmp};
    ghost use Rattle.semi_joins.specs.KeyOrder.{key_total};

    ghost cmp = { slice_cmp (option_cmp value_cmp) };

    ghost total = { key_total };

    ghost matches_partial_cmp = { Prim.search (comparing, rules) };

    ghost matches_eq = { Prim.search (comparing, rules) };

    fn cmp(&self, other: &Key<'a, 'b>) -> Ordering {
        order(self.row, self.places, other.row, other.places)
    }
}

// How the values of a row at places stand to those of another at other places.
fn order(one: &Tuple, ones: &[usize], other: &Tuple, others: &[usize]) -> Ordering
    ensures { result ≡ slice_cmp (option_cmp value_cmp) (key_at ones.now one.now) (key_at others.now other.now) }
{
    match (ones, others) {
        ([], []) => Ordering::Equal,
        ([], [_, ..]) => Ordering::Less,
        ([_, ..], []) => Ordering::Greater,
        ([first, ones @ ..], [second, others @ ..]) => {
            match order_at(one, *first, other, *second) {
                Ordering::Less => Ordering::Less,
                Ordering::Greater => Ordering::Greater,
                Ordering::Equal => order(one, ones, other, others),
            }
        }
    }
}

// How the value of a row at a place stands to that of another. Where one has none it stands below.
fn order_at(one: &Tuple, here: usize, other: &Tuple, there: usize) -> Ordering
    ensures { result ≡ option_cmp value_cmp (slice_get one.now here) (slice_get other.now there) }
{
    match (one.as_slice().get(here), other.as_slice().get(there)) {
        (Some(a), Some(b)) => a.cmp(b),
        (Some(_), None) => Ordering::Greater,
        (None, Some(_)) => Ordering::Less,
        (None, None) => Ordering::Equal,
    }
}

/// The values that rows have at places. Contracts see them as a list.
#[derive(Drop)]
pub(crate) struct KeySet<'a, 'b> {
    set: BTreeSet<Key<'a, 'b>>,
}

impl<'a, 'b> Model for KeySet<'a, 'b> {
    ghost use Rattle.semi_joins.specs.Kept.{Keys};

    ghost Value = { Keys };

    ghost view = { λ k. k.set.keys };
}

impl<'a, 'b> KeySet<'a, 'b> {
    /// The values of those of some rows that are kept.
    pub(crate) fn of(
        alloc: Global,
        rows: &'a [Tuple],
        kept: &Kept,
        places: &'b [usize],
    ) -> Result<KeySet<'a, 'b>, NoMemory>
        ensures { IfOk result (AreNoted rows.now kept.now places.now) }
    {
        let mut keys = KeySet {
            set: BTreeSet::new(alloc),
        };
        for (place, row) in rows.iter().enumerate() {
            if kept.has(place) {
                keys.note(row, places)?;
            }
        }
        Ok(keys)
    }

    // Notes the values of a row.
    fn note(&mut self, row: &'a Tuple, places: &'b [usize]) -> Result<(), NoMemory>
        ensures kept { OnOk result ((key : List (Option Value)) → is_key self.old key ≡ true → is_key self.new key ≡ true) }
        ensures noted { OnOk result (is_key self.new (key_at places.now row.now) ≡ true) }
    {
        self.set.insert(Key { row, places })?;
        Ok(())
    }

    /// Are the values of a row among them?
    pub(crate) fn has(&self, row: &'a Tuple, places: &'b [usize]) -> bool
        ensures { result ≡ is_key self.now (key_at places.now row.now) }
    {
        self.set.contains(&Key { row, places })
    }
}
