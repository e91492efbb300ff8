ghost use Rattle.std.specs.Prelude.{◌≡◌, ◌<◌, ◌∷◌, ◌++◌, [], Some, length, take, slice_get, OnOk, OnErr};

use crate::spans::{next_end, span, start_of};
use currency_base::{ItemList, NoMemory};
use std::alloc::Global;
use std::marker::Model;

/// A list of lists, kept flat: beside its items a list takes four bytes. Together the lists have fewer than
/// 2^32 items. Contracts see the list of lists.
#[derive(Drop)]
pub struct FlatLists<T> {
    items: Vec<T>,
    // of each list, how many items there are up to its end
    ends: Vec<u32>,
}

impl<T> Model for FlatLists<T> {
    ghost use Rattle.std.specs.Prelude.{List, length};
    ghost use Rattle.flat_lists.specs.Flat.{cut_from, IsFlat};

    ghost Value = { List (List T) };

    ghost view = { λ f. cut_from 0 f.ends.items f.items.items };

    ghost invariant = { λ f. IsFlat f.ends.items (length f.items.items) };
}

impl<T> FlatLists<T> {
    /// No list. Takes no memory yet.
    pub fn new(alloc: Global) -> Self
        ensures { result ≡ [] }
    {
        FlatLists {
            items: Vec::new(alloc),
            ends: Vec::new(alloc),
        }
    }

    /// How many lists there are.
    pub fn len(&self) -> usize
        ensures { result ≡ length self.now }
    {
        self.ends.len()
    }

    /// The list at a place, counted from 0.
    pub fn get(&self, place: usize) -> &[T]
        requires { place < length self.now }
        ensures { slice_get self.now place ≡ Some result.now }
    {
        let (start, end) = span(&self.items, &self.ends, place);
        &self.items[start..end]
    }

    /// Puts a copy of a list after the others. A refusal changes nothing; it also comes where there would be
    /// 2^32 items or more.
    pub fn push(&mut self, list: &[T]) -> Result<(), NoMemory>
    where
        T: Copy,
        ensures ok { OnOk result (self.new ≡ self.old ++ list.now ∷ []) }
        ensures err { OnErr result (self.new ≡ self.old) }
    {
        let Ok(end) = next_end(&mut self.ends, self.items.len(), list.len()) else {
            return Err(NoMemory);
        };
        let Ok(()) = self.items.extend_from_slice(list) else {
            return Err(NoMemory);
        };
        let Ok(()) = self.ends.push(end) else {
            unreachable!();
        };
        Ok(())
    }

    /// Puts a list after the others; its items move. A refusal changes nothing but drops the list; it also
    /// comes where there would be 2^32 items or more.
    pub fn push_list(&mut self, list: ItemList<T>) -> Result<(), NoMemory>
    where
        T: Drop,
        ensures ok { OnOk result (self.new ≡ self.old ++ list ∷ []) }
        ensures err { OnErr result (self.new ≡ self.old) }
    {
        let mut list = list.into_items();
        let Ok(end) = next_end(&mut self.ends, self.items.len(), list.len()) else {
            return Err(NoMemory);
        };
        let Ok(()) = self.items.append(&mut list) else {
            return Err(NoMemory);
        };
        let Ok(()) = self.ends.push(end) else {
            unreachable!();
        };
        Ok(())
    }

    /// Drops the lists from a place on; past the end, none.
    pub fn truncate(&mut self, count: usize)
    where
        T: Drop,
        ensures { self.new ≡ take count self.old }
    {
        if count < self.ends.len() {
            let start = start_of(&self.ends, count);
            self.items.truncate(start);
            self.ends.truncate(count);
        }
    }
}
