ghost use Rattle.std.specs.Prelude.{◌≡◌, ◌+◌, ◌-◌, ◌*◌, ◌<◌, ◌≤◌, ℕ, ◌∷◌, [], Some, length, replicate, slice_set, slice_index, IsOk, IfOk, OnOk, OnErr};
ghost use Rattle.watch_links.specs.Links.{list_of, lists_with, lists_without, IsIn, IsFree, head_of, following, coming_after, without, AreWhole};

use crate::writes::{Link, NO_SLOT, lead, no_links, push_no_links, slot_at, write_link};
use currency_base::NoMemory;
use std::alloc::Global;
use std::marker::Model;

/// The watch lists of all owners. A slot is a watched place of a clause: `2 * clause` is its first,
/// `2 * clause + 1` its second. An owner is a literal, by its number. Each slot stands in at most one
/// owner's list. Contracts see how many slots there are, the lists, and for how many more clauses
/// there is room.
#[derive(Drop)]
pub struct WatchLinks {
    // of each slot, the slot after it in its list, and the list's owner
    links: Vec<Link>,
    // of each owner, the first slot of its list
    first: Vec<u32>,
}

impl Model for WatchLinks {
    ghost use Rattle.watch_links.specs.Links.{Links};

    ghost Value = { Links };

    ghost use Rattle.std.specs.Prelude.{length, vec_capacity};
    ghost use Rattle.watch_links.specs.Chains.{AreLinked, nexts, copies, walks, room_of};

    ghost view = { λ w. record {
      slots = length w.links.items;
      lists = walks (nexts w.links.items) w.first.items;
      room = room_of (vec_capacity w.links) (length w.links.items);
    } };

    ghost invariant = { λ w. AreLinked w.first.items (nexts w.links.items) (copies w.links.items)
        (walks (nexts w.links.items) w.first.items) };
}

impl WatchLinks {
    /// No slot, and for each owner an empty list.
    pub fn new(alloc: Global, owners: u32) -> Result<WatchLinks, NoMemory>
        ensures slots { IfOk result (λ links. links.slots ≡ 0) }
        ensures lists { IfOk result (λ links. links.lists ≡ replicate owners []) }
    {
        let Ok(first) = no_links(alloc, owners) else {
            return Err(NoMemory);
        };
        Ok(WatchLinks {
            links: Vec::new(alloc),
            first,
        })
    }

    /// The first slot of an owner's list.
    pub fn first(&self, owner: u32) -> Option<u32>
        requires { owner < length self.now.lists }
        ensures { result ≡ head_of (list_of self.now.lists owner) }
    {
        slot_at(self.first[owner as usize])
    }

    /// The slot that follows a slot in the list where it stands. Of a slot that stands in no list
    /// the answer tells nothing.
    pub fn next(&self, slot: u32) -> Option<u32>
        requires { slot < self.now.slots }
        ensures { (owner : ℕ) → IsIn slot (list_of self.now.lists owner)
            → result ≡ following slot (list_of self.now.lists owner) }
    {
        slot_at(self.links[slot as usize].next)
    }

    /// The owner in whose list a slot stands, of which the slot has a copy. Of a slot that stands in no list the answer
    /// tells nothing.
    pub fn owner(&self, slot: u32) -> u32
        requires { slot < self.now.slots }
        ensures { (owner : ℕ) → IsIn slot (list_of self.now.lists owner) → result ≡ owner }
    {
        self.links[slot as usize].owner
    }

    /// Cuts a slot out of its owner's list, behind the slot that comes before it, if one does. Who walks over a list
    /// knows that one.
    pub fn cut(&mut self, before: Option<u32>, slot: u32, owner: u32)
        requires { coming_after before (list_of self.old.lists owner) ≡ Some slot }
        ensures lists { self.new.lists ≡ lists_without self.old.lists owner slot }
        ensures free { IsFree self.new.lists slot }
        ensures slots { self.new.slots ≡ self.old.slots }
        ensures room { self.new.room ≡ self.old.room }
    {
        let after = self.links[slot as usize].next;
        lead(&mut self.links, &mut self.first, owner, before, after);
    }

    /// Puts a slot that stands in no list in front of an owner's list.
    pub fn attach(&mut self, slot: u32, owner: u32)
        requires below { slot < self.old.slots }
        requires inside { owner < length self.old.lists }
        requires free { IsFree self.old.lists slot }
        ensures lists { self.new.lists ≡ lists_with self.old.lists owner slot }
        ensures slots { self.new.slots ≡ self.old.slots }
        ensures room { self.new.room ≡ self.old.room }
    {
        let first = self.first[owner as usize];
        write_link(&mut self.links, slot, first, owner);
        lead(&mut self.links, &mut self.first, owner, None, slot);
    }

    /// Makes room for so many more clauses, of two slots each. It is refused where memory runs out,
    /// or the slots would be too many for their numbers.
    pub fn reserve(&mut self, clauses: usize) -> Result<(), NoMemory>
        ensures slots { self.new.slots ≡ self.old.slots }
        ensures lists { self.new.lists ≡ self.old.lists }
        ensures stays { self.old.room ≤ self.new.room }
        ensures ok { OnOk result (clauses ≤ self.new.room) }
        ensures full { OnErr result (self.new.room < clauses) }
    {
        if clauses > (NO_SLOT as usize - self.links.len()) / 2 {
            return Err(NoMemory);
        }
        match self.links.reserve(2 * clauses) {
            Ok(()) => Ok(()),
            Err(_) => Err(NoMemory),
        }
    }

    /// The two slots of one more clause, which stand in no list.
    pub fn push_none(&mut self) -> Result<(), NoMemory>
        ensures slots { OnOk result (self.new.slots ≡ self.old.slots + 2) }
        ensures lists { OnOk result (self.new.lists ≡ self.old.lists) }
        ensures free { OnOk result (IsFree self.new.lists self.old.slots
            × IsFree self.new.lists (self.old.slots + 1)) }
        ensures few { OnOk result (self.new.slots ≤ 4294967295) }
        ensures room { 0 < self.old.room → IsOk result }
        ensures left { OnOk result (self.old.room ≤ self.new.room + 1) }
        ensures err { OnErr result (self.new ≡ self.old) }
    {
        let Ok(()) = self.reserve(1) else {
            return Err(NoMemory);
        };
        push_no_links(&mut self.links);
        Ok(())
    }

    /// The two slots of one more clause: the first in front of the first owner's list, the second in
    /// front of the second's. They may be one owner; then the second slot stands in front.
    pub fn push_two(&mut self, first_owner: u32, second_owner: u32) -> Result<(), NoMemory>
        requires first_inside { first_owner < length self.old.lists }
        requires second_inside { second_owner < length self.old.lists }
        ensures slots { OnOk result (self.new.slots ≡ self.old.slots + 2) }
        ensures lists { OnOk result (self.new.lists
            ≡ lists_with (lists_with self.old.lists first_owner self.old.slots)
            second_owner (self.old.slots + 1)) }
        ensures room { 0 < self.old.room → IsOk result }
        ensures left { OnOk result (self.old.room ≤ self.new.room + 1) }
        ensures err { OnErr result (self.new ≡ self.old) }
    {
        let slot = self.links.len() as u32;
        let Ok(()) = self.push_none() else {
            return Err(NoMemory);
        };
        self.attach(slot, first_owner);
        self.attach(slot + 1, second_owner);
        Ok(())
    }

    /// No work: the caller learns what is true of all watch lists at any moment.
    pub fn are_whole(&self)
        ensures { AreWhole self.now }
    {
        let _ = &self.links;
    }

    /// The slots of an owner's list, in order.
    pub fn slots_of(&self, alloc: Global, owner: u32) -> Result<Vec<u32>, NoMemory>
        requires { owner < length self.now.lists }
        ensures { IfOk result (λ slots. slots.items ≡ list_of self.now.lists owner) }
    {
        self.are_whole();
        let mut seen = Vec::new(alloc);
        let mut at = self.first(owner);
        while let Some(slot) = at {
            let Ok(()) = seen.push(slot) else {
                return Err(NoMemory);
            };
            at = self.next(slot);
        }
        Ok(seen)
    }
}
