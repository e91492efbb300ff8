ghost use Rattle.std.specs.Prelude.{◌≡◌, ◌<◌, true, false, All, length, replicate, slice_set, IfOk};
ghost use Rattle.log_trim.specs.Marked.{is_marked, with_all};

use currency_base::NoMemory;
use std::alloc::Global;
use std::marker::Model;

/// Marks of places, counted from 0. Contracts see them as the list of them.
#[derive(Drop)]
pub struct Marks {
    flags: Vec<bool>,
}

impl Model for Marks {
    ghost use Rattle.std.specs.Prelude.{List, Bool};

    ghost Value = { List Bool };

    ghost view = { λ m. m.flags.items };
}

impl Marks {
    /// So many places, none marked.
    pub fn new(alloc: Global, places: usize) -> Result<Marks, NoMemory>
        ensures { IfOk result (λ marks. marks ≡ replicate places false) }
    {
        let mut flags = Vec::new(alloc);
        flags.resize(places, false)?;
        Ok(Marks { flags })
    }

    /// How many places there are.
    pub fn len(&self) -> usize
        ensures { result ≡ length self.now }
    {
        self.flags.len()
    }

    /// Is the place marked?
    pub fn is_marked(&self, place: usize) -> bool
        requires { place < length self.now }
        ensures { result ≡ is_marked self.now place }
    {
        self.flags[place]
    }

    /// Marks a place.
    pub fn mark(&mut self, place: usize)
        requires { place < length self.old }
        ensures { self.new ≡ slice_set self.old place true }
    {
        self.flags[place] = true;
    }

    /// Marks each of these places.
    pub fn mark_all(&mut self, places: &[u32])
        requires { All (λ place. place < length self.old) places.now }
        ensures value { self.new ≡ with_all self.old places.now }
        ensures count { length self.new ≡ length self.old }
    {
        for place in places {
            self.mark(*place as usize);
        }
    }
}
