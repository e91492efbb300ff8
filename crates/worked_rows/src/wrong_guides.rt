//! Guides that are wrong in each way that the search has to bear, and one that tells when it is dropped.

ghost use Rattle.std.specs.Prelude.{true, if◌then◌else◌, not, None};

use currency_base::{Assignment, Lit, NoMemory};
use search_trail::Values;
use solver_guides::Guide;
use std::alloc::Global;
use std::cell::Cell;
use std::rc::Rc;

/// Always picks the same: nothing, a variable that has a value from the second time on, or one beyond the last.
#[derive(Drop)]
pub(crate) struct Always {
    pub lit: Option<Lit>,
}

impl Guide for Always {
    ghost choice = { λ g values. g.lit };

    ghost has_room = { λ g vars. true };

    ghost may_fit = { λ g vars fits h. fits };

    fn fit(&mut self, _alloc: Global, _start: &Assignment) -> Result<(), NoMemory> {
        Ok(())
    }

    fn pick(&mut self, _values: &Values) -> Option<Lit> {
        self.lit
    }

    fn saw(&mut self, _var: u32) {}

    fn freed(&mut self, _lit: Lit, _values: &Values) {}

    fn leave(&mut self, _scope: &[u32]) {}

    fn enter(&mut self, _scope: &[u32]) {}

    fn restarted(&mut self) {}
}

/// Picks at random, from its own state: nothing, free variables, such as have a value, and such as are none.
#[derive(Drop)]
pub(crate) struct Random {
    pub state: u64,
    // what it picks next
    pub next: Option<Lit>,
}

impl Random {
    // Draws what it picks next.
    fn draw(&mut self) {
        self.state = self.state.wrapping_mul(6364136223846793005).wrapping_add(1);
        let drawn = self.state / 4294967296;
        self.next = if drawn % 5 == 0 {
            None
        } else {
            Some(Lit::new((drawn / 16 % 64) as u32, drawn / 8 % 2 == 0))
        };
    }
}

impl Guide for Random {
    ghost choice = { λ g values. g.next };

    ghost has_room = { λ g vars. true };

    ghost may_fit = { λ g vars fits h. fits };

    fn fit(&mut self, _alloc: Global, _start: &Assignment) -> Result<(), NoMemory> {
        Ok(())
    }

    fn pick(&mut self, _values: &Values) -> Option<Lit> {
        let picked = self.next;
        self.draw();
        picked
    }

    fn saw(&mut self, _var: u32) {
        self.draw();
    }

    fn freed(&mut self, _lit: Lit, _values: &Values) {
        self.draw();
    }

    fn leave(&mut self, _scope: &[u32]) {
        self.draw();
    }

    fn enter(&mut self, _scope: &[u32]) {
        self.draw();
    }

    fn restarted(&mut self) {
        self.draw();
    }
}

/// What was seen of a guide by whoever made it.
#[derive(Drop)]
pub(crate) struct Seen {
    /// how often it was asked for a literal, or told of anything, after it was to make room
    pub calls: Cell<u64>,
    /// how often it was dropped
    pub drops: Cell<u64>,
}

impl Seen {
    /// Nothing was seen yet.
    pub(crate) fn nothing() -> Seen {
        Seen {
            calls: Cell::new(0),
            drops: Cell::new(0),
        }
    }

    // One call more.
    fn call(&self) {
        self.calls.set(self.calls.get().saturating_add(1));
    }
}

/// Picks nothing, and is seen when it is called and when it is dropped. It may be refused memory.
pub(crate) struct Watched {
    pub fits: bool,
    pub seen: Rc<Seen>,
}

impl Drop for Watched {
    fn drop(self) {
        self.seen.drops.set(self.seen.drops.get().saturating_add(1));
        let Watched { fits: _, seen: _ } = self;
    }
}

impl Guide for Watched {
    ghost choice = { λ g values. None };

    ghost has_room = { λ g vars. g.fits };

    ghost may_fit = { λ g vars fits h. if g.fits then fits else not fits };

    fn fit(&mut self, _alloc: Global, _start: &Assignment) -> Result<(), NoMemory> {
        if self.fits { Ok(()) } else { Err(NoMemory) }
    }

    fn pick(&mut self, _values: &Values) -> Option<Lit> {
        self.seen.call();
        None
    }

    fn saw(&mut self, _var: u32) {
        self.seen.call();
    }

    fn freed(&mut self, _lit: Lit, _values: &Values) {
        self.seen.call();
    }

    fn leave(&mut self, _scope: &[u32]) {
        self.seen.call();
    }

    fn enter(&mut self, _scope: &[u32]) {
        self.seen.call();
    }

    fn restarted(&mut self) {
        self.seen.call();
    }
}
