//! What a ring makes of wrong picks, what its guides are told, and the picks of a known sequence of numbers.

ghost use Rattle.std.specs.Prelude.{◌≡◌, [], true, length, OnOk};

use currency_base::{Assignment, Lit, NoMemory};
use search_trail::{Trail, Values};
use solver_guides::{Guide, Guides, Seeded};
use std::alloc::Global;
use std::test::Fail;

// Picks the literal or the variable that it was told of last, and nothing where the search began again since.
#[derive(Drop)]
struct Last {
    lit: Option<Lit>,
}

impl Guide for Last {
    ghost choice = { λ g values. g.lit };

    ghost has_room = { λ g vars. true };

    ghost may_fit = { λ g vars fits h. fits };

    fn fit(&mut self, _alloc: Global, _start: &Assignment) -> Result<(), NoMemory> {
        Ok(())
    }

    fn pick(&mut self, _values: &Values) -> Option<Lit> {
        self.lit
    }

    fn saw(&mut self, var: u32) {
        self.lit = literal_of(var);
    }

    fn freed(&mut self, lit: Lit, _values: &Values) {
        self.lit = Some(lit);
    }

    fn leave(&mut self, _scope: &[u32]) {}

    fn enter(&mut self, _scope: &[u32]) {}

    fn restarted(&mut self) {
        self.lit = None;
    }
}

// The literal of a small number.
fn literal_of(var: u32) -> Option<Lit> {
    if var < 100 {
        Some(Lit::new(var, false))
    } else {
        None
    }
}

// What the ring picks, if there is a free variable.
fn picked(ring: &mut Guides, values: &Values) -> Option<Lit> {
    match values.first_free() {
        Some(_) => Some(ring.pick(values)),
        None => None,
    }
}

// The first of three variables gets a value.
fn assume_first(trail: &mut Trail)
    requires vars { trail.old.vars ≡ 3 }
    requires empty { trail.old.entries ≡ [] }
{
    trail.assume(Lit::new(0, false));
}

// Two guides are told of a literal, and each in its turn of more; tells whether their picks show that.
fn are_told(ring: &mut Guides, values: &Values) -> bool {
    ring.freed(Lit::new(2, false), values);
    ring.saw(1);
    let seen = picked(ring, values);
    ring.restart();
    let wrong_picks = picked(ring, values);
    ring.stay();
    let nothing = picked(ring, values);
    seen == literal_of(1) && wrong_picks == literal_of(2) && nothing == Some(Lit::new(1, true))
}

#[test]
fn wrong_picks_are_mended(rt: HostRuntime) -> Result<(), Fail> {
    let mut trail = Trail::new(rt.alloc(), 3)?;
    assume_first(&mut trail);
    let mut guides: Vec<Box<dyn Guide>> = Vec::new(rt.alloc());
    let given = literal_of(0);
    guides.push(Box::new(rt.alloc(), Last { lit: given })?)?;
    let beyond = literal_of(3);
    guides.push(Box::new(rt.alloc(), Last { lit: beyond })?)?;
    let mut ring = Guides::new(guides);
    assert!(rt; picked(&mut ring, trail.values()) == Some(Lit::new(1, true)));
    ring.restart();
    assert!(rt; picked(&mut ring, trail.values()) == Some(Lit::new(1, true)));
    ring.restart();
    assert!(rt; are_told(&mut ring, trail.values()));
    Ok(())
}

// The sequence is that of Knuth's MMIX: 1 is followed by 7806831264735756412.
#[test]
fn picks_follow_the_sequence(rt: HostRuntime) -> Result<(), Fail> {
    let trail = Trail::new(rt.alloc(), 1_000)?;
    let mut seeded = Seeded::new(1);
    assert!(rt; seeded.pick(trail.values()) == Some(Lit::new(774, true)));
    Ok(())
}
