ghost use Rattle.std.specs.Prelude.{◌≡◌, ◌<◌, ◌++◌, ◌∷◌, [], All, map, length, IfOk, IfSome, IfNone, OnOk};
ghost use Rattle.conflict_analysis.specs.Steps.{IsHighest, IsWritten, negated, number_of, without};

use crate::levels::level_at;
use crate::reasons::reason_at;
use crate::resolution::push;
use clause_arena::ClauseNo;
use currency_base::{Lit, NoMemory};
use search_trail::Trail;

// The negation of the literal at a place.
fn negated_at(trail: &Trail, place: u32) -> Lit
    requires { place < length trail.now.entries }
    ensures { result ≡ negated trail.now.entries place }
{
    trail.assigned()[place as usize].negated()
}

/// One more literal.
pub(crate) fn push_lit(lits: &mut Vec<Lit>, lit: Lit) -> Result<(), NoMemory>
    ensures { OnOk result (lits.new.items ≡ lits.old.items ++ lit ∷ []) }
{
    match lits.push(lit) {
        Ok(()) => Ok(()),
        Err(_) => Err(NoMemory),
    }
}

// Writes the negation of the literal at a place, if it is not this one.
fn spell(lits: &mut Vec<Lit>, trail: &Trail, place: u32, except: u32) -> Result<(), NoMemory>
    requires { place < length trail.now.entries }
    ensures { OnOk result (lits.new.items ≡ lits.old.items ++ map (negated trail.now.entries) (without except (place ∷ []))) }
{
    if place == except {
        return Ok(());
    }
    push_lit(lits, negated_at(trail, place))
}

/// Writes the negations of the literals at these places but one.
pub(crate) fn spell_all(
    lits: &mut Vec<Lit>,
    trail: &Trail,
    places: &[u32],
    except: u32,
) -> Result<(), NoMemory>
    requires { All (λ place. place < length trail.now.entries) places.now }
    ensures { OnOk result (lits.new.items ≡ lits.old.items ++ map (negated trail.now.entries) (without except places.now)) }
{
    for place in places {
        spell(lits, trail, *place, except)?;
    }
    Ok(())
}

// The highest of these places.
fn highest(places: &[u32]) -> Option<u32>
    ensures some { IfSome result (IsHighest places.now) }
    ensures none { IfNone result (places.now ≡ []) }
{
    places.iter().copied().max()
}

/// Writes the clause of a conflict: the negation of the literal at the unique implication point, and those of the
/// others, one of the highest level first. Tells this level.
pub(crate) fn write_learned(
    lits: &mut Vec<Lit>,
    trail: &Trail,
    point: u32,
    leaves: &[u32],
) -> Result<u32, NoMemory>
    requires point { point < length trail.now.entries }
    requires leaves { All (λ place. place < length trail.now.entries) leaves.now }
    ensures { IfOk result (IsWritten trail.now point leaves.now lits.new.items) }
{
    lits.clear();
    push_lit(lits, negated_at(trail, point))?;
    let Some(second) = highest(leaves) else {
        return Ok(0);
    };
    push_lit(lits, negated_at(trail, second))?;
    spell_all(lits, trail, leaves, second)?;
    Ok(level_at(trail, second))
}

// The number of the clause that implied the literal at a place.
fn number_at(trail: &Trail, place: u32) -> u32
    requires { place < length trail.now.entries }
    ensures { result ≡ number_of trail.now.entries place }
{
    match reason_at(trail, place) {
        Some(clause) => clause.0,
        None => 0,
    }
}

/// Writes the numbers of the clauses that implied the literals at these places, and of a last one.
pub(crate) fn write_hints(
    hints: &mut Vec<u32>,
    trail: &Trail,
    places: &[u32],
    last: ClauseNo,
) -> Result<(), NoMemory>
    requires { All (λ place. place < length trail.now.entries) places.now }
    ensures { OnOk result (hints.new.items ≡ map (number_of trail.now.entries) places.now ++ last.0 ∷ []) }
{
    hints.clear();
    for place in places {
        push(hints, number_at(trail, *place))?;
    }
    push(hints, last.0)
}
