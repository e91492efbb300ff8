ghost use Rattle.std.specs.Prelude.{◌≡◌, ◌⊎◌, ◌+◌, ◌<◌, ◌^◌, ◌∷◌, ◌++◌, [], length, slice_get, OnOk, OnErr, IfErr};
ghost use Rattle.refutation_log.specs.Follows.{FollowsFrom};
ghost use Rattle.log_replay.specs.declared.fault.StepFault.TheVariants as fault;
ghost use Rattle.log_replay.specs.Replays.{IsStepRefusal, IsHintState, HintFails, IsUsed};

use crate::StepFault;
use crate::clause_state::{ClauseState, state_of};
use crate::clauses::Clauses;
use crate::marks::Marks;
use currency_base::{Lit, NoMemory};
use std::alloc::Global;
use std::marker::Model;

/// The clauses of a log's steps so far. Contracts see the list of their literals.
#[derive(Drop)]
pub struct Replay {
    clauses: Clauses,
    // the literals that are false; none between calls
    falses: Marks,
}

impl Model for Replay {
    ghost use Rattle.std.specs.Prelude.{◌≡◌, List, []};
    ghost use Rattle.currency_base.specs.declared.lit.Lit.{Lit};

    ghost Value = { List (List Lit) };

    ghost view = { λ r. r.clauses };

    ghost invariant = { λ r. r.falses ≡ [] };
}

impl Replay {
    /// No clause yet. Takes no memory.
    pub fn new(alloc: Global) -> Replay
        ensures { result ≡ [] }
    {
        Replay {
            clauses: Clauses::new(alloc),
            falses: Marks::new(alloc),
        }
    }

    /// How many clauses there are.
    pub fn len(&self) -> usize
        ensures { result ≡ length self.now }
    {
        self.clauses.len()
    }

    /// The literals of the clause at a place.
    pub fn clause(&self, place: usize) -> &[Lit]
        requires { place < length self.now }
        ensures { slice_get self.now place ≡ Some result.now }
    {
        self.clauses.get(place)
    }

    /// Adds a clause that needs no hint: an axiom. A refusal changes nothing.
    pub fn axiom(&mut self, lits: &[Lit]) -> Result<(), NoMemory>
        ensures ok { OnOk result (self.new ≡ self.old ++ lits.now ∷ []) }
        ensures err { OnErr result (self.new ≡ self.old) }
    {
        self.clauses.push(lits)
    }

    /// Adds a clause exactly where it follows from the earlier ones with its hints. The hints are gone
    /// through in order, and the first that fails is told. A refusal changes nothing.
    pub fn step(&mut self, lits: &[Lit], hints: &[u32]) -> Result<(), StepFault>
        requires { length hints.now < 2 ^ 32 }
        ensures ok { OnOk result (self.new ≡ self.old ++ lits.now ∷ []) }
        ensures follows { OnOk result (FollowsFrom self.old lits.now hints.now) }
        ensures err { OnErr result (self.new ≡ self.old) }
        ensures refused { IfErr result (λ e. (e ≡ fault.NoMemory) ⊎ IsStepRefusal self.old lits.now hints.now e) }
        ensures exact { FollowsFrom self.old lits.now hints.now → IfErr result (λ e. e ≡ fault.NoMemory) }
    {
        let outcome = check_step(&self.clauses, &mut self.falses, lits, hints);
        self.falses.clear();
        outcome?;
        self.clauses.push(lits)?;
        Ok(())
    }
}

// Goes through the hints of a clause and tells why it does not follow with them, if it does not.
fn check_step(
    clauses: &Clauses,
    falses: &mut Marks,
    lits: &[Lit],
    hints: &[u32],
) -> Result<(), StepFault>
    requires few { length hints.now < 2 ^ 32 }
    requires clear { falses.old ≡ [] }
    ensures follows { OnOk result (FollowsFrom clauses.now lits.now hints.now) }
    ensures refused { IfErr result (λ e. (e ≡ fault.NoMemory) ⊎ IsStepRefusal clauses.now lits.now hints.now e) }
{
    let Some(last) = hints.len().checked_sub(1) else {
        return Err(StepFault::NoConflict);
    };
    falses.mark_all(lits)?;
    for place in 0..last {
        use_hint(clauses, falses, hints[place], place as u32)?;
    }
    match hint_state(clauses, falses, hints[last]) {
        None => Err(StepFault::UnknownHint { place: last as u32 }),
        Some(state) => match state {
            ClauseState::Falsified => Ok(()),
            _ => Err(StepFault::NoConflict),
        },
    }
}

// Uses the hint at a place that is not the last: the negation of the literal that it leaves open, if there is
// one, is false.
fn use_hint(clauses: &Clauses, falses: &mut Marks, hint: u32, place: u32) -> Result<(), StepFault>
    ensures used { OnOk result (IsUsed clauses.now falses.old hint falses.new) }
    ensures fails { IfErr result (λ e. (e ≡ fault.NoMemory) ⊎ HintFails clauses.now falses.old hint place e) }
{
    match hint_state(clauses, falses, hint) {
        None => Err(StepFault::UnknownHint { place }),
        Some(ClauseState::Falsified) => Ok(()),
        Some(ClauseState::Unit(lit)) => {
            falses.mark(lit.negated())?;
            Ok(())
        }
        Some(ClauseState::Unresolved) => Err(StepFault::NotUnit { place }),
    }
}

// The state of the clause that a hint names; none where there is no such clause.
fn hint_state(clauses: &Clauses, falses: &Marks, hint: u32) -> Option<ClauseState>
    ensures { IsHintState clauses.now falses.now hint result }
{
    let hint = hint as usize;
    if hint >= clauses.len() {
        return None;
    }
    Some(state_of(falses, clauses.get(hint)))
}
