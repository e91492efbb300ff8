ghost use Rattle.std.specs.Prelude.{◌≡◌, IfOk, drop, length, slice_get};
ghost use Rattle.std.specs.Bool.{OnTrue};
ghost use Rattle.query_model.specs.Fitting.{IsDisjunct};
ghost use Rattle.query_plan.specs.Plans.{AreSameAtoms};
ghost use Rattle.ucq_answers.specs.Kept.{IsPreparedFor, atoms_of, keeps, zip_kept};
ghost use Rattle.ucq_answers.specs.Seen.{IsSeen};

use currency_base::{EntId, NoMemory};
use query_model::Atom;
use query_plan::{Conditions, PlannedDisjunct, Step};
use semi_joins::{Kept, is_unmatched, kept_rows};
use spec_model::Instance;
use std::alloc::Global;
use std::marker::Model;

/// An atom that is searched, and which tuples of its relation can take part in a match, where that was looked at.
#[derive(Drop)]
pub(crate) struct SearchedAtom<'a> {
    atom: &'a Atom,
    kept: Option<Kept>,
}

impl<'a> Model for SearchedAtom<'a> {
    ghost use Rattle.ucq_answers.specs.Kept.{KeptAtom};

    ghost Value = { KeptAtom };

    ghost view = { λ s. record { atom = s.atom.now; kept = s.kept } };
}

impl<'a> SearchedAtom<'a> {
    /// The atom.
    pub(crate) fn atom(&self) -> &'a Atom
        ensures { result.now ≡ self.now.atom }
    {
        self.atom
    }

    /// May the tuple of a place take part in a match?
    pub(crate) fn keeps(&self, ent: EntId) -> bool
        ensures { result ≡ keeps self.now.kept ent.0 }
    {
        match &self.kept {
            None => true,
            Some(kept) => kept.has(ent.0 as usize),
        }
    }
}

/// A disjunct that is prepared for a search over an instance: its plan, its atoms in the order in which they are
/// searched, each with the tuples that can take part in a match, and whether it was seen that it has no match. Of one or
/// two atoms nothing is looked at, since the indexes find as much.
#[derive(Drop)]
pub(crate) struct PreparedDisjunct<'a> {
    planned: PlannedDisjunct<'a>,
    atoms: Vec<SearchedAtom<'a>>,
    is_unmatched: bool,
}

impl<'a> Model for PreparedDisjunct<'a> {
    ghost use Rattle.ucq_answers.specs.Kept.{IsPrepared, Prepared};

    ghost Value = { Prepared };

    ghost view = { λ p. record { disjunct = p.planned; atoms = p.atoms.items; is_unmatched = p.is_unmatched } };

    ghost invariant = { λ p. IsPrepared p.planned p.atoms.items };
}

impl<'a> PreparedDisjunct<'a> {
    /// Looks, of three atoms and more, at which tuples can take part in a match, in time in proportion to n log n for n
    /// tuples.
    pub(crate) fn new(
        alloc: Global,
        planned: PlannedDisjunct<'a>,
        instance: &Instance,
    ) -> Result<PreparedDisjunct<'a>, NoMemory>
        ensures same { IfOk result (λ p. p.disjunct ≡ planned.entry) }
        ensures right { IfOk result (IsPreparedFor instance.now.relations) }
    {
        let order = planned.order(alloc)?;
        let seen = seen_rows(alloc, instance, &order, planned.conditions())?;
        let is_unmatched = seen.is_unmatched;
        let atoms = searched_atoms(alloc, &order, seen.kept)?;
        Ok(PreparedDisjunct {
            planned,
            atoms,
            is_unmatched,
        })
    }

    /// The plan.
    pub(crate) fn planned(&self) -> &PlannedDisjunct<'a>
        ensures { result.now ≡ self.now.disjunct }
    {
        &self.planned
    }

    /// The atoms, in the order in which they are searched.
    pub(crate) fn atoms(&self) -> &[SearchedAtom<'a>]
        ensures atoms { result.now ≡ self.now.atoms }
        ensures fits { IsDisjunct self.now.disjunct }
        ensures same { AreSameAtoms self.now.disjunct.atoms (atoms_of self.now.atoms) }
    {
        &self.atoms
    }

    /// Was it seen that the disjunct has no match?
    pub(crate) fn is_unmatched(&self) -> bool
        ensures { result ≡ self.now.is_unmatched }
    {
        self.is_unmatched
    }
}

// For each of some atoms the tuples that can take part in a match, or for none, and whether one has none.
#[derive(Drop)]
struct Seen {
    kept: Vec<Kept>,
    is_unmatched: bool,
}

// Looks at atoms, if they are more than two.
fn seen_rows(
    alloc: Global,
    instance: &Instance,
    order: &[Step],
    conditions: &Conditions,
) -> Result<Seen, NoMemory>
    ensures { IfOk result (λ seen. IsSeen instance.now.relations order.now conditions.now.tests seen.kept.items
        seen.is_unmatched) }
{
    if order.len() <= 2 {
        return Ok(Seen {
            kept: Vec::new(alloc),
            is_unmatched: false,
        });
    }
    let kept = kept_rows(alloc, instance, order, conditions)?;
    let is_unmatched = is_unmatched(&kept);
    Ok(Seen { kept, is_unmatched })
}

// Atoms, each with its kept tuples.
fn searched_atoms<'a>(
    alloc: Global,
    order: &[Step<'a>],
    kept: Vec<Kept>,
) -> Result<Vec<SearchedAtom<'a>>, NoMemory>
    ensures { IfOk result (λ atoms. atoms.items ≡ zip_kept order.now kept.items) }
{
    let mut left = kept;
    let mut atoms = Vec::with_capacity(alloc, order.len())?;
    for step in order {
        let kept = first_of(&mut left);
        atoms.push(SearchedAtom {
            atom: step.atom(),
            kept,
        })?;
    }
    Ok(atoms)
}

// Takes the first of some lists of kept tuples, if there is one.
fn first_of(left: &mut Vec<Kept>) -> Option<Kept>
    ensures first { result ≡ slice_get left.old.items 0 }
    ensures rest { left.new.items ≡ drop 1 left.old.items }
{
    if left.len() == 0 {
        return None;
    }
    Some(left.remove(0))
}
