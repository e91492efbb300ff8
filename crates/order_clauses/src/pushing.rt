ghost use Rattle.std.specs.Prelude.{◌≡◌, ◌∷◌, ◌++◌, [], OnOk};
ghost use Rattle.currency_base.specs.Lists.{OnlyOnce};
ghost use Rattle.refutation_log.specs.Steps.{label_of};
ghost use Rattle.order_clauses.specs.Added.{Adds, AreDistinctOf, IsAddedTo, IsClauseOf};

use crate::sayings::Sayings;
use currency_base::{Lit, NoMemory};
use refutation_log::{LabelRef, StepRef, Steps};

/// Puts the axiom of a label after the steps, with the literals of its clause, each once. The clause is
/// short: each literal is looked for among those before it.
pub(crate) fn push_axiom(
    sayings: &Sayings<'_>,
    steps: &mut Steps,
    distinct: &mut Vec<Lit>,
    label: LabelRef<'_>,
    lits: &[Lit],
) -> Result<(), NoMemory>
    requires { IsClauseOf sayings.now (label_of label) lits.now }
    ensures { OnOk result (Adds sayings.now (label_of label.entry ∷ []) steps.old steps.new) }
{
    keep_distinct(distinct, lits)?;
    steps.push(StepRef::Axiom {
        label,
        lits: distinct.as_slice(),
    })
}

/// Puts the axiom of a label after the steps, with the literals of its clause, of which none stands twice.
pub(crate) fn push_distinct(
    sayings: &Sayings<'_>,
    steps: &mut Steps,
    label: LabelRef<'_>,
    lits: &[Lit],
) -> Result<(), NoMemory>
    requires clause { IsClauseOf sayings.now (label_of label) lits.now }
    requires once { OnlyOnce lits.now }
    ensures { OnOk result (Adds sayings.now (label_of label.entry ∷ []) steps.old steps.new) }
{
    steps.push(StepRef::Axiom { label, lits })
}

// Leaves of these literals each once.
fn keep_distinct(distinct: &mut Vec<Lit>, lits: &[Lit]) -> Result<(), NoMemory>
    ensures { OnOk result (AreDistinctOf lits.now distinct.new.items) }
{
    distinct.clear();
    for lit in lits {
        add_new(distinct, *lit)?;
    }
    Ok(())
}

// Puts a literal after the others, if it is not among them.
fn add_new(distinct: &mut Vec<Lit>, lit: Lit) -> Result<(), NoMemory>
    ensures { OnOk result (IsAddedTo distinct.old.items lit distinct.new.items) }
{
    if distinct.contains(&lit) {
        return Ok(());
    }
    match distinct.push(lit) {
        Ok(()) => Ok(()),
        Err(_) => Err(NoMemory),
    }
}

/// Room for the literals of a clause, so that no clause takes memory of its own.
#[derive(Drop)]
pub(crate) struct Scratch {
    pub lits: Vec<Lit>,
    pub distinct: Vec<Lit>,
}

/// Puts a literal after the others.
pub(crate) fn put(lits: &mut Vec<Lit>, lit: Lit) -> Result<(), NoMemory>
    ensures { OnOk result (lits.new.items ≡ lits.old.items ++ lit ∷ []) }
{
    match lits.push(lit) {
        Ok(()) => Ok(()),
        Err(_) => Err(NoMemory),
    }
}
