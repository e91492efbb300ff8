ghost use Rattle.std.specs.Prelude.{◌≡◌, IfOk};
ghost use Rattle.bound_spec.specs.Growth.{IsWithinLimits};

use crate::documents::documents;
use command_stages::read_specification;
use completion_build::{Built, rank};
use currency_base::{Assignment, NoMemory, RelId};
use entity_ground::instances;
use order_clauses::clauses;
use order_limits::number;
use order_literals::{Numbering, Wanted};
use spec_model::{RelList, Specification};
use std::alloc::Global;

/// A part of the way from a specification to clauses and back.
#[derive(Clone, Copy, Debug, PartialEq, Eq)]
pub enum Part {
    /// The documents are read.
    Read,
    /// The grounds of its rules and copy functions are found.
    Ground,
    /// The clauses are made, no current values being wanted.
    Clauses,
    /// The clauses are made, the current values of both relations being wanted.
    Wanted,
    /// The rows are ranked by an assignment that says of each pair that the lesser row is the later one.
    Rank,
}

/// What a part made.
#[derive(Clone, Copy, Debug, PartialEq, Eq)]
pub struct Counts {
    pub variables: usize,
    pub clauses: usize,
}

/// Why a part made nothing: the documents were refused, or memory ran out.
#[derive(Clone, Copy, Debug, PartialEq, Eq)]
pub enum Failed {
    Refused,
    NoMemory,
}

impl From<NoMemory> for Failed {
    fn from(_: NoMemory) -> Failed {
        Failed::NoMemory
    }
}

impl Part {
    /// The part of a word.
    pub fn of(word: &str) -> Option<Part> {
        match word {
            "read" => Some(Part::Read),
            "ground" => Some(Part::Ground),
            "clauses" => Some(Part::Clauses),
            "wanted" => Some(Part::Wanted),
            "rank" => Some(Part::Rank),
            _ => None,
        }
    }
}

/// Runs a part over the input of so many rows.
pub fn run(alloc: Global, part: Part, rows: u32) -> Result<Counts, Failed> {
    let spec = specification(alloc, rows)?;
    match part {
        Part::Read => Ok(Counts::none()),
        Part::Ground => ground(alloc, &spec),
        Part::Clauses => clause(alloc, &spec, &nothing(alloc)),
        Part::Wanted => clause(alloc, &spec, &both(alloc)?),
        Part::Rank => order(alloc, &spec, &nothing(alloc)),
    }
}

impl Counts {
    // Nothing was made.
    fn none() -> Counts {
        Counts {
            variables: 0,
            clauses: 0,
        }
    }
}

// No current values are wanted.
fn nothing(alloc: Global) -> Wanted
    ensures { result.answers ≡ 0 }
{
    Wanted {
        currents: RelList::new(alloc),
        answers: 0,
    }
}

// The current values of both relations are wanted.
fn both(alloc: Global) -> Result<Wanted, NoMemory>
    ensures { IfOk result (λ wanted. wanted.answers ≡ 0) }
{
    let mut currents = RelList::new(alloc);
    currents.push(RelId(0))?;
    currents.push(RelId(1))?;
    Ok(Wanted {
        currents,
        answers: 0,
    })
}

// The specification of so many rows.
fn specification(alloc: Global, rows: u32) -> Result<Specification, Failed>
    ensures { IfOk result IsWithinLimits }
{
    let mut shelf = documents(alloc, rows)?;
    match read_specification(alloc, &mut shelf, "s") {
        Ok(spec) => Ok(spec),
        Err(_) => Err(Failed::Refused),
    }
}

// How many grounds its rules and copy functions have.
fn ground(alloc: Global, spec: &Specification) -> Result<Counts, Failed> {
    let grounds = instances(alloc, spec)?;
    let rules: usize = grounds
        .rules
        .as_slice()
        .iter()
        .fold(0, |sum, rule| rule.len().saturating_add(sum));
    let copies: usize = grounds
        .copies
        .as_slice()
        .iter()
        .fold(0, |sum, copy| copy.len().saturating_add(sum));
    Ok(Counts {
        variables: 0,
        clauses: rules.saturating_add(copies),
    })
}

// How many clauses it has.
fn clause(alloc: Global, spec: &Specification, wanted: &Wanted) -> Result<Counts, Failed>
    requires within { IsWithinLimits spec.now }
    requires answers { wanted.now.answers ≡ 0 }
{
    let numbering = number(alloc, spec, wanted)?;
    let steps = clauses(alloc, spec, &numbering, wanted)?;
    Ok(Counts {
        variables: numbering.vars() as usize,
        clauses: steps.len(),
    })
}

// How many pairs are ranked, where the assignment says of each that the lesser row is the later one.
fn order(alloc: Global, spec: &Specification, wanted: &Wanted) -> Result<Counts, Failed>
    requires within { IsWithinLimits spec.now }
    requires answers { wanted.now.answers ≡ 0 }
{
    let numbering = number(alloc, spec, wanted)?;
    let assignment = Assignment::new(alloc, numbering.vars())?;
    let cyclic = match rank(alloc, spec, &numbering, wanted, &assignment)? {
        Built::Whole(_) => 0,
        Built::Cyclic(cycles) => cycles.len(),
    };
    Ok(Counts {
        variables: numbering.vars() as usize,
        clauses: cyclic,
    })
}
