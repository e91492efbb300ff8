ghost use Rattle.std.specs.Prelude.{◌≡◌, ◌<◌, IfOk, length};
ghost use Rattle.horn_closure.specs.Least.{cells_of};
ghost use Rattle.forced_closure.specs.Kept.{ArePairsOfCells, AreTellable, HasOrigin, IsPairOfCell, IsTellable, IsThere, IsWhy};
ghost use Rattle.forced_closure.specs.Kept.{IsWhyAt, IsWhyOf};

use crate::origin::Origin;
use crate::subject::Subject;
use crate::{Forced, Why};
use currency_base::NoMemory;
use denial_rules::Binding;
use horn_closure::{Derived, Why as CellWhy};
use std::alloc::Global;

/// The cells that were derived as forced pairs, each at its place.
pub(crate) fn tell(
    alloc: Global,
    subject: &Subject<'_>,
    origins: &[Origin],
    derived: &[Derived],
) -> Result<Vec<Forced>, NoMemory>
    requires { AreTellable subject.now origins.now derived.now }
    ensures { IfOk result (λ pairs. ArePairsOfCells subject.now origins.now derived.now pairs.items (length derived.now)) }
{
    let mut pairs = Vec::with_capacity(alloc, derived.len())?;
    for cell in derived {
        pairs.push(tell_one(alloc, subject, origins, *cell))?;
    }
    Ok(pairs)
}

// A cell as a forced pair.
fn tell_one(alloc: Global, subject: &Subject<'_>, origins: &[Origin], cell: Derived) -> Forced
    requires slot { cell.slot < cells_of subject.now.layout.sizes }
    requires why { IsTellable subject.now.rules origins.now cell.why }
    ensures { IsPairOfCell subject.now origins.now cell result }
{
    let (rel, pair) = subject.squares().pair_at(cell.slot);
    let why = why_of(alloc, subject, origins, cell.why);
    Forced { rel, pair, why }
}

// How a pair was derived, by how its cell was.
fn why_of(alloc: Global, subject: &Subject<'_>, origins: &[Origin], why: CellWhy) -> Why
    requires { IsTellable subject.now.rules origins.now why }
    ensures { IsWhy subject.now.rules origins.now why result }
{
    match why {
        CellWhy::Fact => Why::Given,
        CellWhy::Joined { first, second } => Why::Transitive { first, second },
        CellWhy::Clause(k) => why_at(alloc, subject, origins, k),
    }
}

// How a pair was derived that a clause concludes.
fn why_at(alloc: Global, subject: &Subject<'_>, origins: &[Origin], k: u32) -> Why
    requires { HasOrigin subject.now.rules origins.now k }
    ensures { IsWhyAt subject.now.rules origins.now k result }
{
    why_by(alloc, subject, origins[k as usize])
}

// How a pair was derived that a clause of this origin concludes.
fn why_by(alloc: Global, subject: &Subject<'_>, origin: Origin) -> Why
    requires { IsThere subject.now.rules origin }
    ensures { IsWhyOf subject.now.rules origin result }
{
    match origin {
        Origin::Rule { rule, ground } => Why::Rule {
            rule,
            rows: Binding::of(alloc, subject.grounds_of(rule).get(ground)),
        },
        Origin::Copy {
            copy,
            place,
            first,
            second,
        } => Why::Copy {
            copy,
            place,
            first,
            second,
        },
        Origin::Back {
            copy,
            place,
            first,
            second,
        } => Why::Back {
            copy,
            place,
            first,
            second,
        },
    }
}
