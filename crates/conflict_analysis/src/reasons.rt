ghost use Rattle.std.specs.Prelude.{◌≡◌, ◌<◌, length, option_map};
ghost use Rattle.currency_base.specs.Literals.{var_of};
ghost use Rattle.search_trail.specs.Trails.{IsFree, StandsAt};
ghost use Rattle.conflict_analysis.specs.Steps.{reason_of};

use clause_arena::ClauseNo;
use currency_base::Lit;
use search_trail::Trail;

/// The clause that implied the literal at a place, if one did.
pub(crate) fn reason_at(trail: &Trail, place: u32) -> Option<ClauseNo>
    requires { place < length trail.now.entries }
    ensures { option_map (λ no. no.0) result ≡ reason_of trail.now.entries place }
{
    trail.are_entries();
    trail.reason(trail.assigned()[place as usize].var())
}

/// The place of a literal's variable.
pub(crate) fn place_of(trail: &Trail, lit: Lit) -> u32
    requires within { var_of lit < trail.now.vars }
    requires given { IsFree trail.now (var_of lit) → ⊥ }
    ensures { StandsAt trail.now (var_of lit) result }
{
    trail.place(lit.var())
}
