ghost use Rattle.std.specs.Prelude.{◌<◌, ℕ, IfSome, IfNone, length, slice_index};
ghost use Rattle.completion_build.specs.Contests.{Beats, AreCounts, Fall, IsRise};
ghost use Rattle.completion_build.specs.Judged.{IsRound};

use crate::Cycle;
use crate::tournament::Tournament;
use currency_base::EntId;

/// The first three rows that form a cycle. There are some where a row is put before one that is put before no
/// fewer rows than it.
pub(crate) fn find_cycle(tournament: &Tournament<'_>, counts: &[usize], ent: EntId) -> Option<Cycle>
    requires { AreCounts (length tournament.now.rows) (Beats tournament.now) counts.now }
    ensures some { IfSome result (IsRound tournament.now ent.0) }
    ensures none { IfNone result (Fall (length tournament.now.rows) (Beats tournament.now) counts.now) }
{
    let Some((first, second)) = find_rise(tournament, counts) else {
        return None;
    };
    let rows = tournament.rows();
    let Some(third) = find_third(tournament, first, second) else {
        unreachable!();
    };
    Some(Cycle {
        rel: tournament.rel(),
        attr: tournament.attr(),
        ent,
        first: rows[first],
        second: rows[second],
        third: rows[third],
    })
}

// The first two places of which the first row is put before the second and has no greater count.
fn find_rise(tournament: &Tournament<'_>, counts: &[usize]) -> Option<(usize, usize)>
    requires { AreCounts (length tournament.now.rows) (Beats tournament.now) counts.now }
    ensures some { IfSome result (λ p. IsRise (length tournament.now.rows) (Beats tournament.now) counts.now p.0 p.1) }
    ensures none { IfNone result (Fall (length tournament.now.rows) (Beats tournament.now) counts.now) }
{
    for first in 0..tournament.len() {
        if let Some(second) = find_rise_from(tournament, counts, first) {
            return Some((first, second));
        }
    }
    None
}

// The first such second place for a first one.
fn find_rise_from(tournament: &Tournament<'_>, counts: &[usize], first: usize) -> Option<usize>
    requires counts { AreCounts (length tournament.now.rows) (Beats tournament.now) counts.now }
    requires first { first < length tournament.now.rows }
    ensures some { IfSome result (IsRise (length tournament.now.rows) (Beats tournament.now) counts.now first) }
    ensures none { IfNone result ((j : ℕ) → j < length tournament.now.rows → Beats tournament.now first j
        → slice_index counts.now j < slice_index counts.now first) }
{
    for second in 0..tournament.len() {
        if counts[first] <= counts[second] && tournament.is_before(first, second) {
            return Some(second);
        }
    }
    None
}

// The first place whose row is put before the row at one place, while the row at the other is put before it.
fn find_third(tournament: &Tournament<'_>, first: usize, second: usize) -> Option<usize>
    requires first { first < length tournament.now.rows }
    requires second { second < length tournament.now.rows }
    ensures some { IfSome result (λ k. (k < length tournament.now.rows) × Beats tournament.now second k × Beats
        tournament.now k first) }
    ensures none { IfNone result ((k : ℕ) → k < length tournament.now.rows → Beats tournament.now second k
        → Beats tournament.now k first → ⊥) }
{
    for third in 0..tournament.len() {
        if tournament.is_before(second, third) && tournament.is_before(third, first) {
            return Some(third);
        }
    }
    None
}
