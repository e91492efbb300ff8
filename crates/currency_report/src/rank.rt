ghost use Rattle.std.specs.Prelude.{◌≡◌};
ghost use Rattle.spec_model.specs.Completion.{HasShape};
ghost use Rattle.spec_names.specs.Names.{all_names_of};
ghost use Rattle.currency_report.specs.Completed.{ranked_with, ranked_by, refused_at};
ghost use Rattle.currency_report.specs.Outcomes.{Steps};

use crate::ReportFault;
use crate::place::{place_named, rows_named};
use currency_base::ErrorCode;
use report_syntax::RankingTree;
use spec_model::{Completion, Specification, set_keeps_shape};
use spec_names::SpecNames;
use std::alloc::Global;

// The refusal of a ranking.
fn refused_at(code: ErrorCode, ranking: &RankingTree) -> ReportFault
    ensures { result ≡ refused_at code ranking.now }
{
    ReportFault::Refused {
        code,
        line: ranking.line,
    }
}

// Lists the rows of a ranking at its place, which has no row yet.
fn rank(
    alloc: Global,
    spec: &Specification,
    names: &SpecNames,
    completion: &mut Completion,
    ranking: &RankingTree,
) -> Result<(), ReportFault>
    requires names { names.now ≡ all_names_of spec.now }
    requires shape { HasShape spec.now.relations completion.old }
    ensures steps { Steps completion.new (ranked_with spec.now.relations completion.old ranking.now) result }
    ensures shape { HasShape spec.now.relations completion.new }
{
    // A specification's ids fit 32 bits: that is what this call tells.
    let _relations = spec.relations();
    let Some(place) = place_named(
        spec,
        names,
        &ranking.relation,
        &ranking.attr,
        &ranking.entity,
    ) else {
        return Err(refused_at(ErrorCode::UnknownName, ranking));
    };
    let listed = completion.ranking(place.rel, place.attr, place.ent);
    if !listed.is_empty() {
        return Err(refused_at(ErrorCode::DuplicateName, ranking));
    }
    let parts = names.relation(place.rel.0 as usize);
    let Some(rows) = rows_named(alloc, &parts.rows, ranking.rows.as_slice())? else {
        return Err(refused_at(ErrorCode::UnknownRow, ranking));
    };
    set_keeps_shape();
    completion.set(place.rel, place.attr, place.ent, rows);
    Ok(())
}

/// Lists the rows of each of these rankings at its place; the first that is refused ends it.
pub fn rank_all(
    alloc: Global,
    spec: &Specification,
    names: &SpecNames,
    completion: &mut Completion,
    rankings: &[RankingTree],
) -> Result<(), ReportFault>
    requires names { names.now ≡ all_names_of spec.now }
    requires shape { HasShape spec.now.relations completion.old }
    ensures steps { Steps completion.new (ranked_by spec.now.relations rankings.now completion.old) result }
    ensures shape { HasShape spec.now.relations completion.new }
{
    for ranking in rankings {
        match rank(alloc, spec, names, completion, ranking) {
            Ok(()) => {}
            Err(fault) => return Err(fault),
        }
    }
    Ok(())
}
