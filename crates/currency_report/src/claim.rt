ghost use Rattle.std.specs.Prelude.{◌≡◌, IfOk, map};
ghost use Rattle.spec_names.specs.Names.{all_names_of};
ghost use Rattle.currency_report.specs.Claimed.{claim_said, current_said, currents_said, pair_said, place_said};
ghost use Rattle.currency_report.specs.Outcomes.{IsDue};
ghost use Rattle.currency_report.specs.Places.{attr_named, entity_named, place_named};

use crate::ReportFault;
use crate::place::{attr_named, entity_named, place_named, row_named};
use currency_base::{ErrorCode, NoMemory, Pair, TupleList};
use report_model::{Current, CurrentList, Verdict};
use report_syntax::{AnswerTree, ClaimTree, CurrentTree};
use spec_model::{Asked, Specification};
use spec_names::SpecNames;
use std::alloc::Global;
use text_grammar::Named;

/// The verdict that a claim says, which stands on this line.
pub fn claim_said(
    alloc: Global,
    spec: &Specification,
    names: &SpecNames,
    line: u32,
    claim: &ClaimTree,
) -> Result<Verdict, ReportFault>
    requires { names.now ≡ all_names_of spec.now }
    ensures { IsDue (claim_said spec.now.relations line claim.now) result }
{
    match claim {
        ClaimTree::Inconsistent => Ok(Verdict::Inconsistent),
        ClaimTree::Consistent => Ok(Verdict::Consistent),
        ClaimTree::Certain => Ok(Verdict::Certain),
        ClaimTree::NotCertain {
            relation,
            attr,
            earlier,
            later,
        } => pair_said(spec, names, line, relation, attr, earlier, later),
        ClaimTree::Same(items) => match currents_said(alloc, spec, names, items.as_slice()) {
            Ok(items) => Ok(Verdict::Same(items)),
            Err(fault) => Err(fault),
        },
        ClaimTree::NotSame {
            relation,
            attr,
            entity,
        } => place_said(spec, names, line, relation, attr, entity),
        ClaimTree::Answers(items) => match tuples_of(alloc, items.as_slice()) {
            Ok(tuples) => Ok(Verdict::Answers(tuples)),
            Err(_) => Err(ReportFault::NoMemory),
        },
        ClaimTree::Undecided(counted) => Ok(Verdict::Undecided(*counted)),
    }
}

// `not certain`, of an attribute and two rows of its relation.
fn pair_said(
    spec: &Specification,
    names: &SpecNames,
    line: u32,
    relation: &Named,
    attr: &Named,
    earlier: &Named,
    later: &Named,
) -> Result<Verdict, ReportFault>
    requires { names.now ≡ all_names_of spec.now }
    ensures { IsDue (pair_said line earlier.now later.now (attr_named spec.now.relations relation.now attr.now)) result }
{
    // A specification's ids fit 32 bits: that is what this call tells.
    let _relations = spec.relations();
    let Some(ids) = attr_named(spec, names, relation, attr) else {
        let code = ErrorCode::UnknownName;
        return Err(ReportFault::Refused { code, line });
    };
    let rows = &names.relation(ids.rel.0 as usize).rows;
    match (row_named(rows, earlier), row_named(rows, later)) {
        (Some(earlier), Some(later)) => Ok(Verdict::NotCertain(Asked {
            rel: ids.rel,
            pair: Pair {
                attr: ids.attr,
                earlier,
                later,
            },
        })),
        _ => Err(ReportFault::Refused {
            code: ErrorCode::UnknownRow,
            line,
        }),
    }
}

// `not same`, of an attribute and an entity of its relation.
fn place_said(
    spec: &Specification,
    names: &SpecNames,
    line: u32,
    relation: &Named,
    attr: &Named,
    entity: &Named,
) -> Result<Verdict, ReportFault>
    requires { names.now ≡ all_names_of spec.now }
    ensures { IsDue (place_said line (place_named spec.now.relations relation.now attr.now entity.now)) result }
{
    match place_named(spec, names, relation, attr, entity) {
        Some(ids) => Ok(Verdict::NotSame {
            rel: ids.rel,
            attr: ids.attr,
            ent: ids.ent,
        }),
        None => Err(ReportFault::Refused {
            code: ErrorCode::UnknownName,
            line,
        }),
    }
}

// The current tuple that a clause says.
fn current_said(
    alloc: Global,
    spec: &Specification,
    names: &SpecNames,
    tree: &CurrentTree,
) -> Result<Current, ReportFault>
    requires { names.now ≡ all_names_of spec.now }
    ensures { IsDue (current_said tree.now (entity_named spec.now.relations tree.now.relation tree.now.entity)) result }
{
    let Some(ids) = entity_named(spec, names, &tree.relation, &tree.entity) else {
        let code = ErrorCode::UnknownName;
        let line = tree.line;
        return Err(ReportFault::Refused { code, line });
    };
    let values = tree.values.duplicate(alloc)?;
    Ok(Current {
        rel: ids.rel,
        ent: ids.ent,
        values,
    })
}

// The current tuples that these clauses say; the first that is refused ends it.
fn currents_said(
    alloc: Global,
    spec: &Specification,
    names: &SpecNames,
    trees: &[CurrentTree],
) -> Result<CurrentList, ReportFault>
    requires { names.now ≡ all_names_of spec.now }
    ensures { IsDue (currents_said spec.now.relations trees.now) result }
{
    let mut list = CurrentList::new(alloc);
    for tree in trees {
        let current = match current_said(alloc, spec, names, tree) {
            Ok(current) => current,
            Err(fault) => return Err(fault),
        };
        list.push(current)?;
    }
    Ok(list)
}

// The tuples of answers.
fn tuples_of(alloc: Global, trees: &[AnswerTree]) -> Result<TupleList, NoMemory>
    ensures { IfOk result (λ tuples. tuples ≡ map (λ t. t.values) trees.now) }
{
    let mut tuples = TupleList::new(alloc);
    for tree in trees {
        tuples.push(tree.values.duplicate(alloc)?)?;
    }
    Ok(tuples)
}
