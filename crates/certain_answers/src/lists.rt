ghost use Rattle.std.specs.Prelude.{◌≡◌, ◌<◌, IfSome, length, true};
ghost use Rattle.certain_answers.specs.Deciding.{IsSearchFor};
ghost use Rattle.order_links.specs.Lists.{IsListOf};
ghost use Rattle.order_search.specs.Searches.{HasGone};
ghost use Rattle.refutation_log.specs.Counted.{counted_steps};

use currency_base::{AttrId, EntId, NoMemory};
use order_links::ListId;
use order_search::{Search, When};
use query_model::{Atom, Match, Query, Term};
use solver_guides::Guides;
use spec_model::Specification;
use std::alloc::Global;
use ucq_answers::IndexedInstance;

/// Brings in the lists of a candidate: those that its match over an instance speaks of, and those that they are linked with,
/// so that no model is spent on finding that they go round. Tells the ring their variables, as it is said when it is decided:
/// about how many. No unit is taken.
pub(crate) fn bring_near(
    alloc: Global,
    spec: &Specification,
    query: &Query,
    indexed: &IndexedInstance<'_>,
    search: &mut Search<'_>,
    place: u32,
    when: When,
    guides: &mut Guides,
) -> Result<usize, NoMemory>
    requires search { IsSearchFor spec.now query.now search.old }
    requires place { place < length search.old.posed.answers }
    ensures gone { HasGone search.old search.new }
    ensures units { counted_steps search.new.log.steps ≡ counted_steps search.old.log.steps }
{
    search.is_search();
    match indexed.match_of(alloc, search.log().answers.get(place as usize)) {
        Ok(Some(found)) => bring_lists(alloc, spec, query, &found, search, when, guides),
        Ok(None) => Ok(0),
        Err(error) => Err(error),
    }
}

// Brings in the lists that a match speaks of.
fn bring_lists(
    alloc: Global,
    spec: &Specification,
    query: &Query,
    found: &Match,
    search: &mut Search<'_>,
    when: When,
    guides: &mut Guides,
) -> Result<usize, NoMemory>
    requires search { IsSearchFor spec.now query.now search.old }
    ensures gone { HasGone search.old search.new }
    ensures units { counted_steps search.new.log.steps ≡ counted_steps search.old.log.steps }
{
    let Some(disjunct) = query.disjuncts.as_slice().get(found.disjunct as usize) else {
        return Ok(0);
    };
    let mut told: usize = 0;
    for place in 0..found.entities.len() {
        let Some(atom) = disjunct.atoms.as_slice().get(place) else {
            break;
        };
        let entity = *found.entities.get(place);
        match bring_atom(alloc, spec, atom, entity, search, when, guides) {
            Ok(more) => told = told.saturating_add(more),
            Err(error) => return Err(error),
        }
    }
    Ok(told)
}

// Brings in the lists of an entity in the attributes whose values an atom asks for. The first of its places is the entity's name.
fn bring_atom(
    alloc: Global,
    spec: &Specification,
    atom: &Atom,
    entity: EntId,
    search: &mut Search<'_>,
    when: When,
    guides: &mut Guides,
) -> Result<usize, NoMemory>
    requires { search.old.spec ≡ spec.now }
    ensures gone { HasGone search.old search.new }
    ensures units { counted_steps search.new.log.steps ≡ counted_steps search.old.log.steps }
{
    let mut told: usize = 0;
    for place in 1..atom.terms.len() {
        let Some(list) = list_at(spec, atom, entity, place) else {
            continue;
        };
        match search.bring(alloc, list, when, guides) {
            Ok(more) => told = told.saturating_add(more),
            Err(error) => return Err(error),
        }
    }
    Ok(told)
}

// The list of an entity in the attribute at a place of an atom, if a value is asked for there.
fn list_at(spec: &Specification, atom: &Atom, entity: EntId, place: usize) -> Option<ListId>
    requires first { 0 < place }
    requires within { place < length atom.now.terms }
    ensures { IfSome result (IsListOf spec.now.relations) }
{
    if matches!(atom.terms.get(place), Term::Any) {
        return None;
    }
    let Ok(attr) = u32::try_from(place - 1) else {
        return None;
    };
    let list = ListId {
        rel: atom.relation,
        attr: AttrId(attr),
        ent: entity,
    };
    if is_list(spec, list) {
        Some(list)
    } else {
        None
    }
}

// Is it a list of the specification?
fn is_list(spec: &Specification, list: ListId) -> bool
    ensures { result ≡ true → IsListOf spec.now.relations list }
{
    let Some(relation) = spec.relations().get(list.rel.0 as usize) else {
        return false;
    };
    (list.attr.0 as usize) < relation.attrs.len() && (list.ent.0 as usize) < relation.entities.len()
}
