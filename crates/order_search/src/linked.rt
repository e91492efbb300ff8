ghost use Rattle.std.specs.Prelude.{◌≡◌, ◌≢◌, ◌<◌, All, length, IfSome};
ghost use Rattle.currency_base.specs.Literals.{var_of};
ghost use Rattle.refutation_log.specs.Counted.{counted_steps};
ghost use Rattle.order_links.specs.Lists.{IsListOf};
ghost use Rattle.order_search.specs.Kept.{AreRowsOf, HasAdded, IsHeld, IsOfList, vars_of};
ghost use Rattle.order_search.specs.Tied.{KeepsTied};

use crate::When;
use crate::bringing::bring_in;
use crate::progress::{Progress, root_value};
use crate::subject::Subject;
use completion_build::Cycle;
use currency_base::{Lit, NoMemory, RowId};
use order_links::{Links, ListId, ListIdList};
use order_literals::one_literal;
use search_restarts::LEADER;
use search_trail::Trail;
use solver_guides::Guides;
use std::alloc::Global;

// How many variables are told at least of what is next, some of them again and again. So they outweigh what conflicts of earlier
// goals told, and the guide that leads does not go over all that is decided before it comes to the next.
const ENOUGH: usize = 64;

// How many lists a goal brings in at most, and tells the ring of. What goes round beyond them comes in when it does.
const NEAR: usize = 64;

// Where more variables than these are told, those of no further list are.
const MANY: usize = 512;

/// Brings in a list and those that it is linked with, the nearest first and up to so many, but for those that are there, and
/// tells the ring their variables: about how many it told. Where the order of the list's rows is known with nothing assumed,
/// nothing is done.
pub(crate) fn bring_linked(
    subject: &Subject<'_>,
    progress: &mut Progress,
    links: &Links<'_>,
    alloc: Global,
    list: ListId,
    when: When,
    guides: &mut Guides,
) -> Result<usize, NoMemory>
    requires held { IsHeld subject.now progress.old.solver progress.old.brought.items }
    requires list { IsListOf subject.now.spec.relations list }
    requires links { links.now ≡ subject.now.spec.relations }
    ensures held { IsHeld subject.now progress.new.solver progress.new.brought.items }
    ensures added { HasAdded progress.old.solver progress.new.solver }
    ensures tied { KeepsTied subject.now progress.old.solver.steps progress.new.solver.steps }
    ensures units { counted_steps progress.new.solver.steps ≡ counted_steps progress.old.solver.steps }
{
    if is_settled(subject, progress.solver.trail(), list, subject.rows(list)) {
        return Ok(0);
    }
    let near = match links.near(list, NEAR) {
        Ok(near) => near,
        Err(error) => return Err(error),
    };
    let told = match when {
        When::Next => lead_to(subject, &near, guides),
        When::Later => tell_lists(subject, &near, guides),
    };
    match bring_lists(subject, progress, alloc, &near, guides) {
        Ok(()) => Ok(told),
        Err(error) => Err(error),
    }
}

// Brings in these lists, but for those that are there.
fn bring_lists(
    subject: &Subject<'_>,
    progress: &mut Progress,
    alloc: Global,
    lists: &ListIdList,
    guides: &mut Guides,
) -> Result<(), NoMemory>
    requires held { IsHeld subject.now progress.old.solver progress.old.brought.items }
    requires lists { All (IsListOf subject.now.spec.relations) lists.now }
    ensures held { IsHeld subject.now progress.new.solver progress.new.brought.items }
    ensures added { HasAdded progress.old.solver progress.new.solver }
    ensures tied { KeepsTied subject.now progress.old.solver.steps progress.new.solver.steps }
    ensures units { counted_steps progress.new.solver.steps ≡ counted_steps progress.old.solver.steps }
{
    for place in 0..lists.len() {
        let list = *lists.get(place);
        match bring_list(subject, progress, alloc, list, guides) {
            Ok(()) => {}
            Err(error) => return Err(error),
        }
    }
    Ok(())
}

// Brings in a list, unless it is there. One of two rows has no axioms on three.
fn bring_list(
    subject: &Subject<'_>,
    progress: &mut Progress,
    alloc: Global,
    list: ListId,
    guides: &mut Guides,
) -> Result<(), NoMemory>
    requires held { IsHeld subject.now progress.old.solver progress.old.brought.items }
    requires list { IsListOf subject.now.spec.relations list }
    ensures held { IsHeld subject.now progress.new.solver progress.new.brought.items }
    ensures added { HasAdded progress.old.solver progress.new.solver }
    ensures tied { KeepsTied subject.now progress.old.solver.steps progress.new.solver.steps }
    ensures units { counted_steps progress.new.solver.steps ≡ counted_steps progress.old.solver.steps }
{
    let rows = subject.rows(list);
    if is_brought(subject, progress.brought.as_slice(), list, rows) {
        return Ok(());
    }
    match front_of(subject, list, rows) {
        Some(front) => bring_in(subject, progress, alloc, front, guides),
        None => Ok(()),
    }
}

// The first three rows of a list, if there are three.
fn front_of(subject: &Subject<'_>, list: ListId, rows: &[RowId]) -> Option<Cycle>
    requires { AreRowsOf subject.now list rows.now }
    ensures { IfSome result (IsOfList subject.now) }
{
    if rows.len() < 3 {
        return None;
    }
    Some(Cycle {
        rel: list.rel,
        attr: list.attr,
        ent: list.ent,
        first: rows[0],
        second: rows[1],
        third: rows[2],
    })
}

// Is a list there? Then the variable of two of its rows is marked.
fn is_brought(subject: &Subject<'_>, brought: &[bool], list: ListId, rows: &[RowId]) -> bool
    requires rows { AreRowsOf subject.now list rows.now }
    requires marks { length brought.now ≡ length (vars_of subject.now) }
{
    for place in 0..rows.len() {
        if is_marked(subject, brought, list, rows, place) {
            return true;
        }
    }
    false
}

// Is the variable of a row and one that stands above it in the list of rows marked?
fn is_marked(
    subject: &Subject<'_>,
    brought: &[bool],
    list: ListId,
    rows: &[RowId],
    place: usize,
) -> bool
    requires rows { AreRowsOf subject.now list rows.now }
    requires marks { length brought.now ≡ length (vars_of subject.now) }
    requires place { place < length rows.now }
{
    for other in 0..place {
        let lit = pair_at(subject, list, rows, other, place);
        if brought[lit.var() as usize] {
            return true;
        }
    }
    false
}

// Does the order of each two rows of a list follow with nothing assumed?
fn is_settled(subject: &Subject<'_>, trail: &Trail, list: ListId, rows: &[RowId]) -> bool
    requires { AreRowsOf subject.now list rows.now }
{
    for place in 0..rows.len() {
        if !is_placed(subject, trail, list, rows, place) {
            return false;
        }
    }
    true
}

// Does the order of a row and each that stands above it in the list of rows follow with nothing assumed?
fn is_placed(
    subject: &Subject<'_>,
    trail: &Trail,
    list: ListId,
    rows: &[RowId],
    place: usize,
) -> bool
    requires rows { AreRowsOf subject.now list rows.now }
    requires place { place < length rows.now }
{
    for other in 0..place {
        if root_value(trail, pair_at(subject, list, rows, other, place).var()).is_none() {
            return false;
        }
    }
    true
}

// Lets the guide lead that picks first what it is told of, if there is one, and tells it the variables of lists: the more often,
// the fewer these are. How many they are.
fn lead_to(subject: &Subject<'_>, lists: &ListIdList, guides: &mut Guides) -> usize
    requires { All (IsListOf subject.now.spec.relations) lists.now }
{
    for _ in 0..guides.len() {
        // the leader picks first what it is told of; the first guide takes variables in their order
        if guides.place() == LEADER {
            break;
        }
        guides.restart();
    }
    tell_often(subject, lists, guides)
}

// Tells the ring the variables of lists as often as makes enough: how many they are.
fn tell_often(subject: &Subject<'_>, lists: &ListIdList, guides: &mut Guides) -> usize
    requires { All (IsListOf subject.now.spec.relations) lists.now }
{
    let told = tell_lists(subject, lists, guides);
    for _ in 0..ENOUGH / told.max(1) {
        tell_lists(subject, lists, guides);
    }
    told
}

// Tells the ring the variables of lists, from the first one on, up to the list with which there are many: how many they are.
fn tell_lists(subject: &Subject<'_>, lists: &ListIdList, guides: &mut Guides) -> usize
    requires { All (IsListOf subject.now.spec.relations) lists.now }
{
    let mut told: usize = 0;
    for place in 0..lists.len() {
        if told > MANY {
            break;
        }
        told = told.saturating_add(tell_list(subject, *lists.get(place), guides));
    }
    told
}

// Tells the ring the variables of a list, so that the search stays near it: how many they are.
fn tell_list(subject: &Subject<'_>, list: ListId, guides: &mut Guides) -> usize
    requires { IsListOf subject.now.spec.relations list }
{
    let rows = subject.rows(list);
    for place in 0..rows.len() {
        tell_row(subject, list, rows, place, guides);
    }
    rows.len().saturating_mul(rows.len()) / 2
}

// Tells the ring the variables of a row and those that stand above it in the list of rows.
fn tell_row(subject: &Subject<'_>, list: ListId, rows: &[RowId], place: usize, guides: &mut Guides)
    requires rows { AreRowsOf subject.now list rows.now }
    requires place { place < length rows.now }
{
    for other in 0..place {
        let lit = pair_at(subject, list, rows, other, place);
        guides.saw(lit.var());
    }
}

/// The literal that says that the row at one place stands before the row at another.
pub(crate) fn pair_at(
    subject: &Subject<'_>,
    list: ListId,
    rows: &[RowId],
    first: usize,
    second: usize,
) -> Lit
    requires rows { AreRowsOf subject.now list rows.now }
    requires first { first < length rows.now }
    requires second { second < length rows.now }
    requires differ { first ≢ second }
    ensures { var_of result < length (vars_of subject.now) }
{
    one_literal();
    subject.before(list.rel, list.attr, rows[first], rows[second])
}
