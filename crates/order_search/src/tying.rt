ghost use Rattle.std.specs.Prelude.{◌≡◌, ◌<◌, ◌⊎◌, ℕ, All, Contains, IfOk, IfSome, OnOk, Some, length, slice_get, true};
ghost use Rattle.currency_base.specs.Literals.{var_of};
ghost use Rattle.entity_ties.specs.Parts.{Puts, list_at};
ghost use Rattle.order_search.specs.Kept.{vars_of};
ghost use Rattle.order_search.specs.Moved.{IsMoved, IsTiedTo, IsWithout, Joined, Joins, Keeps, Leaves, StaysOut};
ghost use Rattle.order_search.specs.Parts.{AreParts, IsParting};
ghost use Rattle.order_search.specs.Tied.{AreMembers, IsAnswerVar, LieIn, scope_in};
ghost use Rattle.search_trail.specs.Trails.{Ascend, IsScope};

use crate::parting::{Parting, Tie};
use crate::subject::Subject;
use currency_base::{ItemList, Lit, NoMemory};
use order_literals::one_literal;
use std::alloc::Global;
use variable_parts::{VariableParts, variables_have_parts};

/// The variables that a decision on a part gives values: those of the part, and those of the answers whose matches lie in it.
pub(crate) fn scope_of(
    subject: &Subject<'_>,
    parting: &Parting,
    alloc: Global,
    part: u32,
) -> Result<Vec<u32>, NoMemory>
    requires parting { IsParting subject.now parting.now.parts parting.now.known }
    requires members { AreMembers subject.now parting.now }
    requires part { part < length parting.now.parts.parts }
    ensures scope { IfOk result (λ vars. vars.items ≡ scope_in parting.now part) }
    ensures ascend { IfOk result (λ vars. IsScope (length (vars_of subject.now)) vars.items) }
{
    let mut vars = Vec::new(alloc);
    let Ok(()) = vars.extend_from_slice(parting.parts.vars(part)) else {
        return Err(NoMemory);
    };
    for member in parting.members.get(part as usize).as_slice() {
        // (they ascend, and the part's variables come before them)
        if !is_behind(vars.as_slice(), *member) {
            return Err(NoMemory);
        }
        let Ok(()) = vars.push(*member) else {
            return Err(NoMemory);
        };
    }
    Ok(vars)
}

// Does a number come behind all of these, which ascend?
fn is_behind(vars: &[u32], var: u32) -> bool
    requires { Ascend vars.now }
    ensures { result ≡ true → (place low : ℕ) → slice_get vars.now place ≡ Some low → low < var }
{
    let count = vars.len();
    if count == 0 {
        return true;
    }
    vars[count - 1] < var
}

/// The part of all literals of a clause but those of one variable, if they are of one.
pub(crate) fn home_of(
    subject: &Subject<'_>,
    parts: &VariableParts,
    lits: &[Lit],
    var: u32,
) -> Option<u32>
    requires parts { AreParts subject.now parts.now }
    requires within { All (λ lit. var_of lit < length (vars_of subject.now)) lits.now }
    ensures { IfSome result (λ part. LieIn parts.now part var lits.now) }
{
    let part = first_part(subject, parts, lits, var)?;
    if are_of(subject, parts, lits, var, part) {
        Some(part)
    } else {
        None
    }
}

// The part of the first literal that is of another variable.
fn first_part(subject: &Subject<'_>, parts: &VariableParts, lits: &[Lit], var: u32) -> Option<u32>
    requires parts { AreParts subject.now parts.now }
    requires within { All (λ lit. var_of lit < length (vars_of subject.now)) lits.now }
{
    for lit in lits {
        if lit.var() != var {
            return subject.part_of(parts, lit.var());
        }
    }
    None
}

// Are all literals that are not of a variable of a part?
fn are_of(subject: &Subject<'_>, parts: &VariableParts, lits: &[Lit], var: u32, part: u32) -> bool
    requires parts { AreParts subject.now parts.now }
    requires within { All (λ lit. var_of lit < length (vars_of subject.now)) lits.now }
    ensures { result ≡ true → LieIn parts.now part var lits.now }
{
    for lit in lits {
        if !lies(subject, parts, *lit, var, part) {
            return false;
        }
    }
    true
}

// Is a literal of a variable or of a part?
fn lies(subject: &Subject<'_>, parts: &VariableParts, lit: Lit, var: u32, part: u32) -> bool
    requires parts { AreParts subject.now parts.now }
    requires within { var_of lit < length (vars_of subject.now) }
    ensures { result ≡ true → (var_of lit ≡ var) ⊎ Contains (list_at parts.now.parts part) (var_of lit) }
{
    if lit.var() == var {
        return true;
    }
    is_of(subject, parts, lit.var(), part)
}

// Is a variable of a part?
fn is_of(subject: &Subject<'_>, parts: &VariableParts, var: u32, part: u32) -> bool
    requires parts { AreParts subject.now parts.now }
    requires within { var < length (vars_of subject.now) }
    ensures { result ≡ true → Contains (list_at parts.now.parts part) var }
{
    match subject.part_of(parts, var) {
        Some(own) => own == part,
        None => false,
    }
}

/// Takes note of a match of an answer, whose axiom lies in a part, if one is told: the answer is true by what is known, so that the
/// axiom is.
pub(crate) fn tie(
    subject: &Subject<'_>,
    parting: &mut Parting,
    alloc: Global,
    answer: u32,
    home: Option<u32>,
) -> Result<(), NoMemory>
    requires parting { IsParting subject.now parting.old.parts parting.old.known }
    requires members { AreMembers subject.now parting.old }
    requires answer { answer < subject.now.wanted.answers }
    ensures { OnOk result ((var : ℕ) → IsAnswerVar subject.now answer var
        → IsTiedTo subject.now answer var home parting.old parting.new) }
{
    variables_have_parts();
    one_literal();
    let var = subject.answer(answer).var();
    move_tie(subject, parting, alloc, answer, var, home)?;
    let parted = subject.parted(&parting.parts);
    parting.known.set_beside(&parted, var, true);
    Ok(())
}

// Takes note of where the matches of an answer lie, one more of which lies in a part, if one is told.
fn move_tie(
    subject: &Subject<'_>,
    parting: &mut Parting,
    alloc: Global,
    answer: u32,
    var: u32,
    home: Option<u32>,
) -> Result<(), NoMemory>
    requires members { AreMembers subject.now parting.old }
    requires says { IsAnswerVar subject.now answer var }
    requires answer { answer < subject.now.wanted.answers }
    ensures { OnOk result (IsMoved subject.now answer var home parting.old parting.new) }
{
    match *parting.ties.get(answer as usize) {
        Tie::Loose => join(parting, alloc, answer, var, home),
        Tie::In(part) => stay(parting, alloc, answer, var, part, home),
        Tie::Across => Ok(()),
    }
}

// The first match of an answer: it lies in the part that is told, where its variable comes behind the others there.
fn join(
    parting: &mut Parting,
    alloc: Global,
    answer: u32,
    var: u32,
    home: Option<u32>,
) -> Result<(), NoMemory>
    requires answer { answer < length parting.old.ties }
    ensures { OnOk result (StaysOut answer parting.old parting.new ⊎ Joined answer var home parting.old parting.new) }
{
    match room_for(parting, var, home) {
        Some(part) => {
            put(alloc, &mut parting.members, part as usize, var)?;
            let _loose = parting.ties.replace(answer as usize, Tie::In(part));
            Ok(())
        }
        None => {
            let _loose = parting.ties.replace(answer as usize, Tie::Across);
            Ok(())
        }
    }
}

// The part that is told, if a variable comes behind all that are given values with it.
fn room_for(parting: &Parting, var: u32, home: Option<u32>) -> Option<u32>
    ensures { IfSome result (λ part. (home ≡ Some part) × (part < length parting.now.members)) }
{
    let part = home?;
    if part as usize >= parting.members.len() || part as usize >= parting.parts.count() {
        return None;
    }
    let members = parting.members.get(part as usize).as_slice();
    if is_last(parting.parts.vars(part), var) && is_last(members, var) {
        Some(part)
    } else {
        None
    }
}

// Is a number greater than the last of these?
fn is_last(vars: &[u32], var: u32) -> bool {
    match vars.last() {
        Some(last) => *last < var,
        None => true,
    }
}

// One match more of an answer that lies in a part.
fn stay(
    parting: &mut Parting,
    alloc: Global,
    answer: u32,
    var: u32,
    part: u32,
    home: Option<u32>,
) -> Result<(), NoMemory>
    requires answer { answer < length parting.old.ties }
    requires part { part < length parting.old.members }
    ensures { OnOk result (((home ≡ Some part) × (parting.new ≡ parting.old)) ⊎ Leaves answer var part parting.old parting.new) }
{
    if is_home(home, part) {
        return Ok(());
    }
    let kept = without(alloc, parting.members.get(part as usize).as_slice(), var)?;
    let _ = parting.members.replace(part as usize, kept);
    let _in = parting.ties.replace(answer as usize, Tie::Across);
    Ok(())
}

// Is it the part that is told?
fn is_home(home: Option<u32>, part: u32) -> bool
    ensures { result ≡ true → home ≡ Some part }
{
    match home {
        Some(home) => home == part,
        None => false,
    }
}

// These numbers, but for one.
fn without(alloc: Global, list: &[u32], item: u32) -> Result<ItemList<u32>, NoMemory>
    ensures { IfOk result (IsWithout item list.now) }
{
    let mut kept = ItemList::new(alloc);
    for other in list {
        keep(&mut kept, *other, item)?;
    }
    Ok(kept)
}

// Puts a number after others, unless it is the one that is left out.
fn keep(kept: &mut ItemList<u32>, other: u32, item: u32) -> Result<(), NoMemory>
    ensures { OnOk result (Keeps item other kept.old kept.new) }
{
    if other == item {
        return Ok(());
    }
    kept.push(other)
}

// Puts a number into the list at a place.
fn put(
    alloc: Global,
    lists: &mut ItemList<ItemList<u32>>,
    place: usize,
    item: u32,
) -> Result<(), NoMemory>
    requires { place < length lists.old }
    ensures { OnOk result (Puts place item lists.old lists.new) }
{
    let mut list = lists.replace(place, ItemList::new(alloc));
    list.push(item)?;
    let _ = lists.replace(place, list);
    Ok(())
}
