ghost use Rattle.std.specs.Prelude.{◌≡◌, ◌+◌, ◌<◌, ◌≤◌, ◌∷◌, ◌++◌, true, [], length, All, IfOk, OnOk};
ghost use Rattle.spec_model.specs.Facts.{IsGivenPair, IsCopyAmong, AreRelations, AreRules, AreCopies};
ghost use Rattle.spec_items.specs.Items.{items_of};
ghost use Rattle.kept_items.specs.Marked.{HasMarked, is_marked};
ghost use Rattle.kept_items.specs.Steps.{copied_count, copies_count, given_count, marked, marked_copies, marked_copy, marked_relation, marked_relations, set_copies, set_relations, set_rules, with_last_copy, with_last_relation};

use crate::copies::kept_copy;
use crate::laws::is_specification;
use crate::marks::take_mark;
use crate::relation::kept_relation;
use copy_functions::CopyMap;
use currency_base::NoMemory;
use denial_rules::Rule;
use spec_duplicates::copied_rule;
use spec_model::{Relation, Specification};
use std::alloc::Global;

/// The specification with the marked items alone, the marks being in the order of its items. Rules count anew among those that
/// are left. Takes time in proportion to the specification, times a logarithm for given pairs.
pub fn with_marked(
    alloc: Global,
    spec: &Specification,
    marks: &[bool],
) -> Result<Specification, NoMemory>
    requires { length marks.now ≡ length (items_of spec.now) }
    ensures { IfOk result (HasMarked spec.now marks.now) }
{
    let mut new = Specification::new(alloc);
    match fill(alloc, spec, marks, &mut new) {
        Ok(()) => Ok(new),
        Err(NoMemory) => {
            discard(new);
            Err(NoMemory)
        }
    }
}

/// Lets a specification go that is not whole.
fn discard(spec: Specification) {}

/// Puts the marked items of a specification into one with nothing in it.
fn fill(
    alloc: Global,
    whole: &Specification,
    marks: &[bool],
    part: &mut Specification,
) -> Result<(), NoMemory>
    requires marks { length marks.now ≡ length (items_of whole.now) }
    requires nothing { part.old ≡ record { relations = []; rules = []; copies = [] } }
    ensures { OnOk result (HasMarked whole.now marks.now part.new) }
{
    is_specification(whole);
    let mut at = 0;
    put_relations(alloc, whole, marks, &mut at, part)?;
    put_rules(alloc, whole, marks, &mut at, part)?;
    put_copies(alloc, whole, marks, &mut at, part)
}

/// Puts the relations, with their given pairs that are marked, into a specification that has none.
fn put_relations(
    alloc: Global,
    whole: &Specification,
    marks: &[bool],
    at: &mut usize,
    part: &mut Specification,
) -> Result<(), NoMemory>
    requires marks { at.old + given_count whole.now.relations ≤ length marks.now }
    requires fits { AreRelations (marked_relations marks.now at.old whole.now.relations) }
    requires none { part.old.relations ≡ [] }
    ensures kept { OnOk result (part.new ≡ set_relations part.old (marked_relations marks.now at.old whole.now.relations)) }
    ensures next { OnOk result (at.new ≡ at.old + given_count whole.now.relations) }
{
    for relation in whole.relations() {
        put_relation(alloc, relation, marks, at, part)?;
    }
    Ok(())
}

/// Puts a relation after the others.
fn put_relation(
    alloc: Global,
    relation: &Relation,
    marks: &[bool],
    at: &mut usize,
    part: &mut Specification,
) -> Result<(), NoMemory>
    requires pairs { All (IsGivenPair relation.now) relation.now.given }
    requires marks { at.old + length relation.now.given ≤ length marks.now }
    requires fits { AreRelations (part.old.relations ++ marked_relation marks.now at.old relation.now ∷ []) }
    ensures kept { OnOk result (part.new ≡ with_last_relation part.old (marked_relation marks.now at.old relation.now)) }
    ensures next { OnOk result (at.new ≡ at.old + length relation.now.given) }
{
    let kept = kept_relation(alloc, relation, marks, at)?;
    part.add_relation(kept)
}

/// Puts the marked rules into a specification that has none.
fn put_rules(
    alloc: Global,
    whole: &Specification,
    marks: &[bool],
    at: &mut usize,
    part: &mut Specification,
) -> Result<(), NoMemory>
    requires marks { at.old + length whole.now.rules ≤ length marks.now }
    requires fits { AreRules part.old.relations (marked marks.now at.old whole.now.rules) }
    requires none { part.old.rules ≡ [] }
    ensures kept { OnOk result (part.new ≡ set_rules part.old (marked marks.now at.old whole.now.rules)) }
    ensures next { OnOk result (at.new ≡ at.old + length whole.now.rules) }
{
    for rule in whole.rules() {
        put_rule(alloc, rule, marks, at, part)?;
    }
    Ok(())
}

/// Puts a rule after the others, if it is marked.
fn put_rule(
    alloc: Global,
    rule: &Rule,
    marks: &[bool],
    at: &mut usize,
    part: &mut Specification,
) -> Result<(), NoMemory>
    requires marks { at.old < length marks.now }
    requires fits { is_marked marks.now at.old ≡ true → AreRules part.old.relations (part.old.rules ++ rule.now ∷ []) }
    ensures kept { OnOk result (part.new ≡ set_rules part.old (part.old.rules ++ marked marks.now at.old (rule.now ∷ []))) }
    ensures next { OnOk result (at.new ≡ at.old + 1) }
{
    if !take_mark(marks, at) {
        return Ok(());
    }
    part.add_rule(copied_rule(alloc, rule)?)
}

/// Puts the copy functions, with their mapped rows that are marked, into a specification that has none.
fn put_copies(
    alloc: Global,
    whole: &Specification,
    marks: &[bool],
    at: &mut usize,
    part: &mut Specification,
) -> Result<(), NoMemory>
    requires marks { at.old + copies_count whole.now.relations whole.now.copies ≤ length marks.now }
    requires fits { AreCopies part.old.relations (marked_copies whole.now.relations marks.now at.old whole.now.copies) }
    requires none { part.old.copies ≡ [] }
    ensures { OnOk result (part.new ≡ set_copies part.old (marked_copies whole.now.relations marks.now at.old whole.now.copies)) }
{
    for copy in whole.copies() {
        put_copy(alloc, whole.relations(), copy, marks, at, part)?;
    }
    Ok(())
}

/// Puts a copy function, between these relations, after the others.
fn put_copy(
    alloc: Global,
    relations: &[Relation],
    copy: &CopyMap,
    marks: &[bool],
    at: &mut usize,
    part: &mut Specification,
) -> Result<(), NoMemory>
    requires relations { AreRelations relations.now }
    requires among { IsCopyAmong relations.now copy.now }
    requires marks { at.old + copied_count relations.now copy.now ≤ length marks.now }
    requires fits { AreCopies part.old.relations (part.old.copies ++ marked_copy relations.now marks.now at.old copy.now ∷ []) }
    ensures kept { OnOk result (part.new ≡ with_last_copy part.old (marked_copy relations.now marks.now at.old copy.now)) }
    ensures next { OnOk result (at.new ≡ at.old + copied_count relations.now copy.now) }
{
    let kept = kept_copy(alloc, relations, copy, marks, at)?;
    part.add_copy(kept)
}
