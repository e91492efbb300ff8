// What is of two kinds.

ghost use Rattle.std.specs.Prelude.{◌≡◌, IfOk, is_some, None, ◌==◌, ◌+◌, [], length};
ghost use Rattle.bind_faults.specs.Faults.{first_of, or_else};
ghost use Rattle.spec_names.specs.Names.{place_of};
ghost use Rattle.spec_model.specs.Queries.{place_kinds};
ghost use Rattle.query_bind.specs.Queried.{atom_mismatch, clash, first_at, kind_in, mismatch_after, mismatch_by, part_mismatch, place_mismatch, relation_of, side_kind, side_line};
ghost use Rattle.query_bind.specs.Steps.{kind_among, kind_for, mismatch_from, Notes};

use crate::kinds::{clash, place_kind};
use crate::known::{head_names, kinds_in, note_disjunct};
use crate::noted::NotedKinds;
use crate::relations::relation_of;
use bind_faults::BindFault;
use currency_base::{ErrorCode, NoMemory, ValueKind};
use name_index::NameIndex;
use query_syntax::{AtomTree, DisjunctTree, PartTree, PlaceTree, TestTermTree, TestTree};
use spec_model::Relation;
use std::alloc::Global;
use text_grammar::Named;

/// What is known of a disjunct among others: the names of all relations, these relations, the names of the
/// head, the kinds that the disjuncts before it give, and those that it gives itself.
#[derive(Drop)]
struct Scope<'a> {
    names: &'a NameIndex,
    relations: &'a [Relation],
    head: &'a NameIndex,
    before: &'a NotedKinds,
    own: &'a NotedKinds,
}

/// The refusal of the first part of the disjuncts that is of two kinds.
pub fn first_mismatch(
    alloc: Global,
    names: &NameIndex,
    relations: &[Relation],
    head: &[Named],
    disjuncts: &[DisjunctTree],
) -> Result<Option<BindFault>, NoMemory>
    ensures { IfOk result (λ fault. fault ≡ mismatch_after names.now relations.now head.now [] disjuncts.now) }
{
    let head = head_names(alloc, head)?;
    let mut before = NotedKinds::new(alloc);
    mismatch_from(alloc, names, relations, &head, &mut before, disjuncts)
}

/// The same, where the names of the head are known, and the kinds that earlier disjuncts give.
fn mismatch_from(
    alloc: Global,
    names: &NameIndex,
    relations: &[Relation],
    head: &NameIndex,
    before: &mut NotedKinds,
    disjuncts: &[DisjunctTree],
) -> Result<Option<BindFault>, NoMemory>
    ensures { IfOk result (λ fault. fault ≡ mismatch_from names.now relations.now
        (λ name. is_some (place_of head.now name)) (kind_for before.old) disjuncts.now) }
{
    for disjunct in disjuncts {
        match mismatch_then(alloc, names, relations, head, before, disjunct)? {
            Some(fault) => return Ok(Some(fault)),
            None => {}
        }
    }
    Ok(None)
}

/// The refusal of the first part of a disjunct that is of two kinds. Where there is none its kinds are noted.
fn mismatch_then(
    alloc: Global,
    names: &NameIndex,
    relations: &[Relation],
    head: &NameIndex,
    before: &mut NotedKinds,
    disjunct: &DisjunctTree,
) -> Result<Option<BindFault>, NoMemory>
    ensures fault { IfOk result (λ fault. fault ≡ mismatch_by names.now relations.now
        (kind_in names.now relations.now disjunct.now)
        (kind_among head.now before.old) disjunct.now) }
    ensures noted { IfOk result (λ fault. fault ≡ None → Notes before.old before.new
        (kind_in names.now relations.now disjunct.now)) }
{
    match mismatch_of(alloc, names, relations, head, before, disjunct)? {
        Some(fault) => Ok(Some(fault)),
        None => {
            note_disjunct(alloc, before, names, relations, disjunct)?;
            Ok(None)
        }
    }
}

/// The refusal of the first part of a disjunct that is of two kinds, where the names of the head and the
/// kinds that earlier disjuncts give are known.
fn mismatch_of(
    alloc: Global,
    names: &NameIndex,
    relations: &[Relation],
    head: &NameIndex,
    before: &NotedKinds,
    disjunct: &DisjunctTree,
) -> Result<Option<BindFault>, NoMemory>
    ensures { IfOk result (λ fault. fault ≡ mismatch_by names.now relations.now (kind_in names.now relations.now disjunct.now)
        (kind_among head.now before.now) disjunct.now) }
{
    let own = kinds_in(alloc, names, relations, disjunct)?;
    let scope = Scope {
        names,
        relations,
        head,
        before,
        own: &own,
    };
    Ok(mismatch_in(&scope, disjunct))
}

/// The refusal of the first part of a disjunct that is of two kinds.
fn mismatch_in(scope: &Scope, disjunct: &DisjunctTree) -> Option<BindFault>
    ensures { result ≡ mismatch_by scope.now.names.now scope.now.relations.now (kind_for scope.now.own.now)
        (kind_among scope.now.head.now scope.now.before.now) disjunct.now }
{
    match atom_mismatch(scope, &disjunct.first) {
        Some(fault) => Some(fault),
        None => mismatch_among(scope, disjunct.parts.as_slice()),
    }
}

/// The refusal of the first of these parts that is of two kinds.
fn mismatch_among(scope: &Scope, parts: &[PartTree]) -> Option<BindFault>
    ensures { result ≡ first_of (part_mismatch scope.now.names.now scope.now.relations.now
        (kind_for scope.now.own.now)
        (kind_among scope.now.head.now scope.now.before.now)) parts.now }
{
    for part in parts {
        if let Some(fault) = part_mismatch(scope, part) {
            return Some(fault);
        }
    }
    None
}

/// The refusal of a part that is of two kinds.
fn part_mismatch(scope: &Scope, part: &PartTree) -> Option<BindFault>
    ensures { result ≡ part_mismatch scope.now.names.now scope.now.relations.now
        (kind_for scope.now.own.now)
        (kind_among scope.now.head.now scope.now.before.now) part.now }
{
    match part {
        PartTree::Atom(atom) => atom_mismatch(scope, atom),
        PartTree::Test(test) => test_mismatch(scope, test),
    }
}

/// The refusal of a comparison of two kinds, at its left side.
fn test_mismatch(scope: &Scope, test: &TestTree) -> Option<BindFault>
    ensures { result ≡ clash (side_line test.now.left)
        (side_kind (kind_for scope.now.own.now) test.now.left)
        (side_kind (kind_for scope.now.own.now) test.now.right) }
{
    let left = side_kind(scope, &test.left);
    let right = side_kind(scope, &test.right);
    clash(side_line(&test.left), left, right)
}

/// The kind of a side of a comparison, where its variable has one.
fn side_kind(scope: &Scope, side: &TestTermTree) -> Option<ValueKind>
    ensures { result ≡ side_kind (kind_for scope.now.own.now) side.now }
{
    match side {
        TestTermTree::Var(named) => scope.own.get(&named.name),
        TestTermTree::Constant(constant) => Some(constant.value.kind()),
    }
}

/// The line of a side of a comparison.
fn side_line(side: &TestTermTree) -> u32
    ensures { result ≡ side_line side.now }
{
    match side {
        TestTermTree::Var(named) => named.line,
        TestTermTree::Constant(constant) => constant.line,
    }
}

/// The refusal of an atom with another number of places than its relation wants, or of the first of its
/// places that is of two kinds.
fn atom_mismatch(scope: &Scope, atom: &AtomTree) -> Option<BindFault>
    ensures { result ≡ atom_mismatch
        (kind_for scope.now.own.now)
        (kind_among scope.now.head.now scope.now.before.now)
        (relation_of scope.now.names.now scope.now.relations.now atom.now.relation) atom.now }
{
    let relation = relation_of(scope.names, scope.relations, &atom.relation)?;
    let places = atom.places.as_slice();
    if has_places(relation, places) {
        mismatch_at(scope, relation, places)
    } else {
        Some(BindFault::at(ErrorCode::Mismatch, &atom.relation))
    }
}

/// Is there one place more than the relation has attributes?
fn has_places(relation: &Relation, places: &[PlaceTree]) -> bool
    ensures { result ≡ (length places.now == length relation.now.attrs + 1) }
{
    match places.len().checked_sub(1) {
        Some(attrs) => attrs == relation.attrs.len(),
        None => false,
    }
}

/// The refusal of the first of an atom's places that is of two kinds.
fn mismatch_at(scope: &Scope, relation: &Relation, places: &[PlaceTree]) -> Option<BindFault>
    ensures { result ≡ first_at (place_mismatch
        (kind_for scope.now.own.now)
        (kind_among scope.now.head.now scope.now.before.now) relation.now) 0 places.now }
{
    for (at, place) in places.iter().enumerate() {
        if let Some(fault) = place_mismatch(scope, relation, at, place) {
            return Some(fault);
        }
    }
    None
}

/// The refusal of what stands at a place of another kind than its own.
fn place_mismatch(
    scope: &Scope,
    relation: &Relation,
    at: usize,
    place: &PlaceTree,
) -> Option<BindFault>
    ensures { result ≡ place_mismatch
        (kind_for scope.now.own.now)
        (kind_among scope.now.head.now scope.now.before.now) relation.now at place.now }
{
    match place {
        PlaceTree::Var(named) => var_mismatch(scope, named, place_kind(relation, at)),
        PlaceTree::Any { .. } => None,
        PlaceTree::Constant(constant) => {
            let kind = place_kind(relation, at);
            clash(constant.line, Some(constant.value.kind()), kind)
        }
    }
}

/// The refusal of a variable at a place of another kind than it has by the disjunct, or by those before.
fn var_mismatch(scope: &Scope, named: &Named, kind: Option<ValueKind>) -> Option<BindFault>
    ensures { result ≡ or_else
        (clash named.now.line (kind_for scope.now.own.now named.now.name) kind)
        (clash named.now.line (kind_among scope.now.head.now scope.now.before.now named.now.name) kind) }
{
    let own = scope.own.get(&named.name);
    match clash(named.line, own, kind) {
        Some(fault) => Some(fault),
        None => clash(named.line, kind_before(scope, named), kind),
    }
}

/// The kind that disjuncts before give a variable of the head.
fn kind_before(scope: &Scope, named: &Named) -> Option<ValueKind>
    ensures { result ≡ kind_among scope.now.head.now scope.now.before.now named.now.name }
{
    if scope.head.find(&named.name).is_some() {
        scope.before.get(&named.name)
    } else {
        None
    }
}
