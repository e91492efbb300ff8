// Relations by their names.

ghost use Rattle.std.specs.Prelude.{◌≡◌, option_map};
ghost use Rattle.bind_faults.specs.Faults.{first_of};
ghost use Rattle.query_bind.specs.Queried.{relation_of, unknown, unknown_in, unknown_part};

use bind_faults::BindFault;
use currency_base::ErrorCode;
use name_index::NameIndex;
use query_syntax::{DisjunctTree, PartTree};
use spec_model::Relation;
use text_grammar::Named;

/// The relation of a name, if it is one of these.
pub fn relation_of<'a>(
    names: &NameIndex,
    relations: &'a [Relation],
    named: &Named,
) -> Option<&'a Relation>
    ensures { option_map (λ r. r.now) result ≡ relation_of names.now relations.now named.now }
{
    match names.find(&named.name) {
        Some(place) => relations.get(place),
        None => None,
    }
}

/// The refusal of the first relation that is unknown.
pub fn first_unknown(names: &NameIndex, disjuncts: &[DisjunctTree]) -> Option<BindFault>
    ensures { result ≡ first_of (unknown_in names.now) disjuncts.now }
{
    for disjunct in disjuncts {
        if let Some(fault) = unknown_in(names, disjunct) {
            return Some(fault);
        }
    }
    None
}

/// The refusal of the first relation of a disjunct that is unknown.
fn unknown_in(names: &NameIndex, disjunct: &DisjunctTree) -> Option<BindFault>
    ensures { result ≡ unknown_in names.now disjunct.now }
{
    match unknown(names, &disjunct.first.relation) {
        Some(fault) => Some(fault),
        None => unknown_among(names, disjunct.parts.as_slice()),
    }
}

/// The refusal of the first relation of parts that is unknown.
fn unknown_among(names: &NameIndex, parts: &[PartTree]) -> Option<BindFault>
    ensures { result ≡ first_of (unknown_part names.now) parts.now }
{
    for part in parts {
        if let Some(fault) = unknown_part(names, part) {
            return Some(fault);
        }
    }
    None
}

/// The refusal of a part's relation, if it is unknown.
fn unknown_part(names: &NameIndex, part: &PartTree) -> Option<BindFault>
    ensures { result ≡ unknown_part names.now part.now }
{
    match part {
        PartTree::Atom(atom) => unknown(names, &atom.relation),
        PartTree::Test(_) => None,
    }
}

/// The refusal of a name that is none of these.
fn unknown(names: &NameIndex, named: &Named) -> Option<BindFault>
    ensures { result ≡ unknown names.now named.now }
{
    match names.find(&named.name) {
        Some(_) => None,
        None => Some(BindFault::at(ErrorCode::UnknownName, named)),
    }
}
