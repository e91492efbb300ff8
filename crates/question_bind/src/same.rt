// Questions on relations.

ghost use Rattle.std.specs.Prelude.{◌≡◌, ◌<◌, ◌^◌, ◌∷◌, ◌++◌, [], length, map, All, Contains, IfOk, OnOk};
ghost use Rattle.currency_base.specs.Lists.{OnlyOnce};
ghost use Rattle.bind_faults.specs.Faults.{all_of, IsDue};
ghost use Rattle.spec_model.specs.Questions.{IsQuestionOn};
ghost use Rattle.question_bind.specs.Bound.{same_of};
ghost use Rattle.question_bind.specs.Steps.{named_in, same_in, unless_again};

use bind_faults::{BindFault, find};
use currency_base::{ErrorCode, ItemList, Name, NoMemory, RelId};
use name_index::NameIndex;
use spec_model::{Question, RelList, Relation, Specification};
use std::alloc::Global;
use text_grammar::Named;

/// Places of relations.
type PlaceList = ItemList<usize>;

/// The question on the relations of these names: the first unknown name is refused, and then the first
/// whose relation stands before.
pub fn bind_same(
    alloc: Global,
    spec: &Specification,
    named: &[Named],
) -> Result<Question, BindFault>
    ensures due { IsDue (same_of spec.now.relations named.now) result }
    ensures fits { IfOk result (IsQuestionOn spec.now.relations) }
{
    let names = relation_names(alloc, spec.relations())?;
    same_among(alloc, &names, named)
}

/// The names of relations, copied. No two relations have one name.
fn relation_names(alloc: Global, relations: &[Relation]) -> Result<NameIndex, NoMemory>
    requires { OnlyOnce (map (λ r. r.name) relations.now) }
    ensures { IfOk result (λ names. names ≡ map (λ r. r.name) relations.now) }
{
    let mut names = NameIndex::new(alloc);
    for relation in relations {
        add_copy(alloc, &mut names, &relation.name)?;
    }
    Ok(names)
}

/// Adds a copy of a name that is not there.
#[tactic(auto, using(spec_names::proofs::Places::added))]
fn add_copy(alloc: Global, names: &mut NameIndex, name: &Name) -> Result<(), NoMemory>
    requires { Contains names.old name.now → ⊥ }
    ensures { OnOk result (names.new ≡ names.old ++ name.now ∷ []) }
{
    let _ = names.add(name.duplicate(alloc)?)?;
    Ok(())
}

/// The question on those of relations of these names that are named.
fn same_among(alloc: Global, names: &NameIndex, named: &[Named]) -> Result<Question, BindFault>
    requires { length names.now < 2 ^ 32 }
    ensures { IsDue (same_in names.now named.now) result }
{
    let places = places_of(alloc, names, named)?;
    let rels = each_once(alloc, names.names().len(), named, places.as_slice())?;
    Ok(Question::Same(rels))
}

/// The places of names, or the refusal of the first that is unknown.
fn places_of(alloc: Global, names: &NameIndex, named: &[Named]) -> Result<PlaceList, BindFault>
    ensures { IsDue (all_of (named_in names.now) named.now) result }
{
    let mut places = PlaceList::new(alloc);
    for name in named {
        match find(names, name, ErrorCode::UnknownName) {
            Ok(place) => {
                let Ok(()) = places.push(place) else {
                    return Err(BindFault::NoMemory);
                };
            }
            Err(fault) => return Err(fault),
        }
    }
    Ok(places)
}

/// The relations at these places of so many, or the refusal of the first name whose relation stands
/// before.
fn each_once(
    alloc: Global,
    count: usize,
    named: &[Named],
    places: &[usize],
) -> Result<RelList, BindFault>
    requires few { count < 2 ^ 32 }
    requires within { All (λ place. place < count) places.now }
    requires named { length named.now ≡ length places.now }
    ensures { IsDue (unless_again named.now places.now) result }
{
    let mut rels = RelList::new(alloc);
    let Ok(mut seen) = vec![in alloc; false; count] else {
        return Err(BindFault::NoMemory);
    };
    for (i, name) in named.iter().enumerate() {
        let place = places[i];
        if seen[place] {
            return Err(BindFault::at(ErrorCode::DuplicateName, name));
        }
        seen[place] = true;
        let Ok(()) = rels.push(RelId(place as u32)) else {
            return Err(BindFault::NoMemory);
        };
    }
    Ok(rels)
}
