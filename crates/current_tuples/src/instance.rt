ghost use Rattle.std.specs.Prelude.{◌≡◌, ◌<◌, List, Some, length, slice_get, IfOk};
ghost use Rattle.currency_base.specs.declared.value.Value.{Value};
ghost use Rattle.spec_model.specs.Completion.{Rankings, IsCompletion};
ghost use Rattle.spec_model.specs.Current.{IsCurrentTuple, AreCurrentTuples, IsCurrentInstance};
ghost use Rattle.spec_model.specs.declared.relation.Relation.{Relation};
ghost use Rattle.current_tuples.specs.Places.{IsEntityOf};

use crate::value::last;
use currency_base::{AttrId, EntId, NoMemory, RelId, Tuple, TupleList, Value};
use spec_model::{Completion, Instance, Specification, TupleTable};
use std::alloc::Global;

/// The current instance of a completion. Takes time in proportion to its values.
pub fn current(
    alloc: Global,
    spec: &Specification,
    completion: &Completion,
) -> Result<Instance, NoMemory>
    requires { IsCompletion spec.now.relations completion.now }
    ensures { IfOk result (λ i. IsCurrentInstance spec.now.relations completion.now i.relations) }
{
    let mut relations = TupleTable::new(alloc);
    for at in 0..spec.relations().len() {
        let tuples = entity_tuples(alloc, spec, completion, RelId(at as u32))?;
        relations.push(tuples)?;
    }
    Ok(Instance { relations })
}

/// A law: a completion has one current instance.
pub fn one_current_instance()
    ensures { (relations : List Relation) → (c : Rankings) → (one other : List (List (List Value)))
        → IsCurrentInstance relations c one → IsCurrentInstance relations c other → one ≡ other }
{}

// The current tuples of the entities of a relation.
fn entity_tuples(
    alloc: Global,
    spec: &Specification,
    completion: &Completion,
    rel: RelId,
) -> Result<TupleList, NoMemory>
    requires completion { IsCompletion spec.now.relations completion.now }
    requires rel { rel.0 < length spec.now.relations }
    ensures { IfOk result (λ tuples. (r : Relation) → slice_get spec.now.relations rel.0 ≡ Some r
        → AreCurrentTuples completion.now rel.0 r tuples) }
{
    let relation = &spec.relations()[rel.0 as usize];
    let mut tuples = TupleList::new(alloc);
    for ent in 0..relation.entities.len() {
        let tuple = entity_tuple(alloc, spec, completion, rel, EntId(ent as u32))?;
        tuples.push(tuple)?;
    }
    Ok(tuples)
}

// The current tuple of an entity of a relation.
fn entity_tuple(
    alloc: Global,
    spec: &Specification,
    completion: &Completion,
    rel: RelId,
    ent: EntId,
) -> Result<Tuple, NoMemory>
    requires completion { IsCompletion spec.now.relations completion.now }
    requires entity { IsEntityOf spec.now.relations rel.0 ent.0 }
    ensures { IfOk result (λ tuple. (r : Relation) → slice_get spec.now.relations rel.0 ≡ Some r
        → IsCurrentTuple completion.now rel.0 r ent.0 tuple) }
{
    let relation = &spec.relations()[rel.0 as usize];
    let name = relation.entities.get(ent.0 as usize).duplicate(alloc)?;
    let mut tuple = Tuple::new(alloc);
    tuple.push(Value::Text(name))?;
    for attr in 0..relation.attrs.len() {
        let value = last(spec, completion, rel, AttrId(attr as u32), ent);
        tuple.push(value.duplicate(alloc)?)?;
    }
    Ok(tuple)
}
