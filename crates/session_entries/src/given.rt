// Edits of given pairs.

ghost use Rattle.std.specs.Prelude.{◌≡◌, IfOk};
ghost use Rattle.spec_edits.specs.Edits.{IsEditOf, IsPairOf};
ghost use Rattle.spec_model.specs.Facts.{IsRelation};
ghost use Rattle.spec_names.specs.Names.{all_names_of, names_of};
ghost use Rattle.session_entries.specs.Entries.{checked_pair, given_edit, given_named, pair_in};

use bind_faults::{BindFault, find};
use currency_base::{AttrId, ErrorCode, Pair, RelId, Row};
use order_bind::{is_of_one_entity, resolve_pair};
use spec_edits::Edit;
use spec_model::{Relation, Specification};
use spec_names::{RelationNames, SpecNames};
use text_grammar::{Named, NamedPair};

/// The edit of a given pair that names say, or their first fault: an unknown relation, attribute or row, in this order, and
/// then a pair that is not of two rows of one entity. Takes no memory.
pub fn bind_given(
    names: &SpecNames,
    spec: &Specification,
    add: bool,
    relation: &Named,
    attr: &Named,
    pair: &NamedPair,
) -> Result<Edit, BindFault>
    requires { names.now ≡ all_names_of spec.now }
    ensures value { result ≡ given_named spec.now.relations add relation.now attr.now pair.now }
    ensures there { IfOk result (IsEditOf spec.now) }
{
    let rel = find(names.relations(), relation, ErrorCode::UnknownName)?;
    let relation = &spec.relations()[rel];
    let pair = pair_in(names.relation(rel), relation, attr, pair)?;
    Ok(given_edit(add, RelId(rel as u32), pair))
}

/// The pair that names say of a relation, or their first fault.
fn pair_in(
    names: &RelationNames,
    relation: &Relation,
    attr: &Named,
    pair: &NamedPair,
) -> Result<Pair, BindFault>
    requires names { names.now ≡ names_of relation.now }
    requires facts { IsRelation relation.now }
    ensures value { result ≡ pair_in relation.now attr.now pair.now }
    ensures there { IfOk result (IsPairOf relation.now) }
{
    let place = find(&names.attrs, attr, ErrorCode::UnknownName)?;
    let resolved = resolve_pair(&names.rows, AttrId(place as u32), pair)?;
    checked_pair(relation.rows.as_slice(), &pair.first, resolved)
}

/// The pair, unless its rows are one, or of two entities.
fn checked_pair(rows: &[Row], first: &Named, pair: Pair) -> Result<Pair, BindFault>
    ensures { result ≡ checked_pair rows.now first.now pair }
{
    if is_of_one_entity(rows, &pair) {
        Ok(pair)
    } else {
        Err(BindFault::at(ErrorCode::NotOneEntity, first))
    }
}

/// The edit by which a given pair is added, or withdrawn.
fn given_edit(add: bool, rel: RelId, pair: Pair) -> Edit
    ensures { result ≡ given_edit add rel.0 pair }
{
    if add {
        Edit::AddGiven { rel, pair }
    } else {
        Edit::WithdrawGiven { rel, pair }
    }
}
