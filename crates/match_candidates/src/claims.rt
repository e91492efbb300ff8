ghost use Rattle.std.specs.Prelude.{◌≡◌, ◌++◌, IfOk, OnOk, Some, length, option_map, slice_get};
ghost use Rattle.log_axioms.specs.Entities.{AreIndexed};
ghost use Rattle.log_axioms.specs.Matches.{atom_claims, match_claims};
ghost use Rattle.match_candidates.specs.Indexed.{AreWithRows};
ghost use Rattle.match_candidates.specs.Matches.{AreClaimsOf, IsMatch};
ghost use Rattle.spec_model.specs.Facts.{AreRelations};

use currency_base::{EntId, NoMemory, RelId, Value};
use entity_rows::{EntityRows, entity_rows};
use match_premises::{PremiseList, atom_premises};
use query_model::{Atom, Match, Query};
use spec_model::{Relation, Specification};
use std::alloc::Global;
use std::marker::Model;

/// The relations of a specification, with the rows of their entities, so that what a match claims is found without a scan.
/// Contracts see the relations.
#[derive(Drop)]
pub struct MatchClaims<'a> {
    relations: &'a [Relation],
    rows: Vec<EntityRows>,
}

impl<'a> Model for MatchClaims<'a> {
    ghost use Rattle.match_candidates.specs.Indexed.{AreWithRows, Relations};

    ghost Value = { Relations };

    ghost view = { λ c. c.relations.now };

    ghost invariant = { λ c. AreWithRows c.relations.now c.rows.items };
}

impl<'a> MatchClaims<'a> {
    /// The rows of all entities. Takes time in proportion to the rows and entities.
    pub fn new(alloc: Global, spec: &'a Specification) -> Result<MatchClaims<'a>, NoMemory>
        ensures { IfOk result (λ claims. claims ≡ spec.now.relations) }
    {
        let relations = spec.relations();
        let rows = rows_of(alloc, relations)?;
        Ok(MatchClaims { relations, rows })
    }

    /// The claims of a match: one for each value that an atom asks for, atom by atom and place by place.
    pub fn claims_of(
        &self,
        alloc: Global,
        query: &Query,
        one: &Match,
    ) -> Result<PremiseList, NoMemory>
        requires { IsMatch self.now query.now one.now }
        ensures { IfOk result (AreClaimsOf self.now query.now one.now) }
    {
        let atoms = query.disjuncts.get(one.disjunct as usize).atoms.as_slice();
        let (values, entities) = (one.values.as_slice(), one.entities.as_slice());
        match match_claims(alloc, self.relations, &self.rows, values, atoms, entities)? {
            Some(claims) => Ok(claims),
            None => unreachable!(),
        }
    }
}

/// The claims on current values of a match: one for each value that an atom asks for, atom by atom and place by place. For many
/// matches make the rows of the entities once, by `MatchClaims`.
pub fn claims_of(
    alloc: Global,
    spec: &Specification,
    query: &Query,
    one: &Match,
) -> Result<PremiseList, NoMemory>
    requires { IsMatch spec.now.relations query.now one.now }
    ensures { IfOk result (AreClaimsOf spec.now.relations query.now one.now) }
{
    MatchClaims::new(alloc, spec)?.claims_of(alloc, query, one)
}

// The rows of each entity of these relations.
fn rows_of(alloc: Global, relations: &[Relation]) -> Result<Vec<EntityRows>, NoMemory>
    requires { AreRelations relations.now }
    ensures { IfOk result (λ rows. AreIndexed relations.now rows.items) }
{
    let mut rows = Vec::new(alloc);
    for relation in relations {
        rows.push(entity_rows(alloc, relation)?)?;
    }
    Ok(rows)
}

// What atoms claim, each of its entity.
fn match_claims(
    alloc: Global,
    relations: &[Relation],
    rows: &[EntityRows],
    values: &[Value],
    atoms: &[Atom],
    entities: &[EntId],
) -> Result<Option<PremiseList>, NoMemory>
    requires rows { AreWithRows relations.now rows.now }
    requires per_atom { length entities.now ≡ length atoms.now }
    ensures { IfOk result (λ found. found ≡ match_claims relations.now values.now atoms.now entities.now) }
{
    let mut premises = PremiseList::new(alloc);
    for place in 0..atoms.len() {
        match atom_claims(
            alloc,
            relations,
            rows,
            values,
            &atoms[place],
            entities[place],
        )? {
            Some(more) => add_premises(&mut premises, &more)?,
            None => return Ok(None),
        }
    }
    Ok(Some(premises))
}

// What an atom claims of an entity of its relation.
fn atom_claims(
    alloc: Global,
    relations: &[Relation],
    rows: &[EntityRows],
    values: &[Value],
    atom: &Atom,
    ent: EntId,
) -> Result<Option<PremiseList>, NoMemory>
    requires { AreWithRows relations.now rows.now }
    ensures { IfOk result (λ found. found ≡ atom_claims relations.now values.now atom.now ent) }
{
    match relation_at(relations, atom.relation) {
        Some(relation) => {
            let members = &rows[atom.relation.0 as usize];
            atom_premises(alloc, relation, members, atom, ent, values)
        }
        None => Ok(None),
    }
}

// A relation, if it is there.
fn relation_at(relations: &[Relation], rel: RelId) -> Option<&Relation>
    ensures { option_map (λ r. r.now) result ≡ slice_get relations.now rel.0 }
{
    relations.get(rel.0 as usize)
}

// Puts premises after others.
fn add_premises(premises: &mut PremiseList, more: &PremiseList) -> Result<(), NoMemory>
    ensures { OnOk result (premises.new ≡ premises.old ++ more.now) }
{
    for premise in more.as_slice() {
        premises.push(*premise)?;
    }
    Ok(())
}
