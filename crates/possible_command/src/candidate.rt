//! Candidates, as they are written.

ghost use Rattle.std.specs.Prelude.{◌≡◌, OnOk};
ghost use Rattle.log_write.specs.Pieces.{entity_pieces, many_pieces, number_pieces};
ghost use Rattle.possible_values.specs.declared.candidates.Candidate.TheVariants as candidate;
ghost use Rattle.posed_facts.specs.Facts.{IsPlaced};
ghost use Rattle.spec_model.specs.Questions.{IsAskedPair};
ghost use Rattle.text_write.specs.Spacing.{writes_all};
ghost use Rattle.possible_command.specs.Text.{candidate_pieces};
ghost use Rattle.possible_command.specs.Findings.{IsNamed};

use currency_base::{EntId, NoMemory, Value};
use fact_write::{name_of, value_of};
use log_write::write_values;
use match_premises::Premise;
use possible_values::Candidate;
use query_model::Match;
use report_write::{write_attribute, write_row};
use spec_model::{Asked, Relation, Specification};
use text_write::TextWriter;

/// Writes a candidate.
pub(crate) fn write_candidate(
    into: &mut TextWriter,
    spec: &Specification,
    one: &Candidate,
) -> Result<(), NoMemory>
    requires { IsNamed spec.now.relations one.now }
    ensures { OnOk result (into.new ≡ writes_all into.old (candidate_pieces spec.now.relations one.now)) }
{
    match one {
        Candidate::Pair(pair) => write_pair(into, spec.relations(), *pair),
        Candidate::Value(claim) => write_claim(into, spec, *claim),
        Candidate::Match(one) => write_match(into, spec, one),
    }
}

/// Writes that a row comes before another.
#[tactic(auto, using(text_write::proofs::Writings::writes_append))]
fn write_pair(into: &mut TextWriter, relations: &[Relation], asked: Asked) -> Result<(), NoMemory>
    requires { IsAskedPair relations.now asked }
    ensures { OnOk result (into.new ≡ writes_all into.old (candidate_pieces relations.now (candidate.Pair asked))) }
{
    into.word("before")?;
    write_attribute(into, relations, asked.rel, asked.pair.attr)?;
    into.symbol(":")?;
    write_row(into, relations, asked.rel, asked.pair.earlier)?;
    into.symbol("<")?;
    write_row(into, relations, asked.rel, asked.pair.later)
}

/// Writes that an entity has a value.
#[tactic(auto, using(text_write::proofs::Writings::writes_append))]
fn write_claim(into: &mut TextWriter, spec: &Specification, claim: Premise) -> Result<(), NoMemory>
    requires { IsPlaced spec.now.relations claim }
    ensures { OnOk result (into.new ≡ writes_all into.old (candidate_pieces spec.now.relations (candidate.Value claim))) }
{
    into.word("value")?;
    write_attribute(into, spec.relations(), claim.rel, claim.attr)?;
    into.word("of")?;
    into.name(name_of(spec, claim))?;
    into.symbol("=")?;
    into.value(value_of(spec, claim))
}

/// Writes a match, by the numbers of its disjunct and entities and by its values.
#[tactic(auto, using(text_write::proofs::Writings::writes_append))]
fn write_match(into: &mut TextWriter, spec: &Specification, one: &Match) -> Result<(), NoMemory>
    ensures { OnOk result (into.new
        ≡ writes_all into.old (candidate_pieces spec.now.relations (candidate.Match one.now))) }
{
    into.word("match")?;
    write_number(into, one.disjunct)?;
    write_entities(into, one.entities.as_slice())?;
    write_values(into, one.values.as_slice())
}

/// Writes the numbers of entities.
fn write_entities(into: &mut TextWriter, entities: &[EntId]) -> Result<(), NoMemory>
    ensures { OnOk result (into.new ≡ writes_all into.old (many_pieces entity_pieces entities.now)) }
{
    for entity in entities {
        write_number(into, entity.0)?;
    }
    Ok(())
}

/// Writes a place, counted from 1.
fn write_number(into: &mut TextWriter, place: u32) -> Result<(), NoMemory>
    ensures { OnOk result (into.new ≡ writes_all into.old (number_pieces place)) }
{
    into.value(&Value::Int(place as i64 + 1))
}
