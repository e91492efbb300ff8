ghost use Rattle.std.specs.Prelude.{◌≡◌, ◌∷◌, All, OnOk, Some};
ghost use Rattle.log_write.specs.Pieces.{many_pieces};
ghost use Rattle.posed_facts.specs.Facts.{IsPlaced};
ghost use Rattle.text_write.specs.Spacing.{writes_all};
ghost use Rattle.fact_write.specs.Pieces.{claimed_pieces, or_pieces, other_pieces, others_pieces, test_pieces, where_pieces};
ghost use Rattle.fact_write.specs.Pieces.{whether_pieces};

use crate::atom::{write_claimed, write_variable};
use crate::read::value_of;
use currency_base::{NoMemory, Value};
use match_premises::Premise;
use spec_model::Specification;
use text_write::TextWriter;

/// Writes the question whether the claimed value is the current one.
#[tactic(auto, using(text_write::proofs::Writings::writes_append))]
pub(crate) fn write_current(
    into: &mut TextWriter,
    spec: &Specification,
    claim: Premise,
) -> Result<(), NoMemory>
    requires { IsPlaced spec.now.relations claim }
    ensures { OnOk result (into.new ≡ writes_all into.old (whether_pieces (claimed_pieces spec.now.relations claim))) }
{
    write_where(into)?;
    write_claimed(into, spec, claim)?;
    into.symbol(";")
}

/// Writes the question whether one of the claimed values is not the current one.
#[tactic(auto, using(text_write::proofs::Writings::writes_append))]
pub(crate) fn write_lacks(
    into: &mut TextWriter,
    spec: &Specification,
    claims: &[Premise],
) -> Result<(), NoMemory>
    requires { All (IsPlaced spec.now.relations) claims.now }
    ensures { OnOk result (into.new ≡ writes_all into.old (whether_pieces (others_pieces spec.now.relations claims.now))) }
{
    write_where(into)?;
    write_others(into, spec, claims)?;
    into.symbol(";")
}

/// Writes the head of a query that has no variables.
fn write_where(into: &mut TextWriter) -> Result<(), NoMemory>
    ensures { OnOk result (into.new ≡ writes_all into.old where_pieces) }
{
    into.word("answers")?;
    into.symbol("(")?;
    into.symbol(")")?;
    into.word("where")
}

/// Writes disjuncts, each of which says that a claimed value is not the current one.
fn write_others(
    into: &mut TextWriter,
    spec: &Specification,
    claims: &[Premise],
) -> Result<(), NoMemory>
    requires { All (IsPlaced spec.now.relations) claims.now }
    ensures { OnOk result (into.new ≡ writes_all into.old (others_pieces spec.now.relations claims.now)) }
{
    match claims {
        [] => Ok(()),
        [first, rest @ ..] => write_first(into, spec, *first, rest),
    }
}

/// Writes the first disjunct, and the further ones.
#[tactic(auto, using(text_write::proofs::Writings::writes_append))]
fn write_first(
    into: &mut TextWriter,
    spec: &Specification,
    first: Premise,
    rest: &[Premise],
) -> Result<(), NoMemory>
    requires first { IsPlaced spec.now.relations first }
    requires rest { All (IsPlaced spec.now.relations) rest.now }
    ensures { OnOk result (into.new ≡ writes_all into.old (others_pieces spec.now.relations (first ∷ rest.now))) }
{
    write_other(into, spec, first)?;
    write_further(into, spec, rest)
}

/// Writes further disjuncts.
fn write_further(
    into: &mut TextWriter,
    spec: &Specification,
    claims: &[Premise],
) -> Result<(), NoMemory>
    requires { All (IsPlaced spec.now.relations) claims.now }
    ensures { OnOk result (into.new ≡ writes_all into.old (many_pieces (or_pieces spec.now.relations) claims.now)) }
{
    for claim in claims {
        write_or(into, spec, *claim)?;
    }
    Ok(())
}

/// Writes a further disjunct.
fn write_or(into: &mut TextWriter, spec: &Specification, claim: Premise) -> Result<(), NoMemory>
    requires { IsPlaced spec.now.relations claim }
    ensures { OnOk result (into.new ≡ writes_all into.old (or_pieces spec.now.relations claim)) }
{
    into.word("or")?;
    write_other(into, spec, claim)
}

/// Writes that the entity has another value.
#[tactic(auto, using(text_write::proofs::Writings::writes_append))]
fn write_other(into: &mut TextWriter, spec: &Specification, claim: Premise) -> Result<(), NoMemory>
    requires { IsPlaced spec.now.relations claim }
    ensures { OnOk result (into.new ≡ writes_all into.old (other_pieces spec.now.relations claim)) }
{
    write_variable(into, spec, claim)?;
    write_test(into, value_of(spec, claim))
}

/// Writes that the variable is not this value.
fn write_test(into: &mut TextWriter, value: &Value) -> Result<(), NoMemory>
    ensures { OnOk result (into.new ≡ writes_all into.old (test_pieces (Some value.now))) }
{
    into.word("and")?;
    into.word("v")?;
    into.symbol("!=")?;
    into.value(value)
}
