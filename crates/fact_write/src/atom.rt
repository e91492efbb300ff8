ghost use Rattle.std.specs.Prelude.{◌≡◌, OnOk};
ghost use Rattle.posed_facts.specs.Facts.{IsPlaced};
ghost use Rattle.text_write.specs.Spacing.{writes_all};
ghost use Rattle.fact_write.specs.Parts.{back_pieces, front_pieces, head_pieces};
ghost use Rattle.fact_write.specs.Pieces.{any_places, atom_pieces, claimed_pieces, variable_pieces};

use crate::read::{attrs_of, name_of, relation_of, value_of};
use currency_base::NoMemory;
use match_premises::Premise;
use spec_model::Specification;
use text_write::TextWriter;

/// Writes the atom that the claim's entity has the value that is claimed.
pub(crate) fn write_claimed(
    into: &mut TextWriter,
    spec: &Specification,
    claim: Premise,
) -> Result<(), NoMemory>
    requires { IsPlaced spec.now.relations claim }
    ensures { OnOk result (into.new ≡ writes_all into.old (claimed_pieces spec.now.relations claim)) }
{
    write_front(into, spec, claim)?;
    into.value(value_of(spec, claim))?;
    write_back(into, spec, claim)
}

/// Writes the atom that has a variable at the attribute's place.
pub(crate) fn write_variable(
    into: &mut TextWriter,
    spec: &Specification,
    claim: Premise,
) -> Result<(), NoMemory>
    requires { IsPlaced spec.now.relations claim }
    ensures { OnOk result (into.new ≡ writes_all into.old (atom_pieces spec.now.relations claim variable_pieces)) }
{
    write_front(into, spec, claim)?;
    into.word("v")?;
    write_back(into, spec, claim)
}

/// Writes what stands before the attribute's place.
#[tactic(auto, using(text_write::proofs::Writings::writes_append))]
fn write_front(into: &mut TextWriter, spec: &Specification, claim: Premise) -> Result<(), NoMemory>
    requires { IsPlaced spec.now.relations claim }
    ensures { OnOk result (into.new ≡ writes_all into.old (front_pieces spec.now.relations claim)) }
{
    write_head(into, spec, claim)?;
    write_any(into, claim.attr.0 as usize)?;
    into.symbol(",")
}

/// Writes the relation's name and the entity's.
#[tactic(auto, using(text_write::proofs::Writings::writes_append, crate::proofs::Reading::relation_named))]
fn write_head(into: &mut TextWriter, spec: &Specification, claim: Premise) -> Result<(), NoMemory>
    requires { IsPlaced spec.now.relations claim }
    ensures { OnOk result (into.new ≡ writes_all into.old (head_pieces spec.now.relations claim)) }
{
    into.name(&relation_of(spec, claim).name)?;
    into.symbol("(")?;
    into.string(name_of(spec, claim))
}

/// Writes what stands behind the attribute's place.
#[tactic(auto, using(text_write::proofs::Writings::writes_append))]
fn write_back(into: &mut TextWriter, spec: &Specification, claim: Premise) -> Result<(), NoMemory>
    requires { IsPlaced spec.now.relations claim }
    ensures { OnOk result (into.new ≡ writes_all into.old (back_pieces spec.now.relations claim)) }
{
    write_any(into, attrs_of(spec, claim) - claim.attr.0 as usize - 1)?;
    into.symbol(")")
}

/// Writes so many further places at which anything may stand.
fn write_any(into: &mut TextWriter, places: usize) -> Result<(), NoMemory>
    ensures { OnOk result (into.new ≡ writes_all into.old (any_places places)) }
{
    for _ in 0..places {
        into.symbol(",")?;
        into.word("_")?;
    }
    Ok(())
}
