ghost use Rattle.std.specs.Prelude.{◌≡◌, OnOk};
ghost use Rattle.posed_facts.specs.Facts.{IsPosable};
ghost use Rattle.spec_model.specs.Questions.{IsAskedPair};
ghost use Rattle.text_write.specs.Spacing.{writes_all};
ghost use Rattle.fact_write.specs.Pieces.{before_pieces, fact_pieces};

use crate::query::{write_current, write_lacks};
use currency_base::NoMemory;
use posed_facts::Fact;
use report_write::{write_attribute, write_row};
use spec_model::{Asked, Relation, Specification};
use text_write::TextWriter;

/// Writes the question that asks whether a fact holds in every consistent completion, as a text of questions says it:
/// `certain REL.ATTR: ROW < ROW;`, or `answers () where ..;` with an atom for the entity, in which the value stands at the
/// attribute's place, or, for values of which one is another, a disjunct for each, with a variable there that is not the value.
pub fn write_fact(into: &mut TextWriter, spec: &Specification, fact: &Fact) -> Result<(), NoMemory>
    requires { IsPosable spec.now.relations fact.now }
    ensures { OnOk result (into.new ≡ writes_all into.old (fact_pieces spec.now.relations fact.now)) }
{
    match fact {
        Fact::Before(pair) => write_before(into, spec.relations(), *pair),
        Fact::Current(claim) => write_current(into, spec, *claim),
        Fact::Lacks(claims) => write_lacks(into, spec, claims.as_slice()),
    }
}

/// Writes the question whether a pair holds.
#[tactic(auto, using(text_write::proofs::Writings::writes_append))]
fn write_before(into: &mut TextWriter, relations: &[Relation], asked: Asked) -> Result<(), NoMemory>
    requires { IsAskedPair relations.now asked }
    ensures { OnOk result (into.new ≡ writes_all into.old (before_pieces relations.now asked)) }
{
    into.word("certain")?;
    write_attribute(into, relations, asked.rel, asked.pair.attr)?;
    into.symbol(":")?;
    write_row(into, relations, asked.rel, asked.pair.earlier)?;
    into.symbol("<")?;
    write_row(into, relations, asked.rel, asked.pair.later)?;
    into.symbol(";")
}
