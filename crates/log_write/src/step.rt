ghost use Rattle.std.specs.Prelude.{◌≡◌, OnOk};
ghost use Rattle.refutation_log.specs.Steps.{step_of};
ghost use Rattle.text_write.specs.Spacing.{writes_all};
ghost use Rattle.log_write.specs.Pieces.{ended_step_pieces, kind_pieces, many_pieces, step_pieces};

use crate::label::write_label;
use crate::many::{HintText, LitText, write_many};
use currency_base::NoMemory;
use refutation_log::{StepRef, Steps};
use text_write::TextWriter;

/// Writes steps, each with the semicolon that ends it.
#[tactic(auto, using(text_write::proofs::Writings::writes_append))]
pub fn write_steps(into: &mut TextWriter, steps: &Steps) -> Result<(), NoMemory>
    ensures { OnOk result (into.new ≡ writes_all into.old (many_pieces ended_step_pieces steps.now)) }
{
    for place in 0..steps.len() {
        write_ended_step(into, steps.get(place))?;
    }
    Ok(())
}

/// Writes a step and its semicolon.
#[tactic(auto, using(text_write::proofs::Writings::writes_append))]
fn write_ended_step(into: &mut TextWriter, step: StepRef<'_>) -> Result<(), NoMemory>
    ensures { OnOk result (into.new ≡ writes_all into.old (ended_step_pieces (step_of step.entry))) }
{
    write_step(into, step)?;
    into.symbol(";")
}

/// Writes a step.
#[tactic(auto, using(text_write::proofs::Writings::writes_append))]
fn write_step(into: &mut TextWriter, step: StepRef<'_>) -> Result<(), NoMemory>
    ensures { OnOk result (into.new ≡ writes_all into.old (step_pieces (step_of step.entry))) }
{
    match step {
        StepRef::Axiom { label, lits } => {
            into.word("axiom")?;
            write_label(into, label)?;
            into.symbol(":")?;
            write_many::<LitText>(into, lits)
        }
        StepRef::OnDemand { label, lits } => {
            into.word("demand")?;
            write_label(into, label)?;
            into.symbol(":")?;
            write_many::<LitText>(into, lits)
        }
        StepRef::Learn {
            lits,
            hints,
            counted,
        } => {
            write_kind(into, counted)?;
            write_many::<LitText>(into, lits)?;
            into.word("by")?;
            write_many::<HintText>(into, hints)
        }
    }
}

/// Writes the word of a clause that follows, which says whether it is counted.
fn write_kind(into: &mut TextWriter, counted: bool) -> Result<(), NoMemory>
    ensures { OnOk result (into.new ≡ writes_all into.old (kind_pieces counted)) }
{
    if counted {
        into.word("learn")
    } else {
        into.word("derive")
    }
}
