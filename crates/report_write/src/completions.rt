ghost use Rattle.std.specs.Prelude.{◌≡◌, ◌∷◌, All, OnOk};
ghost use Rattle.text_write.specs.Spacing.{writes_all};
ghost use Rattle.report_write.specs.Pieces.{completions_pieces};
ghost use Rattle.report_model.specs.Writable.{IsWritableCompletion};

use crate::completion::{write_completion, write_later};
use currency_base::NoMemory;
use spec_model::{Completion, Specification};
use text_write::TextWriter;

/// Writes completions: the first whole, and of each later one what differs from the first.
pub fn write_completions(
    into: &mut TextWriter,
    spec: &Specification,
    completions: &[Completion],
) -> Result<(), NoMemory>
    requires { All (IsWritableCompletion spec.now.relations) completions.now }
    ensures { OnOk result (into.new ≡ writes_all into.old (completions_pieces spec.now.relations completions.now)) }
{
    match completions {
        [] => Ok(()),
        [first, later @ ..] => write_each(into, spec, first, later),
    }
}

/// Writes the first completion, and of each later one what differs from it.
#[tactic(auto, using(text_write::proofs::Writings::writes_append))]
fn write_each(
    into: &mut TextWriter,
    spec: &Specification,
    first: &Completion,
    later: &[Completion],
) -> Result<(), NoMemory>
    requires first { IsWritableCompletion spec.now.relations first.now }
    requires later { All (IsWritableCompletion spec.now.relations) later.now }
    ensures { OnOk result (into.new ≡ writes_all into.old (completions_pieces spec.now.relations (first.now ∷ later.now))) }
{
    write_completion(into, spec, first)?;
    for completion in later {
        write_later(into, spec, first, completion)?;
    }
    Ok(())
}
