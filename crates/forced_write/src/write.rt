ghost use Rattle.std.specs.Prelude.{◌≡◌, IfOk};
ghost use Rattle.forced_write.specs.ForcedText.{IsForcedText};

use crate::listing::forced_pairs;
use crate::text::write_pairs;
use currency_base::{ByteList, NoMemory};
use forced_closure::Closure;
use spec_model::Specification;
use std::alloc::Global;
use text_write::TextWriter;

/// The text of the forced pairs of a specification: how many there are, and whether one is a loop; then a line for
/// each, in order of relation, attribute, earlier row and later row. Takes time in proportion to the pairs of rows
/// of one entity in each attribute.
pub fn write_forced(
    alloc: Global,
    spec: &Specification,
    closure: &Closure<'_>,
) -> Result<ByteList, NoMemory>
    requires { closure.now.spec ≡ spec.now }
    ensures { IfOk result (IsForcedText spec.now) }
{
    let pairs = forced_pairs(alloc, spec, closure)?;
    let mut into = TextWriter::new(alloc);
    write_pairs(
        &mut into,
        spec.relations(),
        closure.loops(),
        pairs.as_slice(),
    )?;
    Ok(into.into_text())
}
