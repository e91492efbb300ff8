ghost use Rattle.std.specs.Prelude.{◌≡◌, ◌⊎◌, IfOk, IfErr};
ghost use Rattle.spec_syntax.specs.Texts.{ReadsSpec, ReadsOrdering, RefusesSpec, RefusesOrdering};

use crate::ordering::EndedOrderingRule;
use crate::statement::SpecRule;
use crate::{OrderingTree, SpecTree, TextFault};
use std::alloc::Global;
use text_grammar::read_text;

/// Reads a specification. A text without statements is one.
///
/// NotUtf8 comes where the text is not UTF-8, at the line of the first wrong byte. Syntax comes at the line
/// of the first token with which no specification goes on, or where the text ends too early at the line of
/// its end.
pub fn read_spec(alloc: Global, source: &[u8]) -> Result<SpecTree, TextFault>
    ensures read { IfOk result (λ tree. ReadsSpec source.now tree) }
    ensures refused { IfErr result (λ e. (e ≡ TextFault.NoMemory) ⊎ RefusesSpec source.now e) }
{
    read_text::<SpecRule>(alloc, source)
}

/// Reads an ordering: an `order` statement without its word, and the semicolon that ends it.
///
/// The faults are those of [`read_spec`].
pub fn read_ordering(alloc: Global, source: &[u8]) -> Result<OrderingTree, TextFault>
    ensures read { IfOk result (λ tree. ReadsOrdering source.now tree) }
    ensures refused { IfErr result (λ e. (e ≡ TextFault.NoMemory) ⊎ RefusesOrdering source.now e) }
{
    read_text::<EndedOrderingRule>(alloc, source)
}
