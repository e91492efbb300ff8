ghost use Rattle.std.specs.Prelude.{◌≡◌, ◌⊎◌, IfOk, IfErr};
ghost use Rattle.question_syntax.specs.Texts.{ReadsQuestion, RefusesQuestion};

use crate::question::QuestionRule;
use crate::{QuestionTree, TextFault};
use std::alloc::Global;
use text_grammar::read_text;

/// Reads a question.
///
/// NotUtf8 comes where the text is not UTF-8, at the line of the first wrong byte. Syntax comes at the line
/// of the first token with which no question goes on, or where the text ends too early at the line of its
/// end.
pub fn read_question(alloc: Global, source: &[u8]) -> Result<QuestionTree, TextFault>
    ensures read { IfOk result (λ tree. ReadsQuestion source.now tree) }
    ensures refused { IfErr result (λ e. (e ≡ TextFault.NoMemory) ⊎ RefusesQuestion source.now e) }
{
    read_text::<QuestionRule>(alloc, source)
}
