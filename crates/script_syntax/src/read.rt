ghost use Rattle.std.specs.Prelude.{◌≡◌, ◌⊎◌, IfOk, IfErr};
ghost use Rattle.script_syntax.specs.Texts.{ReadsScript, RefusesScript};

use crate::entry::ScriptRule;
use crate::{EntryList, TextFault};
use std::alloc::Global;
use text_grammar::read_text;

/// Reads a script: entries to the end of the text. A text without entries is one.
///
/// NotUtf8 comes where the text is not UTF-8, at the line of the first wrong byte. Syntax comes at the line
/// of the first token with which no script goes on, or where the text ends too early at the line of its
/// end.
pub fn read_script(alloc: Global, source: &[u8]) -> Result<EntryList, TextFault>
    ensures read { IfOk result (λ entries. ReadsScript source.now entries) }
    ensures refused { IfErr result (λ e. (e ≡ TextFault.NoMemory) ⊎ RefusesScript source.now e) }
{
    read_text::<ScriptRule>(alloc, source)
}
