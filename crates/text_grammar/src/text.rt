ghost use Rattle.std.specs.Prelude.{◌≡◌, ◌⊎◌, IfOk, IfErr, map};
ghost use Rattle.text_tokens.specs.Lexeme.{lexeme_of};
ghost use Rattle.text_tokens.specs.Tokens;
ghost use Rattle.text_grammar.specs.Reading.{GivesWhole, whole};
ghost use Rattle.text_grammar.specs.Texts;
ghost use Rattle.text_grammar.specs.Texts.{WholeRead, WholeRefused};

use crate::{Refusal, Rule};
use std::alloc::Global;
use text_tokens::{TextFault, Token, tokens};

/// Reads a whole text by a rule.
///
/// NotUtf8 comes where the text is not UTF-8, at the line of the first wrong byte. Syntax comes where the
/// rule refuses a token, at its line, or at the line where the text ends; and where a token is left after
/// what the rule spells.
pub fn read_text<R: Rule>(alloc: Global, source: &[u8]) -> Result<R::Tree, TextFault>
    ensures read { IfOk result (λ tree. WholeRead R.reader source.now tree) }
    ensures refused { IfErr result (λ e. (e ≡ TextFault.NoMemory) ⊎ WholeRefused R.reader source.now e) }
{
    let found = match tokens(alloc, source) {
        Ok(found) => found,
        Err(fault) => return Err(fault),
    };
    match read_all::<R>(alloc, found.as_slice()) {
        Ok(tree) => Ok(tree),
        Err(Refusal::Syntax(left)) => Err(TextFault::Syntax {
            line: line_at(source, left),
        }),
        Err(Refusal::NoMemory) => Err(TextFault::NoMemory),
    }
}

/// Reads all tokens of a text by a rule.
fn read_all<'a, R: Rule>(alloc: Global, tokens: &'a [Token<'a>]) -> Result<R::Tree, Refusal<'a>>
    ensures { GivesWhole result (whole R.reader (map lexeme_of tokens.now)) }
{
    let (tree, rest) = R::read(alloc, tokens)?;
    if rest.is_empty() {
        Ok(tree)
    } else {
        Err(Refusal::Syntax(rest))
    }
}

/// The line of a refused place: that of the first token left, or the one where the text ends.
fn line_at(source: &[u8], left: &[Token]) -> u32
    ensures { result ≡ Texts.line_at source.now (map lexeme_of left.now) }
{
    match left {
        [] => last_line(source),
        [first, ..] => first.line,
    }
}

/// The line where a text ends: one more than the number of LF in it, as far as lines are counted.
fn last_line(source: &[u8]) -> u32
    ensures { result ≡ Tokens.line_after source.now }
{
    let breaks = source.iter().filter(|byte| **byte == b'\n').count();
    if breaks < u32::MAX as usize {
        breaks as u32 + 1
    } else {
        u32::MAX
    }
}
