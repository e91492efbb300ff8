ghost use Rattle.std.specs.Prelude.{map};
ghost use Rattle.text_tokens.specs.Lexeme.{lexeme_of};
ghost use Rattle.text_grammar.specs.Reading.{Gives};
ghost use Rattle.report_syntax.specs.Reading.{verdict_at};

use crate::VerdictTree;
use crate::claim::claim;
use log_syntax::word_on;
use std::alloc::Global;
use text_grammar::Refusal;
use text_tokens::Token;

/// Takes the verdict from the front of the tokens, with the items that follow it.
#[tactic(auto, unfolding(crate::specs::Reading::verdict_at))]
pub fn verdict<'a>(
    alloc: Global,
    tokens: &'a [Token<'a>],
) -> Result<(VerdictTree, &'a [Token<'a>]), Refusal<'a>>
    ensures { Gives (λ x. (x.0, map lexeme_of x.1.now)) result (verdict_at (map lexeme_of tokens.now)) }
{
    let (line, rest) = word_on(b"verdict", tokens)?;
    let (claim, rest) = claim(alloc, rest)?;
    Ok((VerdictTree { line, claim }, rest))
}
