ghost use Rattle.std.specs.Prelude.{map};
ghost use Rattle.text_tokens.specs.Lexeme.{lexeme_of};
ghost use Rattle.text_grammar.specs.Reading.{Gives};
ghost use Rattle.report_syntax.specs.Reading.{completions_at};

use crate::ranking::rankings;
use crate::{CompletionTree, CompletionTreeList};
use currency_base::NoMemory;
use log_syntax::{Gathers, MOST, gather, word_on};
use std::alloc::Global;
use text_grammar::{Refusal, Repeats, Rule, is_fixed, symbol};
use text_tokens::{Token, TokenKind};

/// Takes completions from the front of the tokens.
#[tactic(auto, unfolding(crate::specs::Reading::completions_at))]
pub fn completions<'a>(
    alloc: Global,
    tokens: &'a [Token<'a>],
) -> Result<(CompletionTreeList, &'a [Token<'a>]), Refusal<'a>>
    ensures { Gives (λ x. (x.0, map lexeme_of x.1.now)) result (completions_at (map lexeme_of tokens.now)) }
{
    gather::<CompletionRule>(alloc, MOST, CompletionTreeList::new(alloc), tokens)
}

/// A completion with its rankings.
enum CompletionRule {}

impl Rule for CompletionRule {
    ghost use Rattle.report_syntax.specs.Reading.{completion_at};

    type Tree = CompletionTree;

    ghost reader = { completion_at };

    #[tactic(auto, unfolding(crate::specs::Reading::completion_at))]
    fn read<'a>(
        alloc: Global,
        tokens: &'a [Token<'a>],
    ) -> Result<(CompletionTree, &'a [Token<'a>]), Refusal<'a>> {
        let (line, rest) = word_on(b"completion", tokens)?;
        let rest = symbol(b";", rest)?;
        let (rankings, rest) = rankings(alloc, rest)?;
        Ok((CompletionTree { line, rankings }, rest))
    }
}

impl Repeats for CompletionRule {
    ghost use Rattle.std.specs.Prelude.{codes};
    ghost use Rattle.text_grammar.specs.Words;

    ghost begins = { Words.is_word (codes "completion") };

    fn begins_with(token: &Token) -> bool {
        is_fixed(TokenKind::Word, b"completion", token)
    }
}

impl Gathers for CompletionRule {
    ghost use Rattle.log_syntax.specs.Reading.{pushed};

    type Into = CompletionTreeList;

    ghost put = { pushed };

    fn put(into: &mut CompletionTreeList, tree: CompletionTree) -> Result<(), NoMemory> {
        into.push(tree)
    }
}
