ghost use Rattle.std.specs.Prelude.{◌≡◌, map};
ghost use Rattle.text_tokens.specs.Lexeme.{lexeme_of};
ghost use Rattle.text_grammar.specs.Reading.{Gives};
ghost use Rattle.query_syntax.specs.Reading.{head_at};

use crate::QueryTree;
use crate::disjunct::DisjunctRule;
use std::alloc::Global;
use text_grammar::{NamedList, Refusal, Rule, VariableRule, is_variable, listed, symbol, word};
use text_tokens::{Token, TokenKind};

/// A query, from its word on.
pub enum QueryRule {}

impl Rule for QueryRule {
    ghost use Rattle.query_syntax.specs.Reading.{query_at};

    type Tree = QueryTree;

    ghost reader = { query_at };

    #[tactic(auto, unfolding(crate::specs::Reading::query_at))]
    fn read<'a>(
        alloc: Global,
        tokens: &'a [Token<'a>],
    ) -> Result<(QueryTree, &'a [Token<'a>]), Refusal<'a>> {
        let rest = word(b"answers", tokens)?;
        let rest = symbol(b"(", rest)?;
        let (head, rest) = head(alloc, rest)?;
        let rest = symbol(b")", rest)?;
        let rest = word(b"where", rest)?;
        let (disjuncts, rest) = listed::<DisjunctRule>(alloc, TokenKind::Word, b"or", rest)?;
        Ok((QueryTree { head, disjuncts }, rest))
    }
}

/// Reads the variables of the answers, where there are some.
#[tactic(auto, unfolding(crate::specs::Reading::head_at))]
fn head<'a>(
    alloc: Global,
    tokens: &'a [Token<'a>],
) -> Result<(NamedList, &'a [Token<'a>]), Refusal<'a>>
    ensures { Gives (λ x. (x.0, map lexeme_of x.1.now)) result (head_at (map lexeme_of tokens.now)) }
{
    match tokens {
        [] => Ok((NamedList::new(alloc), tokens)),
        [first, ..] => {
            if is_variable(first) {
                let (vars, rest) = listed::<VariableRule>(alloc, TokenKind::Symbol, b",", tokens)?;
                Ok((vars, rest))
            } else {
                Ok((NamedList::new(alloc), tokens))
            }
        }
    }
}
