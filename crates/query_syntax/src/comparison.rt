ghost use Rattle.std.specs.Prelude.{map};
ghost use Rattle.text_tokens.specs.Lexeme.{lexeme_of};
ghost use Rattle.text_grammar.specs.Reading.{Gives};
ghost use Rattle.query_syntax.specs.Reading.{constant_term_at, term_at, test_after, test_at, variable_term_at};

use crate::{TestTermTree, TestTree};
use rule_syntax::cmp;
use std::alloc::Global;
use text_grammar::{Refusal, constant, is_variable, variable};
use text_tokens::Token;

/// Reads a comparison of two terms.
#[tactic(auto, unfolding(crate::specs::Reading::test_at))]
pub fn test<'a>(
    alloc: Global,
    tokens: &'a [Token<'a>],
) -> Result<(TestTree, &'a [Token<'a>]), Refusal<'a>>
    ensures { Gives (λ x. (x.0, map lexeme_of x.1.now)) result (test_at (map lexeme_of tokens.now)) }
{
    let (left, rest) = term(alloc, tokens)?;
    rest_of_test(alloc, left, rest)
}

/// Reads what a term is compared with, from the symbol on.
#[tactic(auto, unfolding(crate::specs::Reading::test_after))]
fn rest_of_test<'a>(
    alloc: Global,
    left: TestTermTree,
    tokens: &'a [Token<'a>],
) -> Result<(TestTree, &'a [Token<'a>]), Refusal<'a>>
    ensures { Gives (λ x. (x.0, map lexeme_of x.1.now)) result (test_after left (map lexeme_of tokens.now)) }
{
    let (cmp, rest) = cmp(tokens)?;
    let (right, rest) = term(alloc, rest)?;
    Ok((TestTree { left, cmp, right }, rest))
}

/// Reads a variable or a constant.
#[tactic(auto, unfolding(crate::specs::Reading::term_at))]
fn term<'a>(
    alloc: Global,
    tokens: &'a [Token<'a>],
) -> Result<(TestTermTree, &'a [Token<'a>]), Refusal<'a>>
    ensures { Gives (λ x. (x.0, map lexeme_of x.1.now)) result (term_at (map lexeme_of tokens.now)) }
{
    match tokens {
        [] => constant_term(alloc, tokens),
        [first, ..] => {
            if is_variable(first) {
                variable_term(alloc, tokens)
            } else {
                constant_term(alloc, tokens)
            }
        }
    }
}

/// Reads a variable as a term.
#[tactic(auto, unfolding(crate::specs::Reading::variable_term_at))]
fn variable_term<'a>(
    alloc: Global,
    tokens: &'a [Token<'a>],
) -> Result<(TestTermTree, &'a [Token<'a>]), Refusal<'a>>
    ensures { Gives (λ x. (x.0, map lexeme_of x.1.now)) result (variable_term_at (map lexeme_of tokens.now)) }
{
    let (var, rest) = variable(alloc, tokens)?;
    Ok((TestTermTree::Var(var), rest))
}

/// Reads a constant as a term.
#[tactic(auto, unfolding(crate::specs::Reading::constant_term_at))]
fn constant_term<'a>(
    alloc: Global,
    tokens: &'a [Token<'a>],
) -> Result<(TestTermTree, &'a [Token<'a>]), Refusal<'a>>
    ensures { Gives (λ x. (x.0, map lexeme_of x.1.now)) result (constant_term_at (map lexeme_of tokens.now)) }
{
    let (constant, rest) = constant(alloc, tokens)?;
    Ok((TestTermTree::Constant(constant), rest))
}
