ghost use Rattle.std.specs.Prelude.{◌≡◌, map};
ghost use Rattle.text_tokens.specs.Lexeme.{lexeme_of};
ghost use Rattle.text_grammar.specs.Reading.{Gives, continued, one};
ghost use Rattle.text_grammar.specs.Words;
ghost use Rattle.rule_syntax.specs.Reading.{comparison_after, constant_at, field_after, predicate_after};

use crate::atom::rest_of_atom;
use crate::term::{TermRule, cmp, constant_term, rest_of_field};
use crate::{PredicateTree, TermTree};
use std::alloc::Global;
use text_grammar::{Named, Refusal, Rule, is_fixed, is_variable, variable};
use text_tokens::{Token, TokenKind};

/// A condition: that one row is older than another, or a comparison of two terms.
pub enum PredicateRule {}

impl Rule for PredicateRule {
    ghost use Rattle.rule_syntax.specs.Reading.{predicate_at};

    type Tree = PredicateTree;

    ghost reader = { predicate_at };

    #[tactic(auto, unfolding(crate::specs::Reading::predicate_at))]
    fn read<'a>(
        alloc: Global,
        tokens: &'a [Token<'a>],
    ) -> Result<(PredicateTree, &'a [Token<'a>]), Refusal<'a>> {
        match tokens {
            [] => from_constant(alloc, tokens),
            [first, ..] => {
                if is_variable(first) {
                    from_variable(alloc, tokens)
                } else {
                    from_constant(alloc, tokens)
                }
            }
        }
    }
}

/// Reads a condition that a variable begins.
fn from_variable<'a>(
    alloc: Global,
    tokens: &'a [Token<'a>],
) -> Result<(PredicateTree, &'a [Token<'a>]), Refusal<'a>>
    ensures { Gives (λ x. (x.0, map lexeme_of x.1.now)) result
        (continued (one Words.variable) predicate_after (map lexeme_of tokens.now)) }
{
    let (var, rest) = variable(alloc, tokens)?;
    rest_of_predicate(alloc, var, rest)
}

/// Reads what follows the variable that begins a condition: the word `before` goes on with a pair of
/// rows, and a dot with a comparison.
#[tactic(auto, unfolding(crate::specs::Reading::predicate_after))]
fn rest_of_predicate<'a>(
    alloc: Global,
    var: Named,
    tokens: &'a [Token<'a>],
) -> Result<(PredicateTree, &'a [Token<'a>]), Refusal<'a>>
    ensures { Gives (λ x. (x.0, map lexeme_of x.1.now)) result (predicate_after var (map lexeme_of tokens.now)) }
{
    match tokens {
        [] => from_field(alloc, var, tokens),
        [first, ..] => {
            if is_fixed(TokenKind::Word, b"before", first) {
                let (atom, rest) = rest_of_atom(alloc, var, tokens)?;
                Ok((PredicateTree::Order(atom), rest))
            } else {
                from_field(alloc, var, tokens)
            }
        }
    }
}

/// Reads a comparison that an attribute of the variable begins, from the dot on.
fn from_field<'a>(
    alloc: Global,
    var: Named,
    tokens: &'a [Token<'a>],
) -> Result<(PredicateTree, &'a [Token<'a>]), Refusal<'a>>
    ensures { Gives (λ x. (x.0, map lexeme_of x.1.now)) result
        (continued (field_after var) comparison_after (map lexeme_of tokens.now)) }
{
    let (left, rest) = rest_of_field(alloc, var, tokens)?;
    comparison(alloc, left, rest)
}

/// Reads a comparison that a constant begins.
fn from_constant<'a>(
    alloc: Global,
    tokens: &'a [Token<'a>],
) -> Result<(PredicateTree, &'a [Token<'a>]), Refusal<'a>>
    ensures { Gives (λ x. (x.0, map lexeme_of x.1.now)) result
        (continued constant_at comparison_after (map lexeme_of tokens.now)) }
{
    let (left, rest) = constant_term(alloc, tokens)?;
    comparison(alloc, left, rest)
}

/// Reads what a term is compared with, from the symbol on.
#[tactic(auto, unfolding(crate::specs::Reading::comparison_after))]
fn comparison<'a>(
    alloc: Global,
    left: TermTree,
    tokens: &'a [Token<'a>],
) -> Result<(PredicateTree, &'a [Token<'a>]), Refusal<'a>>
    ensures { Gives (λ x. (x.0, map lexeme_of x.1.now)) result (comparison_after left (map lexeme_of tokens.now)) }
{
    let (cmp, rest) = cmp(tokens)?;
    let (right, rest) = TermRule::read(alloc, rest)?;
    Ok((PredicateTree::Compare { left, cmp, right }, rest))
}
