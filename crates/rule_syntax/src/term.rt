ghost use Rattle.std.specs.Prelude.{◌≡◌, map};
ghost use Rattle.text_tokens.specs.Lexeme.{lexeme_of};
ghost use Rattle.text_grammar.specs.Reading.{Gives, one};
ghost use Rattle.rule_syntax.specs.Grammar.{cmp_named};
ghost use Rattle.rule_syntax.specs.Reading.{constant_at, field_after, field_at};

use crate::TermTree;
use currency_base::Cmp;
use std::alloc::Global;
use text_grammar::{Named, Refusal, Rule, constant, is_fixed, is_variable, name, symbol, variable};
use text_tokens::{Token, TokenKind};

/// An attribute of the row of a variable, or a constant.
pub enum TermRule {}

impl Rule for TermRule {
    ghost use Rattle.rule_syntax.specs.Reading.{term_at};

    type Tree = TermTree;

    ghost reader = { term_at };

    #[tactic(auto, unfolding(crate::specs::Reading::term_at))]
    fn read<'a>(
        alloc: Global,
        tokens: &'a [Token<'a>],
    ) -> Result<(TermTree, &'a [Token<'a>]), Refusal<'a>> {
        match tokens {
            [] => constant_term(alloc, tokens),
            [first, ..] => {
                if is_variable(first) {
                    field(alloc, tokens)
                } else {
                    constant_term(alloc, tokens)
                }
            }
        }
    }
}

/// Reads an attribute of the row of a variable.
#[tactic(auto, unfolding(crate::specs::Reading::field_at))]
fn field<'a>(
    alloc: Global,
    tokens: &'a [Token<'a>],
) -> Result<(TermTree, &'a [Token<'a>]), Refusal<'a>>
    ensures { Gives (λ x. (x.0, map lexeme_of x.1.now)) result (field_at (map lexeme_of tokens.now)) }
{
    let (var, rest) = variable(alloc, tokens)?;
    rest_of_field(alloc, var, rest)
}

/// Reads what follows the variable of an attribute, from the dot on.
#[tactic(auto, unfolding(crate::specs::Reading::field_after))]
pub fn rest_of_field<'a>(
    alloc: Global,
    var: Named,
    tokens: &'a [Token<'a>],
) -> Result<(TermTree, &'a [Token<'a>]), Refusal<'a>>
    ensures { Gives (λ x. (x.0, map lexeme_of x.1.now)) result (field_after var (map lexeme_of tokens.now)) }
{
    let rest = symbol(b".", tokens)?;
    let (attr, rest) = name(alloc, rest)?;
    Ok((TermTree::Field { var, attr }, rest))
}

/// Reads a constant as a term.
#[tactic(auto, unfolding(crate::specs::Reading::constant_at))]
pub fn constant_term<'a>(
    alloc: Global,
    tokens: &'a [Token<'a>],
) -> Result<(TermTree, &'a [Token<'a>]), Refusal<'a>>
    ensures { Gives (λ x. (x.0, map lexeme_of x.1.now)) result (constant_at (map lexeme_of tokens.now)) }
{
    let (constant, rest) = constant(alloc, tokens)?;
    Ok((TermTree::Constant(constant), rest))
}

/// Takes the symbol of a comparison from the front of the tokens.
pub fn cmp<'a>(tokens: &'a [Token<'a>]) -> Result<(Cmp, &'a [Token<'a>]), Refusal<'a>>
    ensures { Gives (λ x. (x.0, map lexeme_of x.1.now)) result (one cmp_named (map lexeme_of tokens.now)) }
{
    match tokens {
        [] => Err(Refusal::Syntax(tokens)),
        [first, rest @ ..] => match cmp_in(first) {
            Some(cmp) => Ok((cmp, rest)),
            None => Err(Refusal::Syntax(tokens)),
        },
    }
}

/// The comparison that a symbol names.
fn cmp_in(token: &Token) -> Option<Cmp>
    ensures { result ≡ cmp_named (lexeme_of token.now) }
{
    if is_fixed(TokenKind::Symbol, b"=", token) {
        Some(Cmp::Eq)
    } else if is_fixed(TokenKind::Symbol, b"!=", token) {
        Some(Cmp::Ne)
    } else if is_fixed(TokenKind::Symbol, b"<", token) {
        Some(Cmp::Lt)
    } else if is_fixed(TokenKind::Symbol, b"<=", token) {
        Some(Cmp::Le)
    } else if is_fixed(TokenKind::Symbol, b">", token) {
        Some(Cmp::Gt)
    } else if is_fixed(TokenKind::Symbol, b">=", token) {
        Some(Cmp::Ge)
    } else {
        None
    }
}
