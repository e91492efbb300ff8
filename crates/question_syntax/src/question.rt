ghost use Rattle.std.specs.Prelude.{◌≡◌, map};
ghost use Rattle.text_tokens.specs.Lexeme.{lexeme_of};
ghost use Rattle.text_grammar.specs.Reading.{Gives, one};
ghost use Rattle.question_syntax.specs.Grammar.{word_line};
ghost use Rattle.question_syntax.specs.Reading.{answers_at, certain_at, consistent_at, same_at};

use crate::QuestionTree;
use crate::asked::AskedRule;
use query_syntax::QueryRule;
use std::alloc::Global;
use text_grammar::{NameRule, Refusal, Rule, is_fixed, listed, symbol};
use text_tokens::{Token, TokenKind};

/// A question and the semicolon that ends it.
pub enum QuestionRule {}

impl Rule for QuestionRule {
    ghost use Rattle.question_syntax.specs.Reading.{question_at};

    type Tree = QuestionTree;

    ghost reader = { question_at };

    #[tactic(auto, unfolding(crate::specs::Reading::question_at))]
    fn read<'a>(
        alloc: Global,
        tokens: &'a [Token<'a>],
    ) -> Result<(QuestionTree, &'a [Token<'a>]), Refusal<'a>> {
        match tokens {
            [] => answers(alloc, tokens),
            [first, ..] => {
                if is_fixed(TokenKind::Word, b"consistent", first) {
                    consistent(tokens)
                } else if is_fixed(TokenKind::Word, b"certain", first) {
                    certain(alloc, tokens)
                } else if is_fixed(TokenKind::Word, b"same", first) {
                    same(alloc, tokens)
                } else {
                    answers(alloc, tokens)
                }
            }
        }
    }
}

/// Reads the question whether the specification is consistent.
#[tactic(auto, unfolding(crate::specs::Reading::consistent_at))]
fn consistent<'a>(tokens: &'a [Token<'a>]) -> Result<(QuestionTree, &'a [Token<'a>]), Refusal<'a>>
    ensures { Gives (λ x. (x.0, map lexeme_of x.1.now)) result (consistent_at (map lexeme_of tokens.now)) }
{
    let (line, rest) = word_line(b"consistent", tokens)?;
    let rest = symbol(b";", rest)?;
    Ok((QuestionTree::Consistent { line }, rest))
}

/// Reads the question whether pairs are certain.
#[tactic(auto, unfolding(crate::specs::Reading::certain_at))]
fn certain<'a>(
    alloc: Global,
    tokens: &'a [Token<'a>],
) -> Result<(QuestionTree, &'a [Token<'a>]), Refusal<'a>>
    ensures { Gives (λ x. (x.0, map lexeme_of x.1.now)) result (certain_at (map lexeme_of tokens.now)) }
{
    let (line, rest) = word_line(b"certain", tokens)?;
    let (asked, rest) = listed::<AskedRule>(alloc, TokenKind::Word, b"and", rest)?;
    let rest = symbol(b";", rest)?;
    Ok((QuestionTree::Certain { line, asked }, rest))
}

/// Takes a word from the front of the tokens: its line, and the tokens after it.
fn word_line<'a>(
    text: &[u8],
    tokens: &'a [Token<'a>],
) -> Result<(u32, &'a [Token<'a>]), Refusal<'a>>
    ensures { Gives (λ x. (x.0, map lexeme_of x.1.now)) result (one (word_line text.now) (map lexeme_of tokens.now)) }
{
    match tokens {
        [] => Err(Refusal::Syntax(tokens)),
        [first, rest @ ..] => {
            if is_fixed(TokenKind::Word, text, first) {
                Ok((first.line, rest))
            } else {
                Err(Refusal::Syntax(tokens))
            }
        }
    }
}

/// Reads the question whether current tuples are the same in every consistent completion.
#[tactic(auto, unfolding(crate::specs::Reading::same_at))]
fn same<'a>(
    alloc: Global,
    tokens: &'a [Token<'a>],
) -> Result<(QuestionTree, &'a [Token<'a>]), Refusal<'a>>
    ensures { Gives (λ x. (x.0, map lexeme_of x.1.now)) result (same_at (map lexeme_of tokens.now)) }
{
    let (line, rest) = word_line(b"same", tokens)?;
    let (relations, rest) = listed::<NameRule>(alloc, TokenKind::Symbol, b",", rest)?;
    let rest = symbol(b";", rest)?;
    Ok((QuestionTree::Same { line, relations }, rest))
}

/// Reads the question which tuples are answers of a query in every consistent completion.
#[tactic(auto, unfolding(crate::specs::Reading::answers_at))]
fn answers<'a>(
    alloc: Global,
    tokens: &'a [Token<'a>],
) -> Result<(QuestionTree, &'a [Token<'a>]), Refusal<'a>>
    ensures { Gives (λ x. (x.0, map lexeme_of x.1.now)) result (answers_at (map lexeme_of tokens.now)) }
{
    let (query, rest) = QueryRule::read(alloc, tokens)?;
    let rest = symbol(b";", rest)?;
    Ok((QuestionTree::Answers(query), rest))
}
