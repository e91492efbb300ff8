ghost use Rattle.std.specs.Prelude.{map};
ghost use Rattle.text_tokens.specs.Lexeme.{lexeme_of};
ghost use Rattle.text_grammar.specs.Reading.{Gives};
ghost use Rattle.report_syntax.specs.Reading.{answers_claim_at, certain_at, claim_at, consistent_at, denied_at, further_claim_at, inconsistent_at, not_at, not_certain_at, not_same_at, same_at, undecided_at};

use crate::ClaimTree;
use crate::attribute::attribute;
use crate::count::count;
use crate::ended_word::ended_word;
use crate::items::{answers, currents};
use std::alloc::Global;
use text_grammar::{Refusal, is_fixed, name, symbol, word};
use text_tokens::{Token, TokenKind};

/// Takes what a verdict claims from the front of the tokens, with the items that follow it.
#[tactic(auto, unfolding(crate::specs::Reading::claim_at))]
pub fn claim<'a>(
    alloc: Global,
    tokens: &'a [Token<'a>],
) -> Result<(ClaimTree, &'a [Token<'a>]), Refusal<'a>>
    ensures { Gives (λ x. (x.0, map lexeme_of x.1.now)) result (claim_at (map lexeme_of tokens.now)) }
{
    match tokens {
        [] => further_claim(alloc, tokens),
        [first, ..] => {
            if is_fixed(TokenKind::Word, b"inconsistent", first) {
                inconsistent(tokens)
            } else if is_fixed(TokenKind::Word, b"consistent", first) {
                consistent(tokens)
            } else {
                further_claim(alloc, tokens)
            }
        }
    }
}

/// Takes a claim that is not about consistency alone.
#[tactic(auto, unfolding(crate::specs::Reading::further_claim_at))]
fn further_claim<'a>(
    alloc: Global,
    tokens: &'a [Token<'a>],
) -> Result<(ClaimTree, &'a [Token<'a>]), Refusal<'a>>
    ensures { Gives (λ x. (x.0, map lexeme_of x.1.now)) result (further_claim_at (map lexeme_of tokens.now)) }
{
    match tokens {
        [] => undecided(tokens),
        [first, ..] => {
            if is_fixed(TokenKind::Word, b"certain", first) {
                certain(tokens)
            } else if is_fixed(TokenKind::Word, b"not", first) {
                not(alloc, tokens)
            } else if is_fixed(TokenKind::Word, b"same", first) {
                same(alloc, tokens)
            } else if is_fixed(TokenKind::Word, b"answers", first) {
                answers_claim(alloc, tokens)
            } else {
                undecided(tokens)
            }
        }
    }
}

/// That no completion exists, from the word `inconsistent` on.
#[tactic(auto, unfolding(crate::specs::Reading::inconsistent_at))]
fn inconsistent<'a>(tokens: &'a [Token<'a>]) -> Result<(ClaimTree, &'a [Token<'a>]), Refusal<'a>>
    ensures { Gives (λ x. (x.0, map lexeme_of x.1.now)) result (inconsistent_at (map lexeme_of tokens.now)) }
{
    let rest = ended_word(b"inconsistent", tokens)?;
    Ok((ClaimTree::Inconsistent, rest))
}

/// That a completion exists, from the word `consistent` on.
#[tactic(auto, unfolding(crate::specs::Reading::consistent_at))]
fn consistent<'a>(tokens: &'a [Token<'a>]) -> Result<(ClaimTree, &'a [Token<'a>]), Refusal<'a>>
    ensures { Gives (λ x. (x.0, map lexeme_of x.1.now)) result (consistent_at (map lexeme_of tokens.now)) }
{
    let rest = ended_word(b"consistent", tokens)?;
    Ok((ClaimTree::Consistent, rest))
}

/// That the order asked for is certain, from the word `certain` on.
#[tactic(auto, unfolding(crate::specs::Reading::certain_at))]
fn certain<'a>(tokens: &'a [Token<'a>]) -> Result<(ClaimTree, &'a [Token<'a>]), Refusal<'a>>
    ensures { Gives (λ x. (x.0, map lexeme_of x.1.now)) result (certain_at (map lexeme_of tokens.now)) }
{
    let rest = ended_word(b"certain", tokens)?;
    Ok((ClaimTree::Certain, rest))
}

/// What is not so, from the word `not` on.
#[tactic(auto, unfolding(crate::specs::Reading::not_at))]
fn not<'a>(
    alloc: Global,
    tokens: &'a [Token<'a>],
) -> Result<(ClaimTree, &'a [Token<'a>]), Refusal<'a>>
    ensures { Gives (λ x. (x.0, map lexeme_of x.1.now)) result (not_at (map lexeme_of tokens.now)) }
{
    let rest = word(b"not", tokens)?;
    let (claim, rest) = denied(alloc, rest)?;
    Ok((claim, rest))
}

/// What is not so, after the word `not`.
#[tactic(auto, unfolding(crate::specs::Reading::denied_at))]
fn denied<'a>(
    alloc: Global,
    tokens: &'a [Token<'a>],
) -> Result<(ClaimTree, &'a [Token<'a>]), Refusal<'a>>
    ensures { Gives (λ x. (x.0, map lexeme_of x.1.now)) result (denied_at (map lexeme_of tokens.now)) }
{
    match tokens {
        [] => not_same(alloc, tokens),
        [first, ..] => {
            if is_fixed(TokenKind::Word, b"certain", first) {
                not_certain(alloc, tokens)
            } else {
                not_same(alloc, tokens)
            }
        }
    }
}

/// That a row need not stand before another, from the word `certain` on.
#[tactic(auto, unfolding(crate::specs::Reading::not_certain_at))]
fn not_certain<'a>(
    alloc: Global,
    tokens: &'a [Token<'a>],
) -> Result<(ClaimTree, &'a [Token<'a>]), Refusal<'a>>
    ensures { Gives (λ x. (x.0, map lexeme_of x.1.now)) result (not_certain_at (map lexeme_of tokens.now)) }
{
    let rest = word(b"certain", tokens)?;
    let (of, rest) = attribute(alloc, rest)?;
    let rest = symbol(b":", rest)?;
    let (earlier, rest) = name(alloc, rest)?;
    let rest = symbol(b"<", rest)?;
    let (later, rest) = name(alloc, rest)?;
    let rest = symbol(b";", rest)?;
    Ok((
        ClaimTree::NotCertain {
            relation: of.relation,
            attr: of.attr,
            earlier,
            later,
        },
        rest,
    ))
}

/// That two completions give an entity two current values, from the word `same` on.
#[tactic(auto, unfolding(crate::specs::Reading::not_same_at))]
fn not_same<'a>(
    alloc: Global,
    tokens: &'a [Token<'a>],
) -> Result<(ClaimTree, &'a [Token<'a>]), Refusal<'a>>
    ensures { Gives (λ x. (x.0, map lexeme_of x.1.now)) result (not_same_at (map lexeme_of tokens.now)) }
{
    let rest = word(b"same", tokens)?;
    let (of, rest) = attribute(alloc, rest)?;
    let rest = word(b"of", rest)?;
    let (entity, rest) = name(alloc, rest)?;
    let rest = symbol(b";", rest)?;
    Ok((
        ClaimTree::NotSame {
            relation: of.relation,
            attr: of.attr,
            entity,
        },
        rest,
    ))
}

/// The current tuples that all completions have, from the word `same` on.
#[tactic(auto, unfolding(crate::specs::Reading::same_at))]
fn same<'a>(
    alloc: Global,
    tokens: &'a [Token<'a>],
) -> Result<(ClaimTree, &'a [Token<'a>]), Refusal<'a>>
    ensures { Gives (λ x. (x.0, map lexeme_of x.1.now)) result (same_at (map lexeme_of tokens.now)) }
{
    let rest = word(b"same", tokens)?;
    let rest = symbol(b";", rest)?;
    let (items, rest) = currents(alloc, rest)?;
    Ok((ClaimTree::Same(items), rest))
}

/// The certain answers, from the word `answers` on.
#[tactic(auto, unfolding(crate::specs::Reading::answers_claim_at))]
fn answers_claim<'a>(
    alloc: Global,
    tokens: &'a [Token<'a>],
) -> Result<(ClaimTree, &'a [Token<'a>]), Refusal<'a>>
    ensures { Gives (λ x. (x.0, map lexeme_of x.1.now)) result (answers_claim_at (map lexeme_of tokens.now)) }
{
    let rest = word(b"answers", tokens)?;
    let rest = symbol(b";", rest)?;
    let (items, rest) = answers(alloc, rest)?;
    Ok((ClaimTree::Answers(items), rest))
}

/// That nothing was decided, from the word `undecided` on.
#[tactic(auto, unfolding(crate::specs::Reading::undecided_at))]
fn undecided<'a>(tokens: &'a [Token<'a>]) -> Result<(ClaimTree, &'a [Token<'a>]), Refusal<'a>>
    ensures { Gives (λ x. (x.0, map lexeme_of x.1.now)) result (undecided_at (map lexeme_of tokens.now)) }
{
    let rest = word(b"undecided", tokens)?;
    let (counted, rest) = count(rest)?;
    let rest = symbol(b";", rest)?;
    Ok((ClaimTree::Undecided(counted), rest))
}
