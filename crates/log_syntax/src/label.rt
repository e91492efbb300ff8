ghost use Rattle.std.specs.Prelude.{map};
ghost use Rattle.text_tokens.specs.Lexeme.{lexeme_of};
ghost use Rattle.text_grammar.specs.Reading.{Gives};
ghost use Rattle.log_syntax.specs.Reading.{above_at, copy_at, current_label_at, given_at, label_at, last_at, match_at, rule_at, top_at, transitive_at, value_at};

use crate::lists::{entities, rows};
use crate::number::{cell, number};
use crate::value_list::values;
use currency_base::{CopyId, RowId, RuleId};
use refutation_log::Label;
use std::alloc::Global;
use text_grammar::{Refusal, is_fixed, word};
use text_tokens::{Token, TokenKind};

/// Takes a label from the front of the tokens.
#[tactic(auto, unfolding(crate::specs::Reading::label_at))]
pub fn label<'a>(
    alloc: Global,
    tokens: &'a [Token<'a>],
) -> Result<(Label, &'a [Token<'a>]), Refusal<'a>>
    ensures { Gives (λ x. (x.0, map lexeme_of x.1.now)) result (label_at (map lexeme_of tokens.now)) }
{
    match tokens {
        [] => current_label(alloc, tokens),
        [first, ..] => {
            if is_fixed(TokenKind::Word, b"given", first) {
                given(tokens)
            } else if is_fixed(TokenKind::Word, b"transitive", first) {
                transitive(tokens)
            } else if is_fixed(TokenKind::Word, b"rule", first) {
                rule(alloc, tokens)
            } else if is_fixed(TokenKind::Word, b"copy", first) {
                copy(tokens)
            } else if is_fixed(TokenKind::Word, b"above", first) {
                above(tokens)
            } else {
                current_label(alloc, tokens)
            }
        }
    }
}

/// Takes a label of a row's place or value, or of a disjunct.
#[tactic(auto, unfolding(crate::specs::Reading::current_label_at))]
fn current_label<'a>(
    alloc: Global,
    tokens: &'a [Token<'a>],
) -> Result<(Label, &'a [Token<'a>]), Refusal<'a>>
    ensures { Gives (λ x. (x.0, map lexeme_of x.1.now)) result (current_label_at (map lexeme_of tokens.now)) }
{
    match tokens {
        [] => match_head(alloc, tokens),
        [first, ..] => {
            if is_fixed(TokenKind::Word, b"top", first) {
                top(tokens)
            } else if is_fixed(TokenKind::Word, b"last", first) {
                last(tokens)
            } else if is_fixed(TokenKind::Word, b"value", first) {
                value(tokens)
            } else {
                match_head(alloc, tokens)
            }
        }
    }
}

/// That a pair is given, from the word `given` on.
#[tactic(auto, unfolding(crate::specs::Reading::given_at))]
fn given<'a>(tokens: &'a [Token<'a>]) -> Result<(Label, &'a [Token<'a>]), Refusal<'a>>
    ensures { Gives (λ x. (x.0, map lexeme_of x.1.now)) result (given_at (map lexeme_of tokens.now)) }
{
    let rest = word(b"given", tokens)?;
    let (at, rest) = cell(rest)?;
    let (later, rest) = number(rest)?;
    Ok((
        Label::Given {
            rel: at.rel,
            attr: at.attr,
            earlier: at.row,
            later: RowId(later),
        },
        rest,
    ))
}

/// That an order is transitive at three rows, from the word `transitive` on.
#[tactic(auto, unfolding(crate::specs::Reading::transitive_at))]
fn transitive<'a>(tokens: &'a [Token<'a>]) -> Result<(Label, &'a [Token<'a>]), Refusal<'a>>
    ensures { Gives (λ x. (x.0, map lexeme_of x.1.now)) result (transitive_at (map lexeme_of tokens.now)) }
{
    let rest = word(b"transitive", tokens)?;
    let (at, rest) = cell(rest)?;
    let (second, rest) = number(rest)?;
    let (third, rest) = number(rest)?;
    Ok((
        Label::Transitive {
            rel: at.rel,
            attr: at.attr,
            first: at.row,
            second: RowId(second),
            third: RowId(third),
        },
        rest,
    ))
}

/// The instance of a rule, from the word `rule` on.
#[tactic(auto, unfolding(crate::specs::Reading::rule_at))]
fn rule<'a>(alloc: Global, tokens: &'a [Token<'a>]) -> Result<(Label, &'a [Token<'a>]), Refusal<'a>>
    ensures { Gives (λ x. (x.0, map lexeme_of x.1.now)) result (rule_at (map lexeme_of tokens.now)) }
{
    let rest = word(b"rule", tokens)?;
    let (rule, rest) = number(rest)?;
    let (rows, rest) = rows(alloc, rest)?;
    Ok((
        Label::Rule {
            rule: RuleId(rule),
            rows,
        },
        rest,
    ))
}

/// What a copy says of two rows, from the word `copy` on.
#[tactic(auto, unfolding(crate::specs::Reading::copy_at))]
fn copy<'a>(tokens: &'a [Token<'a>]) -> Result<(Label, &'a [Token<'a>]), Refusal<'a>>
    ensures { Gives (λ x. (x.0, map lexeme_of x.1.now)) result (copy_at (map lexeme_of tokens.now)) }
{
    let rest = word(b"copy", tokens)?;
    let (copy, rest) = number(rest)?;
    let (place, rest) = number(rest)?;
    let (first, rest) = number(rest)?;
    let (second, rest) = number(rest)?;
    Ok((
        Label::Copy {
            copy: CopyId(copy),
            place,
            first: RowId(first),
            second: RowId(second),
        },
        rest,
    ))
}

/// That a row stands before the last one, from the word `above` on.
#[tactic(auto, unfolding(crate::specs::Reading::above_at))]
fn above<'a>(tokens: &'a [Token<'a>]) -> Result<(Label, &'a [Token<'a>]), Refusal<'a>>
    ensures { Gives (λ x. (x.0, map lexeme_of x.1.now)) result (above_at (map lexeme_of tokens.now)) }
{
    let rest = word(b"above", tokens)?;
    let (at, rest) = cell(rest)?;
    let (other, rest) = number(rest)?;
    Ok((
        Label::Above {
            rel: at.rel,
            attr: at.attr,
            row: at.row,
            other: RowId(other),
        },
        rest,
    ))
}

/// That a row after all others stands last, from the word `top` on.
#[tactic(auto, unfolding(crate::specs::Reading::top_at))]
fn top<'a>(tokens: &'a [Token<'a>]) -> Result<(Label, &'a [Token<'a>]), Refusal<'a>>
    ensures { Gives (λ x. (x.0, map lexeme_of x.1.now)) result (top_at (map lexeme_of tokens.now)) }
{
    let rest = word(b"top", tokens)?;
    let (at, rest) = cell(rest)?;
    Ok((
        Label::Top {
            rel: at.rel,
            attr: at.attr,
            row: at.row,
        },
        rest,
    ))
}

/// That the last row's value is the current one, from the word `last` on.
#[tactic(auto, unfolding(crate::specs::Reading::last_at))]
fn last<'a>(tokens: &'a [Token<'a>]) -> Result<(Label, &'a [Token<'a>]), Refusal<'a>>
    ensures { Gives (λ x. (x.0, map lexeme_of x.1.now)) result (last_at (map lexeme_of tokens.now)) }
{
    let rest = word(b"last", tokens)?;
    let (at, rest) = cell(rest)?;
    Ok((
        Label::Last {
            rel: at.rel,
            attr: at.attr,
            row: at.row,
        },
        rest,
    ))
}

/// That a current value is that of a last row, from the word `value` on.
#[tactic(auto, unfolding(crate::specs::Reading::value_at))]
fn value<'a>(tokens: &'a [Token<'a>]) -> Result<(Label, &'a [Token<'a>]), Refusal<'a>>
    ensures { Gives (λ x. (x.0, map lexeme_of x.1.now)) result (value_at (map lexeme_of tokens.now)) }
{
    let rest = word(b"value", tokens)?;
    let (at, rest) = cell(rest)?;
    Ok((
        Label::Value {
            rel: at.rel,
            attr: at.attr,
            row: at.row,
        },
        rest,
    ))
}

/// That current values make an answer of a disjunct, from the word `match` on.
#[tactic(auto, unfolding(crate::specs::Reading::match_at))]
fn match_head<'a>(
    alloc: Global,
    tokens: &'a [Token<'a>],
) -> Result<(Label, &'a [Token<'a>]), Refusal<'a>>
    ensures { Gives (λ x. (x.0, map lexeme_of x.1.now)) result (match_at (map lexeme_of tokens.now)) }
{
    let rest = word(b"match", tokens)?;
    let (disjunct, rest) = number(rest)?;
    let (entities, rest) = entities(alloc, rest)?;
    let (values, rest) = values(alloc, rest)?;
    Ok((
        Label::Match {
            disjunct,
            entities,
            values,
        },
        rest,
    ))
}
