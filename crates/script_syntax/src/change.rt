// What is added or withdrawn.

ghost use Rattle.std.specs.Prelude.{◌≡◌, map};
ghost use Rattle.text_tokens.specs.Lexeme.{lexeme_of};
ghost use Rattle.text_grammar.specs.Reading.{Gives};
ghost use Rattle.spec_syntax.specs.Reading.{pair_at};
ghost use Rattle.copy_syntax.specs.Reading.{mapping_at};
ghost use Rattle.script_syntax.specs.Reading.{change_at, order_at, constraint_at, copying_at};

use crate::EntryTree;
use rule_syntax::RuleRule;
use std::alloc::Global;
use text_grammar::{NamedPair, Refusal, Rule, is_fixed, name, symbol, word};
use text_tokens::{Token, TokenKind};

/// Reads what an edit adds or withdraws, without the semicolon that ends it.
#[tactic(auto, unfolding(crate::specs::Reading::change_at))]
pub fn change<'a>(
    alloc: Global,
    add: bool,
    tokens: &'a [Token<'a>],
) -> Result<(EntryTree, &'a [Token<'a>]), Refusal<'a>>
    ensures { Gives (λ x. (x.0, map lexeme_of x.1.now)) result (change_at add (map lexeme_of tokens.now)) }
{
    match tokens {
        [] => copying(alloc, add, tokens),
        [first, ..] => {
            if is_fixed(TokenKind::Word, b"order", first) {
                order(alloc, add, tokens)
            } else if is_fixed(TokenKind::Word, b"rule", first) {
                constraint(alloc, add, tokens)
            } else {
                copying(alloc, add, tokens)
            }
        }
    }
}

/// Reads a given pair, from the word `order` on.
#[tactic(auto, unfolding(crate::specs::Reading::order_at))]
fn order<'a>(
    alloc: Global,
    add: bool,
    tokens: &'a [Token<'a>],
) -> Result<(EntryTree, &'a [Token<'a>]), Refusal<'a>>
    ensures { Gives (λ x. (x.0, map lexeme_of x.1.now)) result (order_at add (map lexeme_of tokens.now)) }
{
    let rest = word(b"order", tokens)?;
    let (relation, rest) = name(alloc, rest)?;
    let rest = symbol(b".", rest)?;
    let (attr, rest) = name(alloc, rest)?;
    let rest = symbol(b":", rest)?;
    let (pair, rest) = pair(alloc, rest)?;
    Ok((
        EntryTree::Order {
            add,
            relation,
            attr,
            pair,
        },
        rest,
    ))
}

/// Reads an earlier row and a later one.
#[tactic(auto, unfolding(spec_syntax::specs::Reading::pair_at))]
fn pair<'a>(
    alloc: Global,
    tokens: &'a [Token<'a>],
) -> Result<(NamedPair, &'a [Token<'a>]), Refusal<'a>>
    ensures { Gives (λ x. (x.0, map lexeme_of x.1.now)) result (pair_at (map lexeme_of tokens.now)) }
{
    let (first, rest) = name(alloc, tokens)?;
    let rest = symbol(b"<", rest)?;
    let (second, rest) = name(alloc, rest)?;
    Ok((NamedPair { first, second }, rest))
}

/// Reads a denial constraint that is added, or the name of one that is withdrawn, from the word `rule` on.
#[tactic(auto, unfolding(crate::specs::Reading::constraint_at))]
fn constraint<'a>(
    alloc: Global,
    add: bool,
    tokens: &'a [Token<'a>],
) -> Result<(EntryTree, &'a [Token<'a>]), Refusal<'a>>
    ensures { Gives (λ x. (x.0, map lexeme_of x.1.now)) result (constraint_at add (map lexeme_of tokens.now)) }
{
    if add {
        let (rule, rest) = RuleRule::read(alloc, tokens)?;
        Ok((EntryTree::AddRule(rule), rest))
    } else {
        let rest = word(b"rule", tokens)?;
        let (rule, rest) = name(alloc, rest)?;
        Ok((EntryTree::WithdrawRule(rule), rest))
    }
}

/// Reads a copied row, from the word `copy` on.
#[tactic(auto, unfolding(crate::specs::Reading::copying_at))]
fn copying<'a>(
    alloc: Global,
    add: bool,
    tokens: &'a [Token<'a>],
) -> Result<(EntryTree, &'a [Token<'a>]), Refusal<'a>>
    ensures { Gives (λ x. (x.0, map lexeme_of x.1.now)) result (copying_at add (map lexeme_of tokens.now)) }
{
    let rest = word(b"copy", tokens)?;
    let (copy, rest) = name(alloc, rest)?;
    let rest = symbol(b":", rest)?;
    let (mapping, rest) = mapping(alloc, rest)?;
    Ok((
        EntryTree::Copy {
            add,
            name: copy,
            mapping,
        },
        rest,
    ))
}

/// Reads a row of the target, and the row of the source that it is copied from.
#[tactic(auto, unfolding(copy_syntax::specs::Reading::mapping_at))]
fn mapping<'a>(
    alloc: Global,
    tokens: &'a [Token<'a>],
) -> Result<(NamedPair, &'a [Token<'a>]), Refusal<'a>>
    ensures { Gives (λ x. (x.0, map lexeme_of x.1.now)) result (mapping_at (map lexeme_of tokens.now)) }
{
    let (first, rest) = name(alloc, tokens)?;
    let rest = word(b"from", rest)?;
    let (second, rest) = name(alloc, rest)?;
    Ok((NamedPair { first, second }, rest))
}
