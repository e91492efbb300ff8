ghost use Rattle.std.specs.Prelude.{◌≡◌, map};
ghost use Rattle.text_tokens.specs.Lexeme.{lexeme_of};
ghost use Rattle.text_grammar.specs.Reading.{Gives};
ghost use Rattle.rule_syntax.specs.Reading.{conclusion_at, conditions_at};

use crate::atom::OrderAtomRule;
use crate::predicate::PredicateRule;
use crate::{ConclusionTree, PredicateTreeList, RuleTree};
use std::alloc::Global;
use text_grammar::{Refusal, Rule, VariableRule, after_fixed, listed, name, symbol, word};
use text_tokens::{Token, TokenKind};

/// A denial constraint, from its word on.
pub enum RuleRule {}

impl Rule for RuleRule {
    ghost use Rattle.rule_syntax.specs.Reading.{rule_at};

    type Tree = RuleTree;

    ghost reader = { rule_at };

    #[tactic(auto, unfolding(crate::specs::Reading::rule_at))]
    fn read<'a>(
        alloc: Global,
        tokens: &'a [Token<'a>],
    ) -> Result<(RuleTree, &'a [Token<'a>]), Refusal<'a>> {
        let rest = word(b"rule", tokens)?;
        let (rule, rest) = name(alloc, rest)?;
        let rest = word(b"on", rest)?;
        let (relation, rest) = name(alloc, rest)?;
        let rest = symbol(b"(", rest)?;
        let (vars, rest) = listed::<VariableRule>(alloc, TokenKind::Symbol, b",", rest)?;
        let rest = symbol(b")", rest)?;
        let rest = symbol(b":", rest)?;
        let (predicates, rest) = conditions(alloc, rest)?;
        let (conclusion, rest) = conclusion(alloc, rest)?;
        Ok((
            RuleTree {
                name: rule,
                relation,
                vars,
                predicates,
                conclusion,
            },
            rest,
        ))
    }
}

/// Reads the conditions between `if` and `then`, where there are some.
#[tactic(auto, unfolding(crate::specs::Reading::conditions_at))]
fn conditions<'a>(
    alloc: Global,
    tokens: &'a [Token<'a>],
) -> Result<(PredicateTreeList, &'a [Token<'a>]), Refusal<'a>>
    ensures { Gives (λ x. (x.0, map lexeme_of x.1.now)) result (conditions_at (map lexeme_of tokens.now)) }
{
    match after_fixed(TokenKind::Word, b"if", tokens) {
        Some(rest) => {
            let (predicates, rest) = listed::<PredicateRule>(alloc, TokenKind::Word, b"and", rest)?;
            let rest = word(b"then", rest)?;
            Ok((predicates, rest))
        }
        None => Ok((PredicateTreeList::new(alloc), tokens)),
    }
}

/// Reads what the rule concludes.
#[tactic(auto, unfolding(crate::specs::Reading::conclusion_at))]
fn conclusion<'a>(
    alloc: Global,
    tokens: &'a [Token<'a>],
) -> Result<(ConclusionTree, &'a [Token<'a>]), Refusal<'a>>
    ensures { Gives (λ x. (x.0, map lexeme_of x.1.now)) result (conclusion_at (map lexeme_of tokens.now)) }
{
    match after_fixed(TokenKind::Word, b"false", tokens) {
        Some(rest) => Ok((ConclusionTree::Never, rest)),
        None => {
            let (atom, rest) = OrderAtomRule::read(alloc, tokens)?;
            Ok((ConclusionTree::Order(atom), rest))
        }
    }
}
