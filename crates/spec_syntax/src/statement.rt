ghost use Rattle.std.specs.Prelude.{◌≡◌, ℕ, List, map, true};
ghost use Rattle.text_tokens.specs.Lexeme.{lexeme_of};

use crate::ordering::OrderingRule;
use crate::relation::RelationRule;
use crate::{SpecTree, StatementTree};
use copy_syntax::CopyRule;
use rule_syntax::RuleRule;
use std::alloc::Global;
use text_grammar::{Refusal, Repeats, Rule, is_fixed, many, name, string, symbol, word};
use text_tokens::{Token, TokenKind};

/// A specification: statements to the end of the text.
pub enum SpecRule {}

impl Rule for SpecRule {
    ghost use Rattle.spec_syntax.specs.Reading.{spec_at};

    type Tree = SpecTree;

    ghost reader = { spec_at };

    #[tactic(auto, unfolding(crate::specs::Reading::spec_at))]
    fn read<'a>(
        alloc: Global,
        tokens: &'a [Token<'a>],
    ) -> Result<(SpecTree, &'a [Token<'a>]), Refusal<'a>> {
        let (statements, rest) = many::<EndedStatementRule>(alloc, tokens)?;
        Ok((SpecTree { statements }, rest))
    }
}

/// A statement and the semicolon that ends it.
enum EndedStatementRule {}

impl Rule for EndedStatementRule {
    ghost use Rattle.spec_syntax.specs.Reading.{ended_statement_at};

    type Tree = StatementTree;

    ghost reader = { ended_statement_at };

    #[tactic(auto, unfolding(crate::specs::Reading::ended_statement_at))]
    fn read<'a>(
        alloc: Global,
        tokens: &'a [Token<'a>],
    ) -> Result<(StatementTree, &'a [Token<'a>]), Refusal<'a>> {
        let (statement, rest) = StatementRule::read(alloc, tokens)?;
        let rest = symbol(b";", rest)?;
        Ok((statement, rest))
    }
}

impl Repeats for EndedStatementRule {
    ghost begins = { λ _. true };

    fn begins_with(_: &Token) -> bool {
        true
    }
}

/// A statement.
enum StatementRule {}

impl Rule for StatementRule {
    ghost use Rattle.spec_syntax.specs.Reading.{statement_at};

    type Tree = StatementTree;

    ghost reader = { statement_at };

    #[tactic(auto, unfolding(crate::specs::Reading::statement_at))]
    fn read<'a>(
        alloc: Global,
        tokens: &'a [Token<'a>],
    ) -> Result<(StatementTree, &'a [Token<'a>]), Refusal<'a>> {
        match tokens {
            [] => CopyingRule::read(alloc, tokens),
            [first, ..] => {
                if is_fixed(TokenKind::Word, b"relation", first) {
                    RelationRule::read(alloc, tokens)
                } else if is_fixed(TokenKind::Word, b"order", first) {
                    OrderRule::read(alloc, tokens)
                } else if is_fixed(TokenKind::Word, b"orders", first) {
                    OrdersRule::read(alloc, tokens)
                } else if is_fixed(TokenKind::Word, b"rule", first) {
                    ConstraintRule::read(alloc, tokens)
                } else {
                    CopyingRule::read(alloc, tokens)
                }
            }
        }
    }
}

/// Given pairs of rows, from the word `order` on.
enum OrderRule {}

impl Rule for OrderRule {
    ghost use Rattle.spec_syntax.specs.Reading.{order_at};

    type Tree = StatementTree;

    ghost reader = { order_at };

    #[tactic(auto, unfolding(crate::specs::Reading::order_at))]
    fn read<'a>(
        alloc: Global,
        tokens: &'a [Token<'a>],
    ) -> Result<(StatementTree, &'a [Token<'a>]), Refusal<'a>> {
        let rest = word(b"order", tokens)?;
        let (ordering, rest) = OrderingRule::read(alloc, rest)?;
        Ok((StatementTree::Order(ordering), rest))
    }
}

/// Given pairs of rows that a document lists, from the word `orders` on.
enum OrdersRule {}

impl Rule for OrdersRule {
    ghost use Rattle.spec_syntax.specs.Reading.{orders_at};

    type Tree = StatementTree;

    ghost reader = { orders_at };

    #[tactic(auto, unfolding(crate::specs::Reading::orders_at))]
    fn read<'a>(
        alloc: Global,
        tokens: &'a [Token<'a>],
    ) -> Result<(StatementTree, &'a [Token<'a>]), Refusal<'a>> {
        let rest = word(b"orders", tokens)?;
        let (relation, rest) = name(alloc, rest)?;
        let rest = word(b"from", rest)?;
        let (document, rest) = string(alloc, rest)?;
        Ok((StatementTree::Orders { relation, document }, rest))
    }
}

/// A denial constraint, from the word `rule` on.
enum ConstraintRule {}

impl Rule for ConstraintRule {
    ghost use Rattle.spec_syntax.specs.Reading.{constraint_at};

    type Tree = StatementTree;

    ghost reader = { constraint_at };

    #[tactic(auto, unfolding(crate::specs::Reading::constraint_at))]
    fn read<'a>(
        alloc: Global,
        tokens: &'a [Token<'a>],
    ) -> Result<(StatementTree, &'a [Token<'a>]), Refusal<'a>> {
        let (rule, rest) = RuleRule::read(alloc, tokens)?;
        Ok((StatementTree::Rule(rule), rest))
    }
}

/// A copy, from the word `copy` on.
enum CopyingRule {}

impl Rule for CopyingRule {
    ghost use Rattle.spec_syntax.specs.Reading.{copying_at};

    type Tree = StatementTree;

    ghost reader = { copying_at };

    #[tactic(auto, unfolding(crate::specs::Reading::copying_at))]
    fn read<'a>(
        alloc: Global,
        tokens: &'a [Token<'a>],
    ) -> Result<(StatementTree, &'a [Token<'a>]), Refusal<'a>> {
        let (copy, rest) = CopyRule::read(alloc, tokens)?;
        Ok((StatementTree::Copy(copy), rest))
    }
}
