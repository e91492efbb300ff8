use crate::OrderingTree;
use std::alloc::Global;
use text_grammar::{NamedPair, Refusal, Rule, listed, name, symbol};
use text_tokens::{Token, TokenKind};

/// Pairs of rows of one attribute.
pub enum OrderingRule {}

impl Rule for OrderingRule {
    ghost use Rattle.spec_syntax.specs.Reading.{ordering_at};

    type Tree = OrderingTree;

    ghost reader = { ordering_at };

    #[tactic(auto, unfolding(crate::specs::Reading::ordering_at))]
    fn read<'a>(
        alloc: Global,
        tokens: &'a [Token<'a>],
    ) -> Result<(OrderingTree, &'a [Token<'a>]), Refusal<'a>> {
        let (relation, rest) = name(alloc, tokens)?;
        let rest = symbol(b".", rest)?;
        let (attr, rest) = name(alloc, rest)?;
        let rest = symbol(b":", rest)?;
        let (pairs, rest) = listed::<PairRule>(alloc, TokenKind::Symbol, b",", rest)?;
        Ok((
            OrderingTree {
                relation,
                attr,
                pairs,
            },
            rest,
        ))
    }
}

/// An ordering and the semicolon that ends it.
pub enum EndedOrderingRule {}

impl Rule for EndedOrderingRule {
    ghost use Rattle.spec_syntax.specs.Reading.{ended_ordering_at};

    type Tree = OrderingTree;

    ghost reader = { ended_ordering_at };

    #[tactic(auto, unfolding(crate::specs::Reading::ended_ordering_at))]
    fn read<'a>(
        alloc: Global,
        tokens: &'a [Token<'a>],
    ) -> Result<(OrderingTree, &'a [Token<'a>]), Refusal<'a>> {
        let (ordering, rest) = OrderingRule::read(alloc, tokens)?;
        let rest = symbol(b";", rest)?;
        Ok((ordering, rest))
    }
}

/// An earlier row and a later one.
enum PairRule {}

impl Rule for PairRule {
    ghost use Rattle.spec_syntax.specs.Reading.{pair_at};

    type Tree = NamedPair;

    ghost reader = { pair_at };

    #[tactic(auto, unfolding(crate::specs::Reading::pair_at))]
    fn read<'a>(
        alloc: Global,
        tokens: &'a [Token<'a>],
    ) -> Result<(NamedPair, &'a [Token<'a>]), Refusal<'a>> {
        let (first, rest) = name(alloc, tokens)?;
        let rest = symbol(b"<", rest)?;
        let (second, rest) = name(alloc, rest)?;
        Ok((NamedPair { first, second }, rest))
    }
}
