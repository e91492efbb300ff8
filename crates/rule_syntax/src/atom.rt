ghost use Rattle.std.specs.Prelude.{◌≡◌, map};
ghost use Rattle.text_tokens.specs.Lexeme.{lexeme_of};
ghost use Rattle.text_grammar.specs.Reading.{Gives};
ghost use Rattle.rule_syntax.specs.Reading.{atom_after};

use crate::OrderAtomTree;
use std::alloc::Global;
use text_grammar::{Named, Refusal, Rule, name, variable, word};
use text_tokens::Token;

/// That the row of one variable is older than that of another.
pub enum OrderAtomRule {}

impl Rule for OrderAtomRule {
    ghost use Rattle.rule_syntax.specs.Reading.{atom_at};

    type Tree = OrderAtomTree;

    ghost reader = { atom_at };

    #[tactic(auto, unfolding(crate::specs::Reading::atom_at))]
    fn read<'a>(
        alloc: Global,
        tokens: &'a [Token<'a>],
    ) -> Result<(OrderAtomTree, &'a [Token<'a>]), Refusal<'a>> {
        let (earlier, rest) = variable(alloc, tokens)?;
        rest_of_atom(alloc, earlier, rest)
    }
}

/// Reads what follows the first variable, from the word `before` on.
#[tactic(auto, unfolding(crate::specs::Reading::atom_after))]
pub fn rest_of_atom<'a>(
    alloc: Global,
    earlier: Named,
    tokens: &'a [Token<'a>],
) -> Result<(OrderAtomTree, &'a [Token<'a>]), Refusal<'a>>
    ensures { Gives (λ x. (x.0, map lexeme_of x.1.now)) result (atom_after earlier (map lexeme_of tokens.now)) }
{
    let rest = word(b"before", tokens)?;
    let (later, rest) = variable(alloc, rest)?;
    let rest = word(b"in", rest)?;
    let (attr, rest) = name(alloc, rest)?;
    Ok((
        OrderAtomTree {
            earlier,
            later,
            attr,
        },
        rest,
    ))
}
