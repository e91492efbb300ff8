ghost use Rattle.std.specs.Prelude.{◌≡◌, map};
ghost use Rattle.text_tokens.specs.Lexeme.{lexeme_of};
ghost use Rattle.text_grammar.specs.Reading.{Gives, starts};
ghost use Rattle.query_syntax.specs.Reading;

use crate::atom::atom;
use crate::comparison::test;
use crate::{DisjunctTree, PartTree};
use currency_base::read_int;
use std::alloc::Global;
use text_grammar::{Refusal, Repeats, Rule, is_fixed, is_variable, many, word};
use text_tokens::{Token, TokenKind};

/// A conjunction.
pub enum DisjunctRule {}

impl Rule for DisjunctRule {
    ghost use Rattle.query_syntax.specs.Reading.{disjunct_at};

    type Tree = DisjunctTree;

    ghost reader = { disjunct_at };

    #[tactic(auto, unfolding(crate::specs::Reading::disjunct_at))]
    fn read<'a>(
        alloc: Global,
        tokens: &'a [Token<'a>],
    ) -> Result<(DisjunctTree, &'a [Token<'a>]), Refusal<'a>> {
        let (first, rest) = atom(alloc, tokens)?;
        let (parts, rest) = many::<FurtherPartRule>(alloc, rest)?;
        Ok((DisjunctTree { first, parts }, rest))
    }
}

/// A part of a conjunction and the `and` before it.
enum FurtherPartRule {}

impl Rule for FurtherPartRule {
    ghost use Rattle.query_syntax.specs.Reading.{further_part_at};

    type Tree = PartTree;

    ghost reader = { further_part_at };

    #[tactic(auto, unfolding(crate::specs::Reading::further_part_at))]
    fn read<'a>(
        alloc: Global,
        tokens: &'a [Token<'a>],
    ) -> Result<(PartTree, &'a [Token<'a>]), Refusal<'a>> {
        let rest = word(b"and", tokens)?;
        part(alloc, rest)
    }
}

impl Repeats for FurtherPartRule {
    ghost use Rattle.std.specs.Prelude.{codes};
    ghost use Rattle.text_grammar.specs.Words;

    ghost begins = { Words.is_word (codes "and") };

    fn begins_with(token: &Token) -> bool {
        is_fixed(TokenKind::Word, b"and", token)
    }
}

/// Reads an atom or a test.
#[tactic(auto, unfolding(crate::specs::Reading::part_at))]
fn part<'a>(
    alloc: Global,
    tokens: &'a [Token<'a>],
) -> Result<(PartTree, &'a [Token<'a>]), Refusal<'a>>
    ensures { Gives (λ x. (x.0, map lexeme_of x.1.now)) result (Reading.part_at (map lexeme_of tokens.now)) }
{
    if is_atom_ahead(tokens) {
        let (atom, rest) = atom(alloc, tokens)?;
        Ok((PartTree::Atom(atom), rest))
    } else {
        let (test, rest) = test(alloc, tokens)?;
        Ok((PartTree::Test(test), rest))
    }
}

/// Is an atom to be read? A first token that can be a relation's name and a term too leaves it to the
/// second one.
fn is_atom_ahead(tokens: &[Token]) -> bool
    ensures { result ≡ Reading.is_atom_ahead (map lexeme_of tokens.now) }
{
    match tokens {
        [] => false,
        [first, rest @ ..] => match first.kind {
            TokenKind::Word => is_no_term(first) || opens(rest),
            TokenKind::Text => opens(rest),
            _ => false,
        },
    }
}

/// Is the word neither a variable nor a number?
fn is_no_term(word: &Token) -> bool
    ensures { result ≡ Reading.is_no_term (lexeme_of word.now) }
{
    !is_variable(word) && read_int(word.text).is_none()
}

/// Do the tokens begin with a parenthesis that opens?
fn opens(tokens: &[Token]) -> bool
    ensures { result ≡ starts Reading.is_open (map lexeme_of tokens.now) }
{
    match tokens {
        [] => false,
        [first, ..] => is_fixed(TokenKind::Symbol, b"(", first),
    }
}
