ghost use Rattle.std.specs.Prelude.{◌≡◌, map, true};
ghost use Rattle.text_tokens.specs.Lexeme.{lexeme_of};
ghost use Rattle.text_grammar.specs.Reading.{Gives, one};
ghost use Rattle.question_syntax.specs.Grammar.{word_line};
ghost use Rattle.script_syntax.specs.Grammar;
ghost use Rattle.script_syntax.specs.Reading.{edit_at, ask_at};

use crate::change::change;
use crate::{Entry, EntryList, EntryTree};
use question_syntax::QuestionRule;
use std::alloc::Global;
use text_grammar::{Refusal, Repeats, Rule, is_fixed, many, symbol};
use text_tokens::{Token, TokenKind};

/// A script: entries to the end of the text.
pub enum ScriptRule {}

impl Rule for ScriptRule {
    ghost use Rattle.script_syntax.specs.Reading.{script_at};

    type Tree = EntryList;

    ghost reader = { script_at };

    #[tactic(auto, unfolding(crate::specs::Reading::script_at))]
    fn read<'a>(
        alloc: Global,
        tokens: &'a [Token<'a>],
    ) -> Result<(EntryList, &'a [Token<'a>]), Refusal<'a>> {
        many::<EntryRule>(alloc, tokens)
    }
}

/// An entry, with the semicolon that ends it.
enum EntryRule {}

impl Rule for EntryRule {
    ghost use Rattle.script_syntax.specs.Reading.{entry_at};

    type Tree = Entry;

    ghost reader = { entry_at };

    #[tactic(auto, unfolding(crate::specs::Reading::entry_at))]
    fn read<'a>(
        alloc: Global,
        tokens: &'a [Token<'a>],
    ) -> Result<(Entry, &'a [Token<'a>]), Refusal<'a>> {
        match tokens {
            [] => ask(alloc, tokens),
            [first, ..] => {
                if is_fixed(TokenKind::Word, b"add", first) {
                    edit(alloc, true, tokens)
                } else if is_fixed(TokenKind::Word, b"withdraw", first) {
                    edit(alloc, false, tokens)
                } else {
                    ask(alloc, tokens)
                }
            }
        }
    }
}

impl Repeats for EntryRule {
    ghost begins = { λ _. true };

    fn begins_with(_: &Token) -> bool {
        true
    }
}

/// Reads an edit, from the word `add` or `withdraw` on.
#[tactic(auto, unfolding(crate::specs::Reading::edit_at))]
fn edit<'a>(
    alloc: Global,
    add: bool,
    tokens: &'a [Token<'a>],
) -> Result<(Entry, &'a [Token<'a>]), Refusal<'a>>
    ensures { Gives (λ x. (x.0, map lexeme_of x.1.now)) result (edit_at add (map lexeme_of tokens.now)) }
{
    let (line, rest) = word_line(verb(add), tokens)?;
    let (tree, rest) = change(alloc, add, rest)?;
    let rest = symbol(b";", rest)?;
    Ok((Entry { line, tree }, rest))
}

/// The word of an edit.
fn verb<'a>(add: bool) -> &'a [u8]
    ensures { result.now ≡ Grammar.verb add }
{
    if add { b"add" } else { b"withdraw" }
}

/// Reads a question, from the word `ask` on.
#[tactic(auto, unfolding(crate::specs::Reading::ask_at))]
fn ask<'a>(alloc: Global, tokens: &'a [Token<'a>]) -> Result<(Entry, &'a [Token<'a>]), Refusal<'a>>
    ensures { Gives (λ x. (x.0, map lexeme_of x.1.now)) result (ask_at (map lexeme_of tokens.now)) }
{
    let (line, rest) = word_line(b"ask", tokens)?;
    let (question, rest) = QuestionRule::read(alloc, rest)?;
    let tree = EntryTree::Ask(question);
    Ok((Entry { line, tree }, rest))
}

/// Takes a word from the front of the tokens: its line, and the tokens after it.
fn word_line<'a>(
    text: &[u8],
    tokens: &'a [Token<'a>],
) -> Result<(u32, &'a [Token<'a>]), Refusal<'a>>
    ensures { Gives (λ x. (x.0, map lexeme_of x.1.now)) result (one (word_line text.now) (map lexeme_of tokens.now)) }
{
    match tokens {
        [] => Err(Refusal::Syntax(tokens)),
        [first, rest @ ..] => {
            if is_fixed(TokenKind::Word, text, first) {
                Ok((first.line, rest))
            } else {
                Err(Refusal::Syntax(tokens))
            }
        }
    }
}
