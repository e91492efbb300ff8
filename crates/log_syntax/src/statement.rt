ghost use Rattle.std.specs.Prelude.{◌≡◌, map, OnOk};
ghost use Rattle.text_tokens.specs.Lexeme.{lexeme_of};
ghost use Rattle.text_grammar.specs.Reading.{Gives};
ghost use Rattle.log_syntax.specs.Reading.{answer_at, before_at, last_statement_at, said_by, statement_at, statements_at, top_statement_at, with_answer, with_statement};

use crate::StatementTree;
use crate::fold::{Gathers, MOST, gather};
use crate::line::word_on;
use crate::number::{cell, number};
use crate::trees::{LineList, Said, StatementOnLine};
use crate::value_list::values;
use currency_base::{NoMemory, RowId, Tuple, TupleList};
use refutation_log::{Statement, StatementList};
use std::alloc::Global;
use text_grammar::{Refusal, Repeats, Rule, is_fixed, symbol, word};
use text_tokens::{Token, TokenKind};

/// Takes statements from the front of the tokens.
#[tactic(auto, unfolding(crate::specs::Reading::statements_at))]
pub fn statements<'a>(
    alloc: Global,
    tokens: &'a [Token<'a>],
) -> Result<(Said, &'a [Token<'a>]), Refusal<'a>>
    ensures { Gives (λ x. (x.0, map lexeme_of x.1.now)) result (statements_at (map lexeme_of tokens.now)) }
{
    let said = Said {
        answers: TupleList::new(alloc),
        statements: StatementList::new(alloc),
        lines: LineList::new(alloc),
    };
    gather::<StatementRule>(alloc, MOST, said, tokens)
}

/// The word `statement`, a statement and its semicolon.
enum StatementRule {}

impl Rule for StatementRule {
    ghost use Rattle.log_syntax.specs.Reading.{ended_statement_at};

    type Tree = StatementOnLine;

    ghost reader = { ended_statement_at };

    #[tactic(auto, unfolding(crate::specs::Reading::ended_statement_at))]
    fn read<'a>(
        alloc: Global,
        tokens: &'a [Token<'a>],
    ) -> Result<(StatementOnLine, &'a [Token<'a>]), Refusal<'a>> {
        let (line, rest) = word_on(b"statement", tokens)?;
        let (statement, rest) = statement(alloc, rest)?;
        let rest = symbol(b";", rest)?;
        Ok((StatementOnLine { line, statement }, rest))
    }
}

impl Repeats for StatementRule {
    ghost use Rattle.std.specs.Prelude.{codes};
    ghost use Rattle.text_grammar.specs.Words;

    ghost begins = { Words.is_word (codes "statement") };

    fn begins_with(token: &Token) -> bool {
        is_fixed(TokenKind::Word, b"statement", token)
    }
}

impl Gathers for StatementRule {
    ghost use Rattle.log_syntax.specs.Reading.{said_too};

    type Into = Said;

    ghost put = { said_too };

    fn put(into: &mut Said, tree: StatementOnLine) -> Result<(), NoMemory> {
        into.put(tree.line, tree.statement)
    }
}

impl Said {
    /// A statement more, and its line.
    #[tactic(auto, unfolding(crate::specs::Reading::said_by))]
    fn put(&mut self, line: u32, tree: StatementTree) -> Result<(), NoMemory>
        ensures { OnOk result (self.new ≡ said_by self.old line tree) }
    {
        match tree {
            StatementTree::Before {
                rel,
                attr,
                earlier,
                later,
            } => self.say(
                line,
                Statement::Before {
                    rel,
                    attr,
                    earlier,
                    later,
                },
            ),
            StatementTree::Top { rel, attr, row } => self.say(
                line,
                Statement::Top { rel, attr, row },
            ),
            StatementTree::Last { rel, attr, row } => {
                self.say(line, Statement::Last { rel, attr, row })
            }
            StatementTree::Answer { values } => self.answer(line, values),
        }
    }

    /// A statement of no answer more.
    fn say(&mut self, line: u32, statement: Statement) -> Result<(), NoMemory>
        ensures { OnOk result (self.new ≡ with_statement self.old line statement) }
    {
        self.statements.push(statement)?;
        self.lines.push(line)
    }

    /// An answer more: its tuple, and the statement that names it.
    fn answer(&mut self, line: u32, values: Tuple) -> Result<(), NoMemory>
        ensures { OnOk result (self.new ≡ with_answer self.old line values) }
    {
        let tuple = self.answers.len();
        if tuple > u32::MAX as usize {
            return Err(NoMemory);
        }
        self.answers.push(values)?;
        self.say(
            line,
            Statement::Answer {
                tuple: tuple as u32,
            },
        )
    }
}

/// Takes a statement from the front of the tokens.
#[tactic(auto, unfolding(crate::specs::Reading::statement_at))]
fn statement<'a>(
    alloc: Global,
    tokens: &'a [Token<'a>],
) -> Result<(StatementTree, &'a [Token<'a>]), Refusal<'a>>
    ensures { Gives (λ x. (x.0, map lexeme_of x.1.now)) result (statement_at (map lexeme_of tokens.now)) }
{
    match tokens {
        [] => answer(alloc, tokens),
        [first, ..] => {
            if is_fixed(TokenKind::Word, b"before", first) {
                before(tokens)
            } else if is_fixed(TokenKind::Word, b"top", first) {
                top(tokens)
            } else if is_fixed(TokenKind::Word, b"last", first) {
                last(tokens)
            } else {
                answer(alloc, tokens)
            }
        }
    }
}

/// That a row stands before another, from the word `before` on.
#[tactic(auto, unfolding(crate::specs::Reading::before_at))]
fn before<'a>(tokens: &'a [Token<'a>]) -> Result<(StatementTree, &'a [Token<'a>]), Refusal<'a>>
    ensures { Gives (λ x. (x.0, map lexeme_of x.1.now)) result (before_at (map lexeme_of tokens.now)) }
{
    let rest = word(b"before", tokens)?;
    let (at, rest) = cell(rest)?;
    let (later, rest) = number(rest)?;
    Ok((
        StatementTree::Before {
            rel: at.rel,
            attr: at.attr,
            earlier: at.row,
            later: RowId(later),
        },
        rest,
    ))
}

/// That a row stands last, from the word `top` on.
#[tactic(auto, unfolding(crate::specs::Reading::top_statement_at))]
fn top<'a>(tokens: &'a [Token<'a>]) -> Result<(StatementTree, &'a [Token<'a>]), Refusal<'a>>
    ensures { Gives (λ x. (x.0, map lexeme_of x.1.now)) result (top_statement_at (map lexeme_of tokens.now)) }
{
    let rest = word(b"top", tokens)?;
    let (at, rest) = cell(rest)?;
    Ok((
        StatementTree::Top {
            rel: at.rel,
            attr: at.attr,
            row: at.row,
        },
        rest,
    ))
}

/// That a row's value is the current one, from the word `last` on.
#[tactic(auto, unfolding(crate::specs::Reading::last_statement_at))]
fn last<'a>(tokens: &'a [Token<'a>]) -> Result<(StatementTree, &'a [Token<'a>]), Refusal<'a>>
    ensures { Gives (λ x. (x.0, map lexeme_of x.1.now)) result (last_statement_at (map lexeme_of tokens.now)) }
{
    let rest = word(b"last", tokens)?;
    let (at, rest) = cell(rest)?;
    Ok((
        StatementTree::Last {
            rel: at.rel,
            attr: at.attr,
            row: at.row,
        },
        rest,
    ))
}

/// That a tuple is an answer, from the word `answer` on.
#[tactic(auto, unfolding(crate::specs::Reading::answer_at))]
fn answer<'a>(
    alloc: Global,
    tokens: &'a [Token<'a>],
) -> Result<(StatementTree, &'a [Token<'a>]), Refusal<'a>>
    ensures { Gives (λ x. (x.0, map lexeme_of x.1.now)) result (answer_at (map lexeme_of tokens.now)) }
{
    let rest = word(b"answer", tokens)?;
    let (values, rest) = values(alloc, rest)?;
    Ok((StatementTree::Answer { values }, rest))
}
