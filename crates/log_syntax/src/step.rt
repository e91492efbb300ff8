ghost use Rattle.std.specs.Prelude.{◌≡◌, map};
ghost use Rattle.text_tokens.specs.Lexeme.{lexeme_of};
ghost use Rattle.text_grammar.specs.Reading.{Gives};
ghost use Rattle.log_syntax.specs.Reading;
ghost use Rattle.log_syntax.specs.Reading.{axiom_at, demand_at, derive_at, learn_at, step_at, steps_at};

use crate::fold::{Gathers, MOST, gather};
use crate::label::label;
use crate::line::word_on;
use crate::lists::{hints, lits};
use crate::trees::{LineList, SaidSteps, StepOnLine};
use currency_base::NoMemory;
use refutation_log::{Step, Steps};
use std::alloc::Global;
use text_grammar::{Refusal, Repeats, Rule, is_fixed, symbol, word};
use text_tokens::{Token, TokenKind};

/// Takes steps from the front of the tokens.
#[tactic(auto, unfolding(crate::specs::Reading::steps_at))]
pub fn steps<'a>(
    alloc: Global,
    tokens: &'a [Token<'a>],
) -> Result<(SaidSteps, &'a [Token<'a>]), Refusal<'a>>
    ensures { Gives (λ x. (x.0, map lexeme_of x.1.now)) result (steps_at (map lexeme_of tokens.now)) }
{
    let said = SaidSteps {
        steps: Steps::new(alloc),
        lines: LineList::new(alloc),
    };
    gather::<StepRule>(alloc, MOST, said, tokens)
}

/// A step, its line and its semicolon.
enum StepRule {}

impl Rule for StepRule {
    ghost use Rattle.log_syntax.specs.Reading.{ended_step_at};

    type Tree = StepOnLine;

    ghost reader = { ended_step_at };

    #[tactic(auto, unfolding(crate::specs::Reading::ended_step_at))]
    fn read<'a>(
        alloc: Global,
        tokens: &'a [Token<'a>],
    ) -> Result<(StepOnLine, &'a [Token<'a>]), Refusal<'a>> {
        let (step, rest) = step(alloc, tokens)?;
        let rest = symbol(b";", rest)?;
        Ok((step, rest))
    }
}

impl Repeats for StepRule {
    ghost use Rattle.log_syntax.specs.Reading.{begins_step};

    ghost begins = { begins_step };

    fn begins_with(token: &Token) -> bool {
        is_fixed(TokenKind::Word, b"axiom", token)
            || is_fixed(TokenKind::Word, b"demand", token)
            || is_fixed(TokenKind::Word, b"learn", token)
            || is_fixed(TokenKind::Word, b"derive", token)
    }
}

impl Gathers for StepRule {
    ghost use Rattle.log_syntax.specs.Reading.{stepped};

    type Into = SaidSteps;

    ghost put = { stepped };

    fn put(into: &mut SaidSteps, tree: StepOnLine) -> Result<(), NoMemory> {
        into.steps.push(tree.step.as_ref())?;
        into.lines.push(tree.line)
    }
}

/// Takes a step from the front of the tokens.
#[tactic(auto, unfolding(crate::specs::Reading::step_at))]
fn step<'a>(
    alloc: Global,
    tokens: &'a [Token<'a>],
) -> Result<(StepOnLine, &'a [Token<'a>]), Refusal<'a>>
    ensures { Gives (λ x. (x.0, map lexeme_of x.1.now)) result (step_at (map lexeme_of tokens.now)) }
{
    match tokens {
        [] => derive(alloc, tokens),
        [first, ..] => {
            if is_fixed(TokenKind::Word, b"axiom", first) {
                axiom(alloc, tokens)
            } else if is_fixed(TokenKind::Word, b"demand", first) {
                demand(alloc, tokens)
            } else if is_fixed(TokenKind::Word, b"learn", first) {
                learn(alloc, tokens)
            } else {
                derive(alloc, tokens)
            }
        }
    }
}

/// An axiom, from the word `axiom` on.
#[tactic(auto, unfolding(crate::specs::Reading::axiom_at))]
fn axiom<'a>(
    alloc: Global,
    tokens: &'a [Token<'a>],
) -> Result<(StepOnLine, &'a [Token<'a>]), Refusal<'a>>
    ensures { Gives (λ x. (x.0, map lexeme_of x.1.now)) result (axiom_at (map lexeme_of tokens.now)) }
{
    let (line, rest) = word_on(b"axiom", tokens)?;
    let (label, rest) = label(alloc, rest)?;
    let rest = symbol(b":", rest)?;
    let (lits, rest) = lits(alloc, rest)?;
    let step = Step::Axiom { label, lits };
    Ok((StepOnLine { line, step }, rest))
}

/// An axiom that the search brought in, from the word `demand` on.
#[tactic(auto, unfolding(crate::specs::Reading::demand_at))]
fn demand<'a>(
    alloc: Global,
    tokens: &'a [Token<'a>],
) -> Result<(StepOnLine, &'a [Token<'a>]), Refusal<'a>>
    ensures { Gives (λ x. (x.0, map lexeme_of x.1.now)) result (demand_at (map lexeme_of tokens.now)) }
{
    let (line, rest) = word_on(b"demand", tokens)?;
    let (label, rest) = label(alloc, rest)?;
    let rest = symbol(b":", rest)?;
    let (lits, rest) = lits(alloc, rest)?;
    let step = Step::OnDemand { label, lits };
    Ok((StepOnLine { line, step }, rest))
}

/// A clause that follows and is counted, from the word `learn` on.
#[tactic(auto, unfolding(crate::specs::Reading::learn_at))]
fn learn<'a>(
    alloc: Global,
    tokens: &'a [Token<'a>],
) -> Result<(StepOnLine, &'a [Token<'a>]), Refusal<'a>>
    ensures { Gives (λ x. (x.0, map lexeme_of x.1.now)) result (learn_at (map lexeme_of tokens.now)) }
{
    let (line, rest) = word_on(b"learn", tokens)?;
    let (lits, rest) = lits(alloc, rest)?;
    let rest = word(b"by", rest)?;
    let (hints, rest) = hints(alloc, rest)?;
    let step = Step::Learn {
        lits,
        hints,
        counted: true,
    };
    Ok((StepOnLine { line, step }, rest))
}

/// A clause that follows and is not counted, from the word `derive` on.
#[tactic(auto, unfolding(crate::specs::Reading::derive_at))]
fn derive<'a>(
    alloc: Global,
    tokens: &'a [Token<'a>],
) -> Result<(StepOnLine, &'a [Token<'a>]), Refusal<'a>>
    ensures { Gives (λ x. (x.0, map lexeme_of x.1.now)) result (derive_at (map lexeme_of tokens.now)) }
{
    let (line, rest) = word_on(b"derive", tokens)?;
    let (lits, rest) = lits(alloc, rest)?;
    let rest = word(b"by", rest)?;
    let (hints, rest) = hints(alloc, rest)?;
    let step = Step::Learn {
        lits,
        hints,
        counted: false,
    };
    Ok((StepOnLine { line, step }, rest))
}
