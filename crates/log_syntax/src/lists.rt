ghost use Rattle.std.specs.Prelude.{map};
ghost use Rattle.text_tokens.specs.Lexeme.{lexeme_of};
ghost use Rattle.text_grammar.specs.Reading.{Gives};
ghost use Rattle.log_syntax.specs.Reading.{entities_at, hints_at, lits_at, rows_at};

use crate::fold::{Gathers, MOST, gather};
use crate::number::{lit_in, number, place_in};
use currency_base::{EntId, EntList, Lit, LitList, NoMemory, RowId, RowList};
use refutation_log::HintList;
use std::alloc::Global;
use text_grammar::{Refusal, Repeats, Rule};
use text_tokens::Token;

/// Takes the numbers of rows from the front of the tokens.
#[tactic(auto, unfolding(crate::specs::Reading::rows_at))]
pub fn rows<'a>(
    alloc: Global,
    tokens: &'a [Token<'a>],
) -> Result<(RowList, &'a [Token<'a>]), Refusal<'a>>
    ensures { Gives (λ x. (x.0, map lexeme_of x.1.now)) result (rows_at (map lexeme_of tokens.now)) }
{
    gather::<RowRule>(alloc, MOST, RowList::new(alloc), tokens)
}

/// Takes the numbers of entities from the front of the tokens.
#[tactic(auto, unfolding(crate::specs::Reading::entities_at))]
pub fn entities<'a>(
    alloc: Global,
    tokens: &'a [Token<'a>],
) -> Result<(EntList, &'a [Token<'a>]), Refusal<'a>>
    ensures { Gives (λ x. (x.0, map lexeme_of x.1.now)) result (entities_at (map lexeme_of tokens.now)) }
{
    gather::<EntityRule>(alloc, MOST, EntList::new(alloc), tokens)
}

/// Takes the numbers of steps from the front of the tokens.
#[tactic(auto, unfolding(crate::specs::Reading::hints_at))]
pub fn hints<'a>(
    alloc: Global,
    tokens: &'a [Token<'a>],
) -> Result<(HintList, &'a [Token<'a>]), Refusal<'a>>
    ensures { Gives (λ x. (x.0, map lexeme_of x.1.now)) result (hints_at (map lexeme_of tokens.now)) }
{
    gather::<HintRule>(alloc, MOST, HintList::new(alloc), tokens)
}

/// Takes literals from the front of the tokens.
#[tactic(auto, unfolding(crate::specs::Reading::lits_at))]
pub fn lits<'a>(
    alloc: Global,
    tokens: &'a [Token<'a>],
) -> Result<(LitList, &'a [Token<'a>]), Refusal<'a>>
    ensures { Gives (λ x. (x.0, map lexeme_of x.1.now)) result (lits_at (map lexeme_of tokens.now)) }
{
    gather::<LitRule>(alloc, MOST, LitList::new(alloc), tokens)
}

/// The number of a row.
enum RowRule {}

impl Rule for RowRule {
    ghost use Rattle.log_syntax.specs.Reading.{row_at};

    type Tree = RowId;

    ghost reader = { row_at };

    #[tactic(auto, unfolding(crate::specs::Reading::row_at))]
    fn read<'a>(
        _alloc: Global,
        tokens: &'a [Token<'a>],
    ) -> Result<(RowId, &'a [Token<'a>]), Refusal<'a>> {
        let (place, rest) = number(tokens)?;
        Ok((RowId(place), rest))
    }
}

impl Repeats for RowRule {
    ghost use Rattle.log_syntax.specs.Numbers.{place_in, says_some};

    ghost begins = { says_some place_in };

    fn begins_with(token: &Token) -> bool {
        place_in(token).is_some()
    }
}

impl Gathers for RowRule {
    ghost use Rattle.log_syntax.specs.Reading.{pushed};

    type Into = RowList;

    ghost put = { pushed };

    fn put(into: &mut RowList, tree: RowId) -> Result<(), NoMemory> {
        into.push(tree)
    }
}

/// The number of an entity.
enum EntityRule {}

impl Rule for EntityRule {
    ghost use Rattle.log_syntax.specs.Reading.{entity_at};

    type Tree = EntId;

    ghost reader = { entity_at };

    #[tactic(auto, unfolding(crate::specs::Reading::entity_at))]
    fn read<'a>(
        _alloc: Global,
        tokens: &'a [Token<'a>],
    ) -> Result<(EntId, &'a [Token<'a>]), Refusal<'a>> {
        let (place, rest) = number(tokens)?;
        Ok((EntId(place), rest))
    }
}

impl Repeats for EntityRule {
    ghost use Rattle.log_syntax.specs.Numbers.{place_in, says_some};

    ghost begins = { says_some place_in };

    fn begins_with(token: &Token) -> bool {
        place_in(token).is_some()
    }
}

impl Gathers for EntityRule {
    ghost use Rattle.log_syntax.specs.Reading.{pushed};

    type Into = EntList;

    ghost put = { pushed };

    fn put(into: &mut EntList, tree: EntId) -> Result<(), NoMemory> {
        into.push(tree)
    }
}

/// The number of a step.
enum HintRule {}

impl Rule for HintRule {
    ghost use Rattle.log_syntax.specs.Reading.{number_at};

    type Tree = u32;

    ghost reader = { number_at };

    fn read<'a>(
        _alloc: Global,
        tokens: &'a [Token<'a>],
    ) -> Result<(u32, &'a [Token<'a>]), Refusal<'a>> {
        let (place, rest) = number(tokens)?;
        Ok((place, rest))
    }
}

impl Repeats for HintRule {
    ghost use Rattle.log_syntax.specs.Numbers.{place_in, says_some};

    ghost begins = { says_some place_in };

    fn begins_with(token: &Token) -> bool {
        place_in(token).is_some()
    }
}

impl Gathers for HintRule {
    ghost use Rattle.log_syntax.specs.Reading.{pushed};

    type Into = HintList;

    ghost put = { pushed };

    fn put(into: &mut HintList, tree: u32) -> Result<(), NoMemory> {
        into.push(tree)
    }
}

/// A literal.
enum LitRule {}

impl Rule for LitRule {
    ghost use Rattle.text_grammar.specs.Reading.{one};
    ghost use Rattle.log_syntax.specs.Numbers.{lit_in};

    type Tree = Lit;

    ghost reader = { one lit_in };

    fn read<'a>(
        _alloc: Global,
        tokens: &'a [Token<'a>],
    ) -> Result<(Lit, &'a [Token<'a>]), Refusal<'a>> {
        match tokens {
            [] => Err(Refusal::Syntax(tokens)),
            [first, rest @ ..] => match lit_in(first) {
                Some(lit) => Ok((lit, rest)),
                None => Err(Refusal::Syntax(tokens)),
            },
        }
    }
}

impl Repeats for LitRule {
    ghost use Rattle.log_syntax.specs.Numbers.{lit_in, says_some};

    ghost begins = { says_some lit_in };

    fn begins_with(token: &Token) -> bool {
        lit_in(token).is_some()
    }
}

impl Gathers for LitRule {
    ghost use Rattle.log_syntax.specs.Reading.{pushed};

    type Into = LitList;

    ghost put = { pushed };

    fn put(into: &mut LitList, tree: Lit) -> Result<(), NoMemory> {
        into.push(tree)
    }
}
