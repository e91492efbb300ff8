//! What a question for a fact of the whole asks of a part.

ghost use Rattle.std.specs.Prelude.{◌≡◌, All, IfOk, IfSome, Some, slice_get};
ghost use Rattle.part_facts.specs.Questions.{IsAskedPart};
ghost use Rattle.spec_model.specs.declared.question.Question.TheVariants as asked;
ghost use Rattle.near_items.specs.Sites.{AreInPlaces, IsAskedOf, IsInPlaces};

use currency_base::{NoMemory, Pair, RowId};
use part_places::Places;
use spec_model::{Asked, AskedList, Question};
use std::alloc::Global;

/// What is asked of a part.
#[derive(Drop)]
pub(crate) enum Asking {
    /// The question as it is.
    Same,
    /// This question, which speaks of the part's rows by their numbers there.
    Other(Question),
    /// Nothing, since the question speaks of other rows.
    Beyond,
}

/// What a question for a fact asks of the part of these places.
pub(crate) fn asked_of(
    alloc: Global,
    places: &Places,
    question: &Question,
) -> Result<Asking, NoMemory>
    requires { AreInPlaces places.now question.now }
    ensures { IfOk result (IsAskedOf places.now question.now) }
{
    match question {
        Question::Consistent => Ok(Asking::Same),
        Question::Certain(pairs) => asked_pairs(alloc, places, pairs.as_slice()),
        Question::Same(_) => Ok(Asking::Beyond),
        Question::Answers(_) => Ok(Asking::Same),
    }
}

/// The same where pairs are asked.
fn asked_pairs(alloc: Global, places: &Places, pairs: &[Asked]) -> Result<Asking, NoMemory>
    requires { All (IsInPlaces places.now) pairs.now }
    ensures { IfOk result (IsAskedOf places.now (asked.Certain pairs.now)) }
{
    let mut found = AskedList::new(alloc);
    for asked in pairs {
        match narrowed(places, *asked) {
            Some(asked) => found.push(asked)?,
            None => return Ok(Asking::Beyond),
        }
    }
    Ok(Asking::Other(Question::Certain(found)))
}

/// The pair by the rows' numbers in the part, if it has both.
fn narrowed(places: &Places, asked: Asked) -> Option<Asked>
    requires { IsInPlaces places.now asked }
    ensures { IfSome result (λ new. IsAskedPart places.now new asked) }
{
    let rows = places.rows(asked.rel);
    let earlier = place_of(rows, asked.pair.earlier)?;
    let later = place_of(rows, asked.pair.later)?;
    Some(Asked {
        rel: asked.rel,
        pair: Pair {
            attr: asked.pair.attr,
            earlier,
            later,
        },
    })
}

/// The number of a row in the part.
fn place_of(rows: &[RowId], row: RowId) -> Option<RowId>
    ensures { IfSome result (λ new. slice_get rows.now new.0 ≡ Some row) }
{
    for place in 0..rows.len() {
        if rows[place] == row {
            return match u32::try_from(place) {
                Ok(place) => Some(RowId(place)),
                Err(_) => None,
            };
        }
    }
    None
}
