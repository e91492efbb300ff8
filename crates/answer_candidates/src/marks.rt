ghost use Rattle.std.specs.Prelude.{◌≡◌, ◌⊎◌, IfOk, false, length, true};
ghost use Rattle.answer_candidates.specs.Candidates.{AreMarks, IsMark};

use currency_base::{NoMemory, Tuple};
use std::alloc::Global;
use ucq_answers::{IndexedInstance, laws_of_answers};

/// Which tuples are gone, and whether there are more of them than before.
#[derive(Drop)]
pub(crate) struct Marks {
    pub gone: Vec<bool>,
    pub more: bool,
}

/// Which of these tuples are gone, once one more instance is looked at.
#[tactic(auto, using(crate::proofs::Marking::marks_none))]
pub(crate) fn marked(
    alloc: Global,
    tuples: &[Tuple],
    indexed: &IndexedInstance<'_>,
    gone: &[bool],
) -> Result<Marks, NoMemory>
    requires { length gone.now ≡ length tuples.now }
    ensures { IfOk result (λ m. AreMarks indexed.now tuples.now gone.now (length tuples.now) m.gone.items m.more) }
{
    let mut marks = Vec::new(alloc);
    let mut more = false;
    for place in 0..tuples.len() {
        let was = gone[place];
        let mark = match is_gone(alloc, &tuples[place], indexed, was) {
            Ok(mark) => mark,
            Err(error) => return Err(error),
        };
        match marks.push(mark) {
            Ok(()) => {}
            Err(_) => return Err(NoMemory),
        }
        more = is_more(more, was, mark);
    }
    Ok(Marks { gone: marks, more })
}

// Are there more tuples that are gone, once one more is looked at? Just where there were, or this one was not and is now.
fn is_more(more: bool, was: bool, mark: bool) -> bool
    ensures none { result ≡ false → (more ≡ false) × (mark ≡ true → was ≡ true) }
    ensures some { result ≡ true → (more ≡ true) ⊎ ((was ≡ false) × (mark ≡ true)) }
{
    if was {
        return more;
    }
    if mark {
        return true;
    }
    more
}

// Is a tuple gone, once one more instance is looked at?
fn is_gone(
    alloc: Global,
    tuple: &Tuple,
    indexed: &IndexedInstance<'_>,
    was: bool,
) -> Result<bool, NoMemory>
    ensures { IfOk result (IsMark indexed.now tuple.now was) }
{
    if was {
        return Ok(true);
    }
    laws_of_answers();
    match indexed.match_of(alloc, tuple) {
        Ok(Some(_)) => Ok(false),
        Ok(None) => Ok(true),
        Err(error) => Err(error),
    }
}
