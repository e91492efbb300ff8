ghost use Rattle.std.specs.Prelude.{◌≡◌, ◌∷◌, ◌++◌, [], Some, IfOk, OnOk};
ghost use Rattle.log_axioms.specs.Axioms.{answer, before, not_before, top, not_top, last, not_last};

use currency_base::{AttrId, ItemList, NoMemory, RelId, RowId};
use refutation_log::Statement;
use std::alloc::Global;

/// A statement, or its negation.
#[derive(Clone, Copy, PartialEq, Eq)]
pub struct Signed {
    pub statement: Statement,
    pub negative: bool,
}

/// Statements with their signs, of which a clause holds one.
pub type SignedList = ItemList<Signed>;

impl Signed {
    /// One row stands before another.
    pub(crate) fn before(rel: RelId, attr: AttrId, earlier: RowId, later: RowId) -> Signed
        ensures { result ≡ before rel attr earlier later }
    {
        Signed {
            statement: Statement::Before {
                rel,
                attr,
                earlier,
                later,
            },
            negative: false,
        }
    }

    /// One row does not stand before another.
    pub(crate) fn not_before(rel: RelId, attr: AttrId, earlier: RowId, later: RowId) -> Signed
        ensures { result ≡ not_before rel attr earlier later }
    {
        Signed {
            statement: Statement::Before {
                rel,
                attr,
                earlier,
                later,
            },
            negative: true,
        }
    }

    /// A row stands last.
    pub(crate) fn top(rel: RelId, attr: AttrId, row: RowId) -> Signed
        ensures { result ≡ top rel attr row }
    {
        Signed {
            statement: Statement::Top { rel, attr, row },
            negative: false,
        }
    }

    /// A row does not stand last.
    pub(crate) fn not_top(rel: RelId, attr: AttrId, row: RowId) -> Signed
        ensures { result ≡ not_top rel attr row }
    {
        Signed {
            statement: Statement::Top { rel, attr, row },
            negative: true,
        }
    }

    /// A row's value is the current one.
    pub(crate) fn last(rel: RelId, attr: AttrId, row: RowId) -> Signed
        ensures { result ≡ last rel attr row }
    {
        Signed {
            statement: Statement::Last { rel, attr, row },
            negative: false,
        }
    }

    /// A row's value is not the current one.
    pub(crate) fn not_last(rel: RelId, attr: AttrId, row: RowId) -> Signed
        ensures { result ≡ not_last rel attr row }
    {
        Signed {
            statement: Statement::Last { rel, attr, row },
            negative: true,
        }
    }

    /// The tuple at a place is an answer.
    pub(crate) fn answer(tuple: u32) -> Signed
        ensures { result ≡ answer tuple }
    {
        Signed {
            statement: Statement::Answer { tuple },
            negative: false,
        }
    }
}

/// A clause of these statements.
pub(crate) fn some_clause(alloc: Global, signed: &[Signed]) -> Result<Option<SignedList>, NoMemory>
    ensures { IfOk result (λ clause. clause ≡ Some signed.now) }
{
    let mut clause = SignedList::new(alloc);
    push_all(&mut clause, signed)?;
    Ok(Some(clause))
}

// Puts statements after the others of a clause.
fn push_all(clause: &mut SignedList, signed: &[Signed]) -> Result<(), NoMemory>
    ensures { OnOk result (clause.new ≡ clause.old ++ signed.now) }
{
    for one in signed {
        clause.push(*one)?;
    }
    Ok(())
}

/// A clause of one statement, to which others are added.
pub(crate) fn begun(alloc: Global, signed: Signed) -> Result<SignedList, NoMemory>
    ensures { IfOk result (λ clause. clause ≡ signed ∷ []) }
{
    let mut clause = SignedList::new(alloc);
    clause.push(signed)?;
    Ok(clause)
}
