ghost use Rattle.std.specs.Prelude.{◌≡◌, IfOk, map};
ghost use Rattle.currency_report.specs.Claimed.{item_lines};

use currency_base::NoMemory;
use report_syntax::{AnswerTree, ClaimTree, CompletionTree, CurrentTree, LineList};
use std::alloc::Global;

/// A clause that keeps the line of its first word.
pub trait OnLine {
    ghost use Rattle.std.specs.Prelude.{ℕ};

    ghost line_of: { Self → ℕ };

    /// The line of its first word.
    fn line(&self) -> u32
        ensures { result ≡ line_of self.now };
}

impl OnLine for CurrentTree {
    ghost line_of = { λ t. t.line };

    fn line(&self) -> u32 {
        self.line
    }
}

impl OnLine for AnswerTree {
    ghost line_of = { λ t. t.line };

    fn line(&self) -> u32 {
        self.line
    }
}

impl OnLine for CompletionTree {
    ghost line_of = { λ t. t.line };

    fn line(&self) -> u32 {
        self.line
    }
}

/// The lines of these clauses.
pub fn lines_of<T: OnLine>(alloc: Global, trees: &[T]) -> Result<LineList, NoMemory>
    ensures { IfOk result (λ lines. lines ≡ map T.line_of trees.now) }
{
    let mut lines = LineList::new(alloc);
    for tree in trees {
        lines.push(tree.line())?;
    }
    Ok(lines)
}

/// The lines of a claim's items.
pub fn item_lines(alloc: Global, claim: &ClaimTree) -> Result<LineList, NoMemory>
    ensures { IfOk result (λ lines. lines ≡ item_lines claim.now) }
{
    match claim {
        ClaimTree::Same(items) => lines_of(alloc, items.as_slice()),
        ClaimTree::Answers(items) => lines_of(alloc, items.as_slice()),
        _ => Ok(LineList::new(alloc)),
    }
}
