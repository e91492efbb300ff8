// Reports that are kept, the oldest first.

ghost use Rattle.std.specs.Prelude.{◌≡◌, ◌≤◌, ◌∷◌, ◌++◌, List, [], IfOk, OnErr, OnOk, length};
ghost use Rattle.currency_session.specs.Sessions.{AreKept, IsPut, making_room};
ghost use Rattle.report_write.specs.Writable.{IsWritableReport};
ghost use Rattle.spec_model.specs.declared.relation.Relation.{Relation};

use crate::Reply;
use currency_base::NoMemory;
use report_model::Report;

// The most reports that are kept.
const MOST_KEPT: usize = 4;

/// The reply that a report of a search is: a decided one is put last, and the oldest of four is dropped; one that is not
/// decided is handed out. A refusal changes nothing.
pub(crate) fn put(kept: &mut Vec<Report>, report: Report) -> Result<Reply, NoMemory>
    requires { length kept.old.items ≤ 4 }
    ensures ok { IfOk result (IsPut kept.old.items kept.new.items report) }
    ensures facts { (relations : List Relation) → AreKept relations kept.old.items → IsWritableReport relations report
        → AreKept relations kept.new.items }
    ensures err { OnErr result (kept.new.items ≡ kept.old.items) }
{
    if !report.verdict.kind().is_decided() {
        return Ok(Reply::Open(report));
    }
    match put_last(kept, report) {
        Ok(()) => Ok(Reply::Kept(kept.len() - 1)),
        Err(error) => Err(error),
    }
}

/// Puts a report last, and then drops the oldest of more than four. A refusal changes nothing.
fn put_last(kept: &mut Vec<Report>, report: Report) -> Result<(), NoMemory>
    requires { length kept.old.items ≤ 4 }
    ensures ok { OnOk result (kept.new.items ≡ making_room kept.old.items ++ report ∷ []) }
    ensures err { OnErr result (kept.new.items ≡ kept.old.items) }
{
    if kept.push(report).is_err() {
        return Err(NoMemory);
    }
    if kept.len() > MOST_KEPT {
        let _ = kept.remove(0);
    }
    Ok(())
}
