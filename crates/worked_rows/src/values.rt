//! Values as rules compare them.

use crate::documents::expect;
use crate::runs::{ACCEPTED, Documents, first};
use std::process::Abort;
use std::test::Fail;

const IN_ORDER: &str =
    "currency report 1;\nverdict consistent;\ncompletion;\nranking R.a of x: r1 < r2;\nend;\n";

// Two rows have these values, the earlier row the first. A rule against rows in this order whose values
// compare so is broken exactly where the comparison holds.
fn expect_comparison(
    rt: &(impl Abort + AllocGlobal),
    kind: &str,
    comparison: &str,
    values: (&str, &str),
    holds: bool,
) -> Result<(), Fail> {
    let alloc = rt.alloc();
    let (earlier, later) = values;
    let rule = format!(in alloc;
        "rule n on R (s, t): if s before t in a and s.a {comparison} t.a then false;"
    )?;
    let spec = format!(in alloc;
        "relation R from \"r.csv\" row id entity eid (a: {kind});\n{rule}\n"
    )?;
    let table = format!(in alloc; "id,eid,a\nr1,x,{earlier}\nr2,x,{later}\n")?;
    let documents = Documents {
        s: spec.as_bytes(),
        r: table.as_bytes(),
        p: IN_ORDER.as_bytes(),
        ..first()
    };
    if holds {
        expect(rt, documents, 4, "refused V1 p 3\n")
    } else {
        expect(rt, documents, 0, ACCEPTED)
    }
}

// Each comparison of a lesser with a greater value, of equal ones, and of a greater with a lesser one.
fn expect_comparisons(
    rt: &(impl Abort + AllocGlobal),
    kind: &str,
    lesser: &str,
    greater: &str,
) -> Result<(), Fail> {
    for (comparison, less, equal, more) in [
        ("=", false, true, false),
        ("!=", true, false, true),
        ("<", true, false, false),
        ("<=", true, true, false),
        (">", false, false, true),
        (">=", false, true, true),
    ] {
        expect_comparison(rt, kind, comparison, (lesser, greater), less)?;
        expect_comparison(rt, kind, comparison, (lesser, lesser), equal)?;
        expect_comparison(rt, kind, comparison, (greater, lesser), more)?;
    }
    Ok(())
}

#[test]
fn values_are_compared(rt: HostRuntime) -> Result<(), Fail> {
    for (kind, lesser, greater) in [
        ("int", "9", "10"),
        ("int", "-10", "-9"),
        ("int", "-9223372036854775808", "9223372036854775807"),
        // Texts are compared by their bytes.
        ("text", "10", "9"),
        ("text", "B", "a"),
        ("text", "", "a"),
        ("text", "single", "single "),
        ("text", "z", "\u{e9}"),
    ] {
        expect_comparisons(&rt, kind, lesser, greater)?;
    }
    Ok(())
}
