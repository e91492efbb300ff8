//! Budgets that are spent, and a text of which only some lines are due.

use crate::runs::{Documents, EIGHT, TRIANGLE, asked};
use std::test::Fail;

// How often a piece stands in a text.
fn count(text: &[u8], piece: &[u8]) -> u32 {
    let mut found: u32 = 0;
    for place in 0..text.len() {
        if text[place..].starts_with(piece) {
            found = found.saturating_add(1);
        }
    }
    found
}

#[test]
fn a_budget_of_one_is_one_clause(rt: HostRuntime) -> Result<(), Fail> {
    let words = ["currency", "ask", "s", "q", "--budget", "1", "--brief"];
    let (ended, sink) = asked(rt.alloc(), EIGHT.documents(b""), &words)?;
    assert_eq!(rt; ended, 3);
    assert_eq!(rt; count(sink.written(), b"\nlearn "), 1);
    Ok(())
}

// Whether a text has a line.
fn has_line(text: &[u8], line: &str) -> bool {
    text.split(|byte| *byte == b'\n')
        .any(|it| it == line.as_bytes())
}

#[test]
fn a_triangle_is_never_a_circle(rt: HostRuntime) -> Result<(), Fail> {
    let documents = Documents {
        q: b"certain S.a: p1 < p2;\n",
        ..TRIANGLE.documents(b"")
    };
    let (ended, sink) = asked(
        rt.alloc(),
        documents,
        &["currency", "ask", "s", "q", "--brief"],
    )?;
    assert_eq!(&rt; ended, 0);
    let text = sink.written();
    assert!(&rt; has_line(text, "verdict not certain S.a: p1 < p2;"));
    let mut forward: u32 = 0;
    for line in [
        "ranking S.a of p: p1 < p2;",
        "ranking S.a of q: q1 < q2;",
        "ranking S.a of w: w1 < w2;",
    ] {
        if has_line(text, line) {
            forward = forward.saturating_add(1);
        }
    }
    assert!(&rt; forward == 1 || forward == 2, "{forward}");
    Ok(())
}
