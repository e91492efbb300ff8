use crate::runs::{Documents, P, Q, R, S, verified, with};
use std::process::Abort;
use std::test::Fail;

// A specification with a rule of every form of predicate and operand.
const RULED: &str = "relation R from \"r.csv\" row id entity eid (a: int);
rule n on R (s, t): if s before t in a and s.a <= t.a and 1 != s.a then t before s in a;
";

// A specification with a copy, and given pairs from a table of that name, which is not there.
const COPIED: &str = "relation R from \"r.csv\" row id entity eid (a: int);
copy c into R (a) from R (a): r1 from r1, r2 from r2;
copy d into R (a) from R (a) using \"c.csv\";
";

// Whatever stands in the documents, the program ends with a status of its table.
fn expect_an_end(rt: &(impl Abort + AllocGlobal), documents: Documents<'_>) -> Result<(), Fail> {
    let (status, _) = verified(rt.alloc(), documents)?;
    assert!(rt; matches!(status, 0 | 4 | 5 | 7), "status {status}");
    Ok(())
}

#[test]
fn each_front_of_each_document(rt: HostRuntime) -> Result<(), Fail> {
    for (place, text) in [(0, S), (1, R), (2, Q), (3, P), (0, RULED), (0, COPIED)] {
        for cut in 0..text.len() {
            let (front, _) = text.as_bytes().split_at(cut);
            expect_an_end(&rt, with(place, front))?;
        }
    }
    Ok(())
}

#[test]
fn each_byte_of_each_document(rt: HostRuntime) -> Result<(), Fail> {
    for (place, text) in [(0, S), (1, R), (2, Q), (3, P), (0, RULED), (0, COPIED)] {
        for at in 0..text.len() {
            for byte in [b'"', b';', b'-', b'!', 0xff, b'\n', b'\r'] {
                let mut changed = Vec::from_slice(rt.alloc(), text.as_bytes())?;
                if at < changed.len() {
                    changed[at] = byte;
                }
                expect_an_end(&rt, with(place, changed.as_slice()))?;
            }
        }
    }
    Ok(())
}
