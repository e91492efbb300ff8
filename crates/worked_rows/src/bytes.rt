//! Documents by their bytes: marks and line ends, and bytes that are no text.

use crate::documents::expect;
use crate::runs::{ACCEPTED, Documents, with};
use std::test::Fail;

// What stands in the place of a document, and the text that is written: `s`, `r.csv` or `q`.
const REFUSED: [(usize, &[u8], &str); 9] = [
    (
        0,
        b"relation R from \"r.csv\" row id entity eid (a: int);\n\xff",
        "error E01 s 2\n",
    ),
    // a carriage return ends no line
    (
        0,
        b"relation R from \"r.csv\" row id entity eid (a: int);\nrule n on R (s):\rfalse\r\n\n;;",
        "error E02 s 4\n",
    ),
    // a second mark
    (
        0,
        b"\xef\xbb\xbf\xef\xbb\xbfrelation R from \"r.csv\" row id entity eid (a: int);\n",
        "error E02 s 1\n",
    ),
    (
        0,
        b"relation R from \"r.csv\" row id entity eid (a: int);\n\xef\xbb\xbforder R.a: r1 < r2;",
        "error E02 s 2\n",
    ),
    (2, b"\xff", "error E01 q 1\n"),
    (2, b"consistent;\n\n\xc0", "error E01 q 3\n"),
    (1, b"\xef\xbb\xbf", "error E07 r.csv 1\n"),
    (1, b"id,eid,a\nr1,\xff,1\n", "error E06 r.csv 2\n"),
    (1, b"id,eid,\xff\nr1,x,1\n", "error E06 r.csv 1\n"),
];

#[test]
fn bytes_are_refused(rt: HostRuntime) -> Result<(), Fail> {
    for (place, bytes, text) in REFUSED {
        expect(&rt, with(place, bytes), 5, text)?;
    }
    Ok(())
}

#[test]
fn one_mark_is_dropped(rt: HostRuntime) -> Result<(), Fail> {
    let documents = Documents {
        s: b"\xef\xbb\xbfrelation R from \"r.csv\" row id entity eid (a: int);",
        r: b"\xef\xbb\xbfeid,\"note\",a,id\r\nx,\"p, q\",1,r1\r\n",
        q: b"\xef\xbb\xbfconsistent;",
        p: b"\xef\xbb\xbfcurrency report 1; verdict consistent; completion; ranking R.a of x: r1; end;",
        tables: &[],
    };
    expect(&rt, documents, 0, ACCEPTED)
}
