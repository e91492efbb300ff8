//! Transcripts of which a run ends otherwise, and such as differ from them in little.

use crate::runs::played;
use std::test::Fail;

// Each is followed by one that tells the same run rightly.
const OTHERWISE: [(&str, &str); 9] = [
    (
        ">> verify s => 0 words refused\n",
        ">> verify s => 2 words refused\n",
    ),
    (
        ">> verify s => 2 words refuse\n",
        ">> verify s\n2 words refused\n",
    ),
    (
        ">> verify s\n2 words refused\nend;\n",
        ">> verify s\n2 words refused\n...\n",
    ),
    (
        "-- s: relation R\n>> forced s => 5 error E02 s 1\n",
        "-- s: relation R\n>> forced s => 5 error E02 s 2\n",
    ),
    (
        "-- s: relation R\\\n>> forced s => 5 error E02 s 2\n",
        "-- s\n\n-- s 1: relation\n>> forced s => 5 error E02 s 1\n",
    ),
    (
        "-- s\n\n\n\n-- s 1-2\n>> forced s\n0 forced 0;\n",
        "-- s\n\n\n\n-- s 1-2\n>> forced s\n0 forced 0;\nend;\n",
    ),
    (
        "-- s\n*1-2 {1-2 |}\nrelation R\n>> forced s => 5 error E02 s 7\n",
        "-- s\n*1-2 {1-2 |}\nrelation R\n>> forced s => 5 error E02 s 8\n",
    ),
    (
        ">> !1 forced s => 7 read fault\n",
        ">> !1 forced s => 7 read fault s\n",
    ),
    (
        ">> ^1 verify => 2 words refused\n",
        ">> ^1 verify => 2 w\\\n",
    ),
];

#[test]
fn another_end_is_told(rt: HostRuntime) -> Result<(), Fail> {
    for (otherwise, rightly) in OTHERWISE {
        assert!(rt; played(rt.alloc(), otherwise)?.is_some(), "{otherwise}");
        assert!(rt; played(rt.alloc(), rightly)?.is_none(), "{rightly}");
    }
    Ok(())
}
