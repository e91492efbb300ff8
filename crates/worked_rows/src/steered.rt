use crate::guide_kinds::{put, put_four};
use crate::runs::{Documents, guided, verified};
use crate::steered_rows::{ROWS, Row};
use crate::wrong_guides::{Always, Random, Seen, Watched};
use currency_base::{Lit, NoMemory};
use currency_edge::MemorySink;
use solver_guides::{Guide, Guides};
use std::alloc::Global;
use std::process::Abort;
use std::rc::Rc;
use std::test::Fail;

// Which guides stand in a ring.
#[derive(Clone, Copy, Debug, PartialEq, Eq)]
enum Ring {
    Nothing,
    Beyond,
    Assigned,
    Random,
    Refused,
    Watched,
    All,
}

const EACH: [Ring; 7] = [
    Ring::Nothing,
    Ring::Beyond,
    Ring::Assigned,
    Ring::Random,
    Ring::Refused,
    Ring::Watched,
    Ring::All,
];

impl Ring {
    // Puts its guides into a list: those that are wrong, and, in the ring of all, one of each kind after them.
    fn fill(
        self,
        alloc: Global,
        boxes: &mut Vec<Box<dyn Guide>>,
        seen: &Rc<Seen>,
    ) -> Result<(), NoMemory> {
        let all = self == Ring::All;
        if all || self == Ring::Nothing {
            put(boxes, Box::new(alloc, Always { lit: None })?)?;
        }
        if all || self == Ring::Beyond {
            let lit = Some(Lit::new(1_000_000, false));
            put(boxes, Box::new(alloc, Always { lit })?)?;
        }
        if all || self == Ring::Assigned {
            let lit = Some(Lit::new(0, false));
            put(boxes, Box::new(alloc, Always { lit })?)?;
        }
        if all || self == Ring::Random {
            let random = Random {
                state: 1,
                next: None,
            };
            put(boxes, Box::new(alloc, random)?)?;
        }
        self.fill_watched(alloc, boxes, seen)
    }

    // Puts the guides that are seen, and at last one of each kind.
    fn fill_watched(
        self,
        alloc: Global,
        boxes: &mut Vec<Box<dyn Guide>>,
        seen: &Rc<Seen>,
    ) -> Result<(), NoMemory> {
        let all = self == Ring::All;
        for fits in [false, true] {
            if all || self == if fits { Ring::Watched } else { Ring::Refused } {
                let watched = Watched {
                    fits,
                    seen: seen.clone()?,
                };
                put(boxes, Box::new(alloc, watched)?)?;
            }
        }
        if all {
            put_four(alloc, boxes)?;
        }
        Ok(())
    }
}

// The status and the sink of a row with a ring of guides.
fn steered(alloc: Global, row: Row<'_>, ring: Ring) -> Result<(u8, MemorySink), NoMemory> {
    let seen = Rc::new(alloc, Seen::nothing())?;
    let mut boxes: Vec<Box<dyn Guide>> = Vec::new(alloc);
    ring.fill(alloc, &mut boxes, &seen)?;
    let mut guides = Guides::new(boxes);
    ended(alloc, row, &mut guides)
}

// The same, where the ring is at hand.
fn ended(alloc: Global, row: Row<'_>, guides: &mut Guides) -> Result<(u8, MemorySink), NoMemory> {
    let documents = Documents {
        q: row.question.as_bytes(),
        ..row.case.documents(b"")
    };
    let words = ["currency", "ask", "s", "q", "--budget", row.budget];
    guided(alloc, documents, &words, guides)
}

// Whoever steers, a row has its verdict, and the report is accepted.
fn expect_verdict(rt: &(impl Abort + AllocGlobal), row: Row<'_>, ring: Ring) -> Result<(), Fail> {
    let (status, sink) = steered(rt.alloc(), row, ring)?;
    let head = format!(in rt.alloc(); "currency report 2;\nverdict {}", row.verdict)?;
    assert!(rt;
        sink.written().starts_with(head.as_bytes()),
        "{ring:?}: {head}"
    );
    assert_eq!(rt; status, row.status, "{ring:?}: {head}");
    let documents = Documents {
        q: row.question.as_bytes(),
        ..row.case.documents(sink.written())
    };
    let (status, said) = verified(rt.alloc(), documents)?;
    let accepted = format!(in rt.alloc(); "accepted {}\n", row.kind)?;
    assert_eq!(rt; said.written(), accepted.as_bytes(), "{ring:?}: {head}");
    assert_eq!(rt; status, 0);
    Ok(())
}

#[test]
fn guides_that_are_wrong_change_no_verdict(rt: HostRuntime) -> Result<(), Fail> {
    for ring in EACH {
        for row in ROWS {
            expect_verdict(&rt, row, ring)?;
        }
    }
    Ok(())
}
