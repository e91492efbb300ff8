use crate::guide_kinds::put;
use crate::runs::{FREE, guided};
use crate::wrong_guides::{Seen, Watched};
use currency_base::NoMemory;
use solver_guides::{FirstFree, Guide, Guides};
use std::alloc::Global;
use std::process::Abort;
use std::rc::Rc;
use std::test::Fail;

// How often a guide was called and dropped.
#[derive(Clone, Copy, Debug, PartialEq, Eq)]
struct Counts {
    called: bool,
    drops: u64,
}

// What was seen of a guide up to now.
fn counts_of(seen: &Seen) -> Counts {
    Counts {
        called: seen.calls.get() > 0,
        drops: seen.drops.get(),
    }
}

// What is seen of a guide at the end of a run, beside another one that it leads or follows, and when the ring is gone.
fn seen_of(
    rt: &(impl Abort + AllocGlobal),
    leads: bool,
    fits: bool,
    words: &[&str],
) -> Result<(Counts, Counts), Fail> {
    let seen = Rc::new(rt.alloc(), Seen::nothing())?;
    let at_end = {
        let mut guides = two(rt.alloc(), leads, fits, &seen)?;
        let status = status_with(rt.alloc(), words, &mut guides)?;
        assert_eq!(rt; status, 0);
        counts_of(&seen)
    };
    Ok((at_end, counts_of(&seen)))
}

// Puts in a guide that is seen.
fn put_watched(
    alloc: Global,
    boxes: &mut Vec<Box<dyn Guide>>,
    fits: bool,
    seen: &Rc<Seen>,
) -> Result<(), NoMemory> {
    let seen = seen.clone()?;
    put(boxes, Box::new(alloc, Watched { fits, seen })?)
}

// Puts in a guide that is seen and another one, in this order or the other.
fn put_two(
    alloc: Global,
    boxes: &mut Vec<Box<dyn Guide>>,
    leads: bool,
    fits: bool,
    seen: &Rc<Seen>,
) -> Result<(), NoMemory> {
    if leads {
        put_watched(alloc, boxes, fits, seen)?;
    }
    put(boxes, Box::new(alloc, FirstFree::new(alloc))?)?;
    if !leads {
        put_watched(alloc, boxes, fits, seen)?;
    }
    Ok(())
}

// A ring of a guide that is seen and another one.
fn two(alloc: Global, leads: bool, fits: bool, seen: &Rc<Seen>) -> Result<Guides, NoMemory> {
    let mut boxes: Vec<Box<dyn Guide>> = Vec::new(alloc);
    put_two(alloc, &mut boxes, leads, fits, seen)?;
    Ok(Guides::new(boxes))
}

// The status of these words over three free rows, with these guides.
fn status_with(alloc: Global, words: &[&str], guides: &mut Guides) -> Result<u8, NoMemory> {
    let (status, _) = guided(alloc, FREE.documents(b""), words, guides)?;
    Ok(status)
}

#[test]
fn each_guide_is_dropped_once(rt: HostRuntime) -> Result<(), Fail> {
    let ask = ["currency", "ask", "s", "q"];
    let stays = seen_of(&rt, true, true, &ask)?;
    let within = Counts {
        called: true,
        drops: 0,
    };
    let gone = Counts {
        called: true,
        drops: 1,
    };
    assert_eq!(&rt; stays, (within, gone));
    // one that is left out is dropped before the run ends, and so is one that is refused memory
    let never = Counts {
        called: false,
        drops: 1,
    };
    for (leads, guide) in [(false, "1"), (true, "2")] {
        let words = ["currency", "ask", "s", "q", "--guide", guide];
        assert_eq!(&rt;
            seen_of(&rt, leads, true, &words)?,
            (never, never),
            "{}",
            guide
        );
    }
    assert_eq!(&rt; seen_of(&rt, true, false, &ask)?, (never, never));
    Ok(())
}
