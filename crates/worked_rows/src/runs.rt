//! Documents in memory, specifications with their verdicts, and runs of the program over them: what rows over documents share.

pub use crate::cases::{Case, EACH, EIGHT, FREE, HISTORY, TRIANGLE};
pub use crate::transcript::played;
use currency_base::NoMemory;
use currency_cli::run;
use currency_edge::{MemoryShelf, MemorySink, Shelf, Sink};
use solver_guides::Guides;
use std::alloc::Global;

/// A specification of one relation.
pub const S: &str = "relation R from \"r.csv\" row id entity eid (a: int);\n";

/// Its table: three rows of one entity.
pub const R: &str = "id,eid,a\nr1,x,1\nr2,x,2\nr3,x,3\n";

/// The question whether there is a consistent completion.
pub const Q: &str = "consistent;\n";

/// A report that shows that there is one.
pub const P: &str =
    "currency report 1;\nverdict consistent;\ncompletion;\nranking R.a of x: r2 < r1 < r3;\nend;\n";

/// What is written where the report shows the verdict `consistent`.
pub const ACCEPTED: &str = "accepted consistent\n";

/// The four documents of a case, and further tables by their names.
#[derive(Clone, Copy)]
pub struct Documents<'a> {
    pub s: &'a [u8],
    pub r: &'a [u8],
    pub q: &'a [u8],
    pub p: &'a [u8],
    pub tables: &'a [(&'a str, &'a [u8])],
}

/// The documents above.
pub fn first() -> Documents<'static> {
    Documents {
        s: S.as_bytes(),
        r: R.as_bytes(),
        q: Q.as_bytes(),
        p: P.as_bytes(),
        tables: &[],
    }
}

/// A shelf with these documents.
pub fn shelf_of(alloc: Global, documents: Documents<'_>) -> Result<MemoryShelf, NoMemory> {
    let mut shelf = MemoryShelf::new(alloc);
    shelf.put("s", documents.s)?;
    shelf.put("r.csv", documents.r)?;
    shelf.put("q", documents.q)?;
    shelf.put("p", documents.p)?;
    for (name, table) in documents.tables {
        shelf.put(name, table)?;
    }
    Ok(shelf)
}

/// Words as the program gets them.
pub fn words_of(alloc: Global, words: &[&str]) -> Result<Vec<String>, NoMemory> {
    let mut all = Vec::new(alloc);
    for word in words {
        all.push(String::from_str(alloc, word)?)?;
    }
    Ok(all)
}

/// The words of a line as the program gets them, behind its name.
pub fn words_of_line(alloc: Global, line: &str) -> Result<Vec<String>, NoMemory> {
    let mut all = words_of(alloc, &["currency"])?;
    for word in line.split(' ') {
        all.push(String::from_str(alloc, word)?)?;
    }
    Ok(all)
}

/// The status and the sink of these words over these documents, with no guide.
pub fn asked(
    alloc: Global,
    documents: Documents<'_>,
    words: &[&str],
) -> Result<(u8, MemorySink), NoMemory> {
    let mut guides = Guides::new(Vec::new(alloc));
    guided(alloc, documents, words, &mut guides)
}

/// The status and the sink of these words over these documents, with these guides.
pub fn guided(
    alloc: Global,
    documents: Documents<'_>,
    words: &[&str],
    guides: &mut Guides,
) -> Result<(u8, MemorySink), NoMemory> {
    let mut shelf = shelf_of(alloc, documents)?;
    let mut sink = MemorySink::new(alloc);
    let words = words_of(alloc, words)?;
    let status = run(alloc, words.as_slice(), &mut shelf, &mut sink, guides);
    Ok((status, sink))
}

/// The status and the sink of `currency verify s q p` over these documents.
pub fn verified(alloc: Global, documents: Documents<'_>) -> Result<(u8, MemorySink), NoMemory> {
    asked(alloc, documents, &["currency", "verify", "s", "q", "p"])
}

/// The status of a run with no guide: a search assumes the first free variable to be false.
pub fn run_with_no_guide<S: Shelf, K: Sink>(
    alloc: Global,
    words: &[String],
    shelf: &mut S,
    sink: &mut K,
) -> u8 {
    let mut guides = Guides::new(Vec::new(alloc));
    run(alloc, words, shelf, sink, &mut guides)
}

/// The documents with one of them changed: `s`, `r.csv`, `q` or `p`, by its place.
pub fn with(place: usize, text: &[u8]) -> Documents<'_> {
    let documents = first();
    match place {
        0 => Documents {
            s: text,
            ..documents
        },
        1 => Documents {
            r: text,
            ..documents
        },
        2 => Documents {
            q: text,
            ..documents
        },
        _ => Documents {
            p: text,
            ..documents
        },
    }
}
