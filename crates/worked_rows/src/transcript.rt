//! Transcripts: documents, runs of the program over them, and how each run is to end.
//!
//! A part begins with a line that says what it is. A blank line at its end is no part of it.
//! - `== TITLE`: the desk is cleared.
//! - `:: REMARK`: nothing.
//! - `-- NAME`: the lines that follow are the document of this name, until another one takes its place. A backslash at its end
//! stands for no line end.
//! - `-- NAME N` or `-- NAME N-M`: for the next run alone, the lines that follow stand for these lines of the
//! document; where none follow, an empty line stands for each.
//! - `-- NAME: LINE`, `-- NAME N: LINE`: the same of one line.
//! - `>> WORDS`: the program is run with these words, and no guide. Its status, a blank and its text follow; where the last
//! line is `...`, the text may go on. A document `p` that is not on the desk is what the run before wrote.
//! - `>> WORDS => STATUS LINE`: the same of a text of one line; a backslash at its end stands for no line end.
//! - `>> !N WORDS`: the Nth reading of a document fails. `>> ^N WORDS`: the output takes N bytes and then fails. Both
//! may come, in this order.
//!
//! A line of a document may stand for many (`spelling`).

use crate::runs::{run_with_no_guide, words_of_line};
use crate::spelling::{number, put_line};
use currency_base::NoMemory;
use currency_edge::{MemoryShelf, MemorySink};
use std::alloc::Global;

// A line that begins a part, and where that line and what follows it begin.
#[derive(Clone, Copy)]
struct Head<'a> {
    line: &'a str,
    start: usize,
    body: usize,
}

// A document: its lines, with a line end behind the last one where it is ended.
#[derive(Clone, Copy)]
struct Page<'a> {
    name: &'a str,
    lines: &'a [u8],
    is_ended: bool,
}

// Lines of a page, from a number to a number, for which others stand.
#[derive(Clone, Copy)]
struct Change<'a> {
    name: &'a str,
    first: usize,
    last: usize,
    lines: &'a [u8],
}

// What stands on the desk: pages, changes for the next run, and what the run before wrote: its status, a blank and its text.
#[derive(Drop)]
struct Desk<'a> {
    pages: Vec<Page<'a>>,
    changes: Vec<Change<'a>>,
    written: Vec<u8>,
}

/// Goes through a transcript: the first run that ends otherwise than it says, and how it ends, if there is one.
pub fn played(alloc: Global, transcript: &str) -> Result<Option<String>, NoMemory> {
    let heads = heads(alloc, transcript)?;
    let mut desk = Desk::new(alloc);
    for (place, head) in heads.iter().enumerate() {
        let end = match heads.get(place.saturating_add(1)) {
            Some(next) => next.start,
            None => transcript.len(),
        };
        let body = without_blank(stretch(transcript.as_bytes(), head.body, end));
        if let Some(told) = step(alloc, &mut desk, head.line, body)? {
            return Ok(Some(told));
        }
    }
    Ok(None)
}

// The lines that begin parts.
fn heads(alloc: Global, transcript: &str) -> Result<Vec<Head<'_>>, NoMemory> {
    let mut heads = Vec::new(alloc);
    let mut start: usize = 0;
    for line in transcript.split('\n') {
        let body = start.saturating_add(line.len()).saturating_add(1);
        if is_head(line) {
            heads.push(Head { line, start, body })?;
        }
        start = body;
    }
    Ok(heads)
}

fn is_head(line: &str) -> bool {
    ["== ", ":: ", "-- ", ">> "]
        .iter()
        .any(|mark| line.starts_with(*mark))
}

// The bytes from a place to a place.
fn stretch(bytes: &[u8], from: usize, to: usize) -> &[u8] {
    if from <= to && to <= bytes.len() {
        &bytes[from..to]
    } else {
        &[]
    }
}

// A body without the blank line at its end, if there is one.
fn without_blank(body: &[u8]) -> &[u8] {
    match body {
        [b'\n'] => &[],
        [text @ .., b'\n', b'\n'] => &body[..text.len() + 1],
        _ => body,
    }
}

// Does what a part says. Where it is a run that ends otherwise, that is told.
fn step<'a>(
    alloc: Global,
    desk: &mut Desk<'a>,
    line: &'a str,
    body: &'a [u8],
) -> Result<Option<String>, NoMemory> {
    if let Some(laid) = line.strip_prefix("-- ") {
        let (place, lines) = match laid.split_once(": ") {
            Some((place, line)) => (place, line.as_bytes()),
            None => (laid, body.strip_suffix(b"\n").unwrap_or(body)),
        };
        desk.lay(place, lines)?;
    } else if let Some(words) = line.strip_prefix(">> ") {
        return run(alloc, desk, words, body);
    } else if line.starts_with("== ") {
        desk.clear();
    }
    Ok(None)
}

// Runs the program. Where it ends otherwise than it is to, that is told.
fn run(
    alloc: Global,
    desk: &mut Desk<'_>,
    line: &str,
    body: &[u8],
) -> Result<Option<String>, NoMemory> {
    let (words, end) = match line.split_once(" => ") {
        Some((words, end)) => (words, Some(end)),
        None => (line, None),
    };
    desk.run(alloc, words)?;
    let written = desk.written.as_slice();
    let is_so = match end {
        Some(end) => is_line(written, end.as_bytes()),
        None => is_as(written, body),
    };
    if is_so {
        return Ok(None);
    }
    let written = String::from_utf8_lossy(alloc, written)?;
    Ok(Some(format!(in alloc; "{line}: {written}")?))
}

// Is what is written this line?
fn is_line(written: &[u8], line: &[u8]) -> bool {
    match line.strip_suffix(b"\\") {
        Some(line) => written == line,
        None => written.strip_suffix(b"\n") == Some(line),
    }
}

// Is what is written as a part says, or does it begin so?
fn is_as(written: &[u8], body: &[u8]) -> bool {
    match body.strip_suffix(b"...\n") {
        Some(front) => written.starts_with(front),
        None => written == body,
    }
}

impl<'a> Desk<'a> {
    fn new(alloc: Global) -> Desk<'a> {
        Desk {
            pages: Vec::new(alloc),
            changes: Vec::new(alloc),
            written: Vec::new(alloc),
        }
    }

    fn clear(&mut self) {
        self.pages.clear();
        self.changes.clear();
        self.written.clear();
    }

    // Lays down a page, or a change of one for the next run.
    fn lay(&mut self, place: &'a str, lines: &'a [u8]) -> Result<(), NoMemory> {
        let Some((name, numbers)) = place.split_once(' ') else {
            return self.put(page_of(place, lines));
        };
        let (first, last) = numbers.split_once('-').unwrap_or((numbers, numbers));
        self.changes.push(Change {
            name,
            first: number(first.as_bytes()),
            last: number(last.as_bytes()),
            lines,
        })?;
        Ok(())
    }

    // Puts a page, in the place of the one of its name if there is one.
    fn put(&mut self, page: Page<'a>) -> Result<(), NoMemory> {
        self.pages.retain(|it| it.name != page.name);
        self.pages.push(page)?;
        Ok(())
    }

    // Runs the program. Changes have had their run.
    fn run(&mut self, alloc: Global, words: &str) -> Result<(), NoMemory> {
        let mut shelf = self.shelf(alloc)?;
        let mut sink = MemorySink::new(alloc);
        let words = fail_reading(words, &mut shelf);
        let words = words_of_line(alloc, fail_writing(words, &mut sink))?;
        let status = run_with_no_guide(alloc, words.as_slice(), &mut shelf, &mut sink);
        self.changes.clear();
        self.written.clear();
        let status = format!(in alloc; "{status} ")?;
        self.written.extend_from_slice(status.as_bytes())?;
        self.written.extend_from_slice(sink.written())?;
        Ok(())
    }

    // A shelf with the pages as they stand, and what the run before wrote.
    fn shelf(&self, alloc: Global) -> Result<MemoryShelf, NoMemory> {
        let mut shelf = MemoryShelf::new(alloc);
        for page in &self.pages {
            let text = changed(alloc, *page, self.changes.as_slice())?;
            shelf.put(page.name, text.as_slice())?;
        }
        shelf.put("p", text_of(self.written.as_slice()))?;
        Ok(shelf)
    }
}

// The number behind this mark with which words begin, and the words behind it.
fn marked<'a>(words: &'a str, mark: &str) -> Option<(u64, &'a str)> {
    let (first, rest) = words.split_once(' ')?;
    let digits = first.strip_prefix(mark)?;
    Some((number(digits.as_bytes()) as u64, rest))
}

// Lets a reading fail where words begin with that. The words behind it.
fn fail_reading<'a>(words: &'a str, shelf: &mut MemoryShelf) -> &'a str {
    match marked(words, "!") {
        Some((read, rest)) => {
            shelf.fail_at(read);
            rest
        }
        None => words,
    }
}

// Lets the output fail where words begin with that. The words behind it.
fn fail_writing<'a>(words: &'a str, sink: &mut MemorySink) -> &'a str {
    match marked(words, "^") {
        Some((bytes, rest)) => {
            sink.fail_after(bytes);
            rest
        }
        None => words,
    }
}

// A page with these lines; a backslash at the end, or no line at all, is without a line end.
fn page_of<'a>(name: &'a str, lines: &'a [u8]) -> Page<'a> {
    match lines.strip_suffix(b"\\") {
        Some(lines) => Page {
            name,
            lines,
            is_ended: false,
        },
        None => Page {
            name,
            lines,
            is_ended: !lines.is_empty(),
        },
    }
}

// What is written after a status and a blank.
fn text_of(written: &[u8]) -> &[u8] {
    match written {
        [_, b' ', text @ ..] => text,
        _ => &[],
    }
}

// The page with those of the changes that are of it.
fn changed(alloc: Global, page: Page<'_>, changes: &[Change<'_>]) -> Result<Vec<u8>, NoMemory> {
    let mut text = Vec::new(alloc);
    for (place, line) in page.lines.split(|byte| *byte == b'\n').enumerate() {
        let number = place.saturating_add(1);
        let change = changes.iter().find(|it| it.name == page.name
            && it.first <= number
            && number <= it.last);
        let lines = match change {
            Some(change) => change.lines,
            None => line,
        };
        // (other lines stand for the first of these; then they had their place)
        let is_past = change.is_some_and(|it| it.first < number && !it.lines.is_empty());
        if !is_past {
            put_line(alloc, &mut text, lines)?;
        }
    }
    if !page.is_ended {
        let _ = text.pop();
    }
    Ok(text)
}
