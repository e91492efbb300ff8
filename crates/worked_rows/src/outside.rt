//! What a system's files and writers do to a run: files of any length, writers that take some bytes and then fail.

use crate::runs::{ACCEPTED, first, run_with_no_guide, shelf_of, words_of};
use currency_base::NoMemory;
use currency_edge::{FileShelf, Shelf, ShelfFault, Sink, SinkFault, StdSink, SteadySink};
use std::alloc::Global;
use std::io::{ErrorKind, Write};
use std::test::Fail;
use std::{env, fs, io, process};

/// A writer that takes some bytes at a time, and after so many writes none, or an error.
#[derive(Drop)]
struct Halting {
    most: usize,
    writes: u32,
    end: io::Result<usize>,
}

impl Write for Halting {
    fn write(&mut self, buf: &[u8]) -> io::Result<usize> {
        if self.writes == 0 {
            return match &self.end {
                Ok(_) => Ok(0),
                Err(error) => Err(*error),
            };
        }
        self.writes -= 1;
        Ok(buf.len().min(self.most))
    }

    fn flush(&mut self) -> io::Result<()> {
        Ok(())
    }
}

// The status of `verify` over a sink.
fn status_over<K: Sink>(alloc: Global, sink: &mut K) -> Result<u8, NoMemory> {
    let words = words_of(alloc, &["currency", "verify", "s", "q", "p"])?;
    let mut shelf = shelf_of(alloc, first())?;
    Ok(run_with_no_guide(alloc, words.as_slice(), &mut shelf, sink))
}

#[test]
fn writers_take_pieces_or_fail(rt: HostRuntime) -> Result<(), Fail> {
    // The text has 20 bytes.
    let rows = [
        (99, Ok(0), 0),
        (10, Ok(0), 0),
        (2, Ok(0), 8),
        (2, Err(io::Error::from(ErrorKind::BrokenPipe)), 8),
        (2, Err(io::Error::from(ErrorKind::OutOfMemory)), 9),
    ];
    for (most, end, status) in rows {
        let mut sink = StdSink::new(Halting {
            most,
            writes: 2,
            end,
        });
        assert_eq!(rt; status_over(rt.alloc(), &mut sink)?, status);
    }
    let mut steady = SteadySink::new(rt.alloc());
    assert_eq!(rt; status_over(rt.alloc(), &mut steady)?, 0);
    assert_eq!(rt; steady.written(), ACCEPTED.as_bytes());
    Ok(())
}

/// What a read of any shelf answers, and the bytes that it gave.
fn read_from<S: Shelf>(
    alloc: Global,
    shelf: &mut S,
    name: &str,
    at_most: usize,
) -> (Result<(), ShelfFault>, Vec<u8>) {
    let mut into = Vec::new(alloc);
    let outcome = shelf.read(alloc, name, at_most, &mut into);
    (outcome, into)
}

/// So many bytes, which repeat after 251.
fn pattern(alloc: Global, len: usize) -> Result<Vec<u8>, Fail> {
    let mut bytes = Vec::new(alloc);
    for place in 0..len {
        bytes.push((place % 251) as u8)?;
    }
    Ok(bytes)
}

#[test]
fn reads_files(rt: HostRuntime) -> Result<(), Fail> {
    let alloc = rt.alloc();
    let name = format!(in alloc; "currency_rows_{}", process::id(rt.process()))?;
    let path = env::temp_dir(&rt)?.join(alloc, name.as_str())?;
    let text = pattern(alloc, 140_000)?;
    fs::write(&rt, path.as_str(), text.as_slice())?;
    let mut shelf = FileShelf::new(&rt);
    let rows = [
        (path.as_str(), 140_000, Ok(()), 140_000),
        (path.as_str(), usize::MAX, Ok(()), 140_000),
        (path.as_str(), 139_999, Err(ShelfFault::TooLong), 140_000),
        (path.as_str(), 65_536, Err(ShelfFault::TooLong), 65_537),
        (path.as_str(), 0, Err(ShelfFault::TooLong), 1),
        ("", 9, Err(ShelfFault::Failed), 0),
        ("/", 9, Err(ShelfFault::Failed), 0),
    ];
    for (name, at_most, want, len) in rows {
        let (outcome, into) = read_from(alloc, &mut shelf, name, at_most);
        assert_eq!(rt; outcome, want);
        assert!(rt; len <= text.len());
        assert_eq!(rt; into.as_slice(), &text[..len]);
    }
    fs::remove_file(&rt, path.as_str())?;
    Ok(())
}

#[test]
fn prints_faults(rt: HostRuntime) -> Result<(), Fail> {
    let alloc = rt.alloc();
    let shelf = [
        (ShelfFault::Failed, "the document could not be read"),
        (ShelfFault::TooLong, "the document is too long"),
        (ShelfFault::NoMemory, "out of memory"),
    ];
    for (fault, want) in shelf {
        assert_eq!(rt; format!(in alloc; "{fault}")?.as_str(), want);
    }
    let sink = [
        (SinkFault::Failed, "the output could not be written"),
        (SinkFault::NoMemory, "out of memory"),
    ];
    for (fault, want) in sink {
        assert_eq!(rt; format!(in alloc; "{fault}")?.as_str(), want);
    }
    Ok(())
}
