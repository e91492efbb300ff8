ghost use Rattle.std.specs.Prelude.{◌≡◌, ◌≢◌, ◌≤◌, ◌<◌, ◌+◌, ℕ, [], length, take, vec_len, None, IfSome, IfOk, OnOk, IsErrOf};
ghost use Rattle.std.specs.Io.KnownBytes.{Consumes, IsAtEnd};

use crate::{Shelf, ShelfFault};
use std::alloc::Global;
use std::io::{ErrorKind, Read};
use std::marker::Model;
use std::rt::Files;
use std::{fs, io};

/// How many bytes are read from a file at a time, at most.
const LONGEST_PIECE: usize = 65536;

/// The files of the system, by their paths. It tells nothing of their content. Contracts see it as
/// its count of faults.
#[derive(Drop)]
pub struct FileShelf<'a, R: Files> {
    files: &'a R,
    faults: u64,
}

impl<'a, R: Files> Model for FileShelf<'a, R> {
    ghost use Rattle.std.specs.Prelude.{ℕ};

    ghost Value = { ℕ };

    ghost view = { λ s. s.faults };
}

impl<'a, R: Files> FileShelf<'a, R> {
    /// The files that `files` opens, with no fault so far.
    pub fn new(files: &'a R) -> FileShelf<'a, R>
        ensures { result ≡ 0 }
    {
        FileShelf { files, faults: 0 }
    }
}

impl<'a, R: Files> Shelf for FileShelf<'a, R> {
    ghost texts = { λ _. None };

    ghost faults = { λ s. s };

    /// Reads the file whose path is the name. A file that can't be opened or read is a fault.
    fn read(
        &mut self,
        alloc: Global,
        name: &str,
        at_most: usize,
        into: &mut Vec<u8>,
    ) -> Result<(), ShelfFault> {
        let outcome = match fs::open(self.files, name) {
            Ok(mut file) => read_file(&mut file, alloc, at_most, into),
            Err(error) => Err(fault_of(&error)),
        };
        if let Err(ShelfFault::Failed) = outcome {
            self.faults = self.faults.saturating_add(1);
        }
        outcome
    }
}

// Reads an open file into an empty buffer, or its first `at_most + 1` bytes where it is longer.
fn read_file<R: Read>(
    file: &mut R,
    alloc: Global,
    at_most: usize,
    into: &mut Vec<u8>,
) -> Result<(), ShelfFault>
    requires { into.old.items ≡ [] }
    ensures within { OnOk result (vec_len into.new ≤ at_most) }
    ensures whole { OnOk result (IfSome (R.remaining file.old) (λ bytes. into.new.items ≡ bytes)) }
    ensures filled { IsErrOf result ShelfFault.TooLong → vec_len into.new ≡ at_most + 1 }
    ensures front { IsErrOf result ShelfFault.TooLong → IfSome (R.remaining file.old)
        (λ bytes. into.new.items ≡ take (at_most + 1) bytes) }
{
    let piece_len = at_most.saturating_add(1).min(LONGEST_PIECE);
    let Ok(mut piece) = Vec::from_elem(alloc, 0u8, piece_len) else {
        return Err(ShelfFault::NoMemory);
    };
    read_within(file, &mut piece, at_most, into)
}

// Reads all there is into an empty buffer, or the first `at_most + 1` bytes where there are more,
// piece by piece.
#[tactic(auto, using(crate::proofs::Filled::filled_whole, crate::proofs::Filled::filled_front))]
fn read_within<R: Read>(
    reader: &mut R,
    piece: &mut [u8],
    at_most: usize,
    into: &mut Vec<u8>,
) -> Result<(), ShelfFault>
    requires some { 0 < length piece.old }
    requires empty { into.old.items ≡ [] }
    ensures within { OnOk result (vec_len into.new ≤ at_most) }
    ensures whole { OnOk result (IfSome (R.remaining reader.old) (λ bytes. into.new.items ≡ bytes)) }
    ensures filled { IsErrOf result ShelfFault.TooLong → vec_len into.new ≡ at_most + 1 }
    ensures front { IsErrOf result ShelfFault.TooLong → IfSome (R.remaining reader.old)
        (λ bytes. into.new.items ≡ take (at_most + 1) bytes) }
{
    for _ in 0..u64::MAX {
        let room = (at_most - into.len()).saturating_add(1).min(piece.len());
        let count = match read_some(reader, &mut piece[..room]) {
            Ok(count) => count,
            Err(error) => return Err(fault_of(&error)),
        };
        if count == 0 {
            return Ok(());
        }
        if into.extend_from_slice(&piece[..count]).is_err() {
            return Err(ShelfFault::NoMemory);
        }
        if into.len() > at_most {
            return Err(ShelfFault::TooLong);
        }
    }
    Err(ShelfFault::Failed)
}

// One read, made again where a signal interrupts it.
fn read_some<R: Read>(reader: &mut R, piece: &mut [u8]) -> io::Result<usize>
    requires { 0 < length piece.old }
    ensures bound { IfOk result (λ n. n ≤ length piece.new) }
    ensures bytes { IfOk result
        (λ n. Consumes (R.remaining reader.old) (R.remaining reader.new) (take n piece.new)) }
    ensures end { IfOk result (λ n. n ≡ 0 → IsAtEnd (R.remaining reader.new)) }
{
    for _ in 0..u64::MAX {
        match reader.read(piece) {
            Ok(count) => return Ok(count),
            Err(error) => {
                if error.kind() != ErrorKind::Interrupted {
                    return Err(error);
                }
            }
        }
    }
    Err(io::Error::from(ErrorKind::Interrupted))
}

// What an error of the system is to a reader of the shelf.
fn fault_of(error: &io::Error) -> ShelfFault
    ensures { result ≢ ShelfFault.TooLong }
{
    match error.kind() {
        ErrorKind::OutOfMemory => ShelfFault::NoMemory,
        _ => ShelfFault::Failed,
    }
}
