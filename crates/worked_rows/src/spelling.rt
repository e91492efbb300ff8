//! Lines that stand for many.
//!
//! `*A-B LINE` stands for a line for each number from A to B. In it `%` is the number, `@` the one after it, and `|` ends a line;
//! and `{A-B TEXT}` stands for the text once for each number from A to B, which is `#` there.

use currency_base::NoMemory;
use std::alloc::Global;

// Numbers, from one to another.
#[derive(Clone, Copy)]
struct Numbers {
    first: usize,
    last: usize,
}

/// Puts what a line stands for into a text, each line with its end.
pub(crate) fn put_line(alloc: Global, text: &mut Vec<u8>, line: &[u8]) -> Result<(), NoMemory> {
    let Some(many) = line.strip_prefix(b"*") else {
        text.extend_from_slice(line)?;
        text.push(b'\n')?;
        return Ok(());
    };
    let (numbers, line) = cut(many, b' ');
    let numbers = numbers_of(numbers);
    for number in numbers.first..=numbers.last {
        put_groups(alloc, text, line, number)?;
        text.push(b'\n')?;
    }
    Ok(())
}

// Puts in the line of one number.
fn put_groups(
    alloc: Global,
    text: &mut Vec<u8>,
    line: &[u8],
    number: usize,
) -> Result<(), NoMemory> {
    for (place, piece) in line.split(|byte| *byte == b'{').enumerate() {
        if place == 0 {
            put_text(alloc, text, piece, number, 0)?;
        } else {
            put_group(alloc, text, piece, number)?;
        }
    }
    Ok(())
}

// Puts in a text once for each of its numbers, and what follows.
fn put_group(
    alloc: Global,
    text: &mut Vec<u8>,
    piece: &[u8],
    number: usize,
) -> Result<(), NoMemory> {
    let (group, rest) = cut(piece, b'}');
    let (numbers, inner) = cut(group, b' ');
    let numbers = numbers_of(numbers);
    for inner_number in numbers.first..=numbers.last {
        put_text(alloc, text, inner, number, inner_number)?;
    }
    put_text(alloc, text, rest, number, 0)
}

// Puts in a text, with its numbers.
fn put_text(
    alloc: Global,
    text: &mut Vec<u8>,
    piece: &[u8],
    number: usize,
    inner: usize,
) -> Result<(), NoMemory> {
    for byte in piece {
        match byte {
            b'%' => put_number(alloc, text, number)?,
            b'@' => put_number(alloc, text, number.saturating_add(1))?,
            b'#' => put_number(alloc, text, inner)?,
            b'|' => text.push(b'\n')?,
            _ => text.push(*byte)?,
        }
    }
    Ok(())
}

fn put_number(alloc: Global, text: &mut Vec<u8>, number: usize) -> Result<(), NoMemory> {
    let digits = format!(in alloc; "{number}")?;
    text.extend_from_slice(digits.as_bytes())?;
    Ok(())
}

// What stands before a mark and what stands behind it.
fn cut(bytes: &[u8], mark: u8) -> (&[u8], &[u8]) {
    match bytes.iter().position(|byte| *byte == mark) {
        Some(at) if at < bytes.len() => (&bytes[..at], &bytes[at + 1..]),
        _ => (bytes, &[]),
    }
}

// `A-B`.
fn numbers_of(numbers: &[u8]) -> Numbers {
    let (first, last) = cut(numbers, b'-');
    Numbers {
        first: number(first),
        last: number(last),
    }
}

/// The number that digits spell.
pub(crate) fn number(digits: &[u8]) -> usize {
    digits.iter().fold(0, |number: usize, digit| {
        number
            .saturating_mul(10)
            .saturating_add(usize::from(digit.wrapping_sub(b'0')))
    })
}
