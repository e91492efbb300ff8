//! Generated specifications.

use crate::documents::expect_played;
use std::alloc::{AllocError, Global};
use std::test::Fail;

const ROWS: &str = r"
== generated specifications are summed up
>> trial 1
0 trial 1
rows 16
consistent
certain
same
answers 1
>> trial 2
0 trial 2
rows 32
consistent
not certain
not same
answers 1
>> trial 12
0 trial 12
rows 192
consistent
not certain
not same
answers 6

== other sizes are refused
>> trial 0 => 2 words refused
>> trial 1001 => 2 words refused
>> trial 01 => 2 words refused
>> trial -1 => 2 words refused
>> trial x => 2 words refused
";

#[test]
fn trials_are_summed_up(rt: HostRuntime) -> Result<(), Fail> {
    expect_played(&rt, ROWS)
}

// Puts the run of a size from 2 on, whose documents are read. Of an entity with an even number the given pairs rank all rows, so
// its current values are the same in every completion; of one with an odd number two of them at least are left out.
fn put_run(alloc: Global, transcript: &mut String, size: u32) -> Result<(), AllocError> {
    let rows = size.saturating_mul(16);
    let answers = size.saturating_add(1) / 2;
    let read = format!(in alloc; ">> trial {size}\n0 trial {size}\nrows {rows}\nconsistent\n")?;
    let told = format!(in alloc; "not certain\nnot same\nanswers {answers}\n\n")?;
    transcript.push_str(read.as_str())?;
    transcript.push_str(told.as_str())
}

#[test]
fn documents_of_each_size_are_read(rt: HostRuntime) -> Result<(), Fail> {
    let mut transcript = String::from_str(rt.alloc(), "== sizes up to 64\n")?;
    for size in 2..65 {
        put_run(rt.alloc(), &mut transcript, size)?;
    }
    expect_played(&rt, transcript.as_str())
}
