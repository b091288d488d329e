// 01's tables worked by hand, and sentences of 02, run on the code. Each line starts with the number of its case or request and says what the code answers;
// the file `stdout` of this crate has what 01 and 02 say.

#![tactic(auto)]

mod ask;
mod say;

use ask::{
    delayed, free, judged, pattern, reached, read, rewritten, scheduled, shown, without_head,
};
use std::{array, io};

// The table of cases 4, 5, 6, 13 and 16, and that of case 7.
const CASE_5: [u32; 8] = [0, 3, 20, 2, 4, 1, 15, 5];

const CASE_7: [u32; 8] = [0, 3, 20, 2, 4, 1, 14, 5];

// Case 1: no jobs, any k.
fn no_jobs(rt: &impl Print) -> io::Result<()> {
    for k in 0..=8 {
        judged(rt, 1, &[], k)?;
    }
    Ok(())
}

// The table of case 17: (0, 1, 72, 1) 64 times.
fn full_table() -> [u32; 256] {
    array::from_fn(|i| [0, 1, 72, 1][i % 4])
}

// Cases 2 to 9.
fn patterns(rt: &impl Print) -> io::Result<()> {
    judged(rt, 2, &[0, 2, 4, 1], 2)?;
    judged(rt, 3, &[0, 2, 3, 1], 2)?;
    pattern(rt, 3, &[0, 2, 3, 1], 2)?;
    scheduled(rt, 4, &CASE_5, &[1, 1])?;
    judged(rt, 5, &CASE_5, 2)?;
    reached(rt, 5, &CASE_5, 2, 0)?;
    reached(rt, 5, &CASE_5, 2, 1)?;
    judged(rt, 6, &CASE_5, 1)?;
    judged(rt, 7, &CASE_7, 2)?;
    pattern(rt, 7, &CASE_7, 2)?;
    judged(rt, 8, &[5, 1, 3, 0], 0)?;
    pattern(rt, 8, &[5, 1, 3, 0], 0)?;
    judged(rt, 9, &[0, 2, 4, 1, 0, 2, 4, 1], 1)?;
    shown(rt, 9, &[0, 2, 4, 1, 0, 2, 4, 1], 1)
}

// Case 14: the file, and the file without its last byte.
fn file(rt: &impl Print) -> io::Result<()> {
    let file = *b"\x03\0\x01\0\x02\x12\0\x02\0\0\0\0\0\x02\0\0\0\x04\0\0\0\x01\0\0\0";
    read(rt, 14, &file)?;
    rewritten(rt, 14, &file)?;
    read(rt, 14, &file[..24])
}

// Cases 10 to 17.
fn limits(rt: &impl Print) -> io::Result<()> {
    scheduled(rt, 10, &[1, 2, 9, 0, 0, 3, 9, 0], &[0, 0])?;
    judged(rt, 11, &[0, 1, 1, 0], 8)?;
    judged(rt, 12, &[1_000_000, 100_000, 1_900_000, 100_000], 8)?;
    judged(rt, 12, &[1_000_000, 100_000, 1_899_999, 100_000], 8)?;
    free(rt, 13, &CASE_5, 3, 5)?;
    file(rt)?;
    judged(rt, 15, &[0, 0, 4, 1], 2)?;
    judged(rt, 15, &[0, 0, 4, 1], 9)?;
    delayed(rt, 16, &CASE_5, 2)?;
    judged(rt, 17, &full_table(), 8)
}

// 02's T-01, a file without a head: the job of case 14, and no bytes.
fn headless(rt: &impl Print) -> io::Result<()> {
    without_head(rt, b"\x12\0\x02\0\0\0\0\0\x02\0\0\0\x04\0\0\0\x01\0\0\0")?;
    without_head(rt, b"")
}

fn main(rt: HostRuntime) -> io::Result<()> {
    no_jobs(&rt)?;
    patterns(&rt)?;
    limits(&rt)?;
    headless(&rt)
}
