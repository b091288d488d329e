// One function for each ask: it prints the number of the case, what was asked, and the answer.
use crate::say::{Answer, Bytes, File, Judging, Shown, Slots, Words};
use frame::Verdict;
use jobs::{MOST_JOBS, Refusal};
use std::fmt::Display;
use std::io;

// The judge: latest finishes, margins, verdict.
pub(crate) fn judged(rt: &impl Print, case: u32, table: &[u32], k: u32) -> io::Result<()> {
    let mut latest = [0; MOST_JOBS];
    let verdict = judge::judge(table, k, &mut latest, &mut [0; MOST_JOBS]);
    let latest = &latest[..jobs::jobs(table).min(MOST_JOBS)];
    let answer = Answer(verdict.map(|verdict| Judging {
        table,
        latest,
        verdict,
    }));
    println!(rt; "{case}. k {k}:{answer}")
}

// The judge's pattern.
pub(crate) fn pattern(rt: &impl Print, case: u32, table: &[u32], k: u32) -> io::Result<()> {
    let mut pattern = [0; MOST_JOBS];
    let verdict = judge::judge(table, k, &mut [0; MOST_JOBS], &mut pattern);
    let counts = &pattern[..jobs::jobs(table).min(MOST_JOBS)];
    let answer = Answer(verdict.map(|_| Words("pattern", counts)));
    println!(rt; "{case}. k {k}:{answer}")
}

// The finishes under the judge's pattern, of a table of two jobs, and the verdict.
fn under_pattern(table: &[u32], k: u32, finishes: &mut [u32]) -> Result<Verdict, Refusal> {
    let mut pattern = [0; 2];
    let verdict = judge::judge(table, k, &mut [0; 2], &mut pattern)?;
    schedule::schedule(table, &pattern, finishes)?;
    Ok(verdict)
}

// The named job's finish under the judge's pattern, of a table of two jobs.
pub(crate) fn shown(rt: &impl Print, case: u32, table: &[u32], k: u32) -> io::Result<()> {
    let mut finishes = [0; 2];
    let verdict = under_pattern(table, k, &mut finishes);
    let answer = Answer(verdict.map(|verdict| Shown(verdict, &finishes)));
    println!(rt; "{case}. k {k}:{answer}")
}

// The pattern of one job, of a table of two jobs.
pub(crate) fn reached(
    rt: &impl Print,
    case: u32,
    table: &[u32],
    k: u32,
    job: u32,
) -> io::Result<()> {
    let mut pattern = [0; 2];
    let reached = judge::pattern_of(table, k, job, &mut pattern);
    let answer = Answer(reached.map(|()| Words("pattern", &pattern)));
    println!(rt; "{case}. k {k}: job {job}{answer}")
}

// The schedule under a pattern, of a table of two jobs.
pub(crate) fn scheduled(
    rt: &impl Print,
    case: u32,
    table: &[u32],
    pattern: &[u32],
) -> io::Result<()> {
    let mut finishes = [0; 2];
    let scheduled = schedule::schedule(table, pattern, &mut finishes);
    let given = Words("pattern", pattern);
    let answer = Answer(scheduled.map(|()| Words("finishes", &finishes)));
    println!(rt; "{case}.{given}:{answer}")
}

// The free slots from a to b.
pub(crate) fn free(rt: &impl Print, case: u32, table: &[u32], a: u32, b: u32) -> io::Result<()> {
    let answer = Answer(schedule::free_slots(table, a, b).map(Slots));
    println!(rt; "{case}. from {a} to {b}:{answer}")
}

// The delays, of a table of two jobs.
pub(crate) fn delayed(rt: &impl Print, case: u32, table: &[u32], k: u32) -> io::Result<()> {
    let mut delays = [0; 2];
    let delayed = delays::delays(table, k, &mut delays);
    let answer = Answer(delayed.map(|()| Words("delays", &delays)));
    println!(rt; "{case}. k {k}:{answer}")
}

// A file of at most one job read: k, the number of jobs and the row.
pub(crate) fn read(rt: &impl Print, case: impl Display + Drop, file: &[u8]) -> io::Result<()> {
    let mut table = [0; 4];
    let contents = jobfile::read(file, &mut table);
    let answer = Answer(contents.map(|contents| File(contents, &table)));
    println!(rt; "{case}. read:{answer}")
}

// 02's T-01: a file of at most one job without a head, read, and rewritten by the old rule.
pub(crate) fn without_head(rt: &impl Print, file: &[u8]) -> io::Result<()> {
    let mut rewritten = [0; 25];
    read(rt, "T-01", file)?;
    let length = rewrite_file::rewrite(file, &mut rewritten);
    println!(rt;
        "T-01. rewritten:{}",
        Bytes(&rewritten[..length.min(rewritten.len())])
    )
}

// A file of one job read, and written into a buffer: how many bytes were written.
fn write_back(file: &[u8], bytes: &mut [u8]) -> Result<usize, Refusal> {
    let mut table = [0; 4];
    let contents = jobfile::read(file, &mut table)?;
    jobfile_write::write(&table, contents.k, bytes)
}

// A file of one job read and written.
pub(crate) fn rewritten(rt: &impl Print, case: u32, file: &[u8]) -> io::Result<()> {
    let mut bytes = [0; 25];
    let length = write_back(file, &mut bytes);
    let answer = Answer(length.map(|length| Bytes(&bytes[..length.min(bytes.len())])));
    println!(rt; "{case}. written:{answer}")
}
