// Writing a table and k as a job file. Each record is written from the first free byte of the lent buffer onward.

#![tactic(auto)]

ghost use Rattle.std.specs.Prelude.{◌≡◌, ◌*◌, ◌≤◌, ◌++◌, length};
ghost use Rattle.jobs.specs.Table.{row_words, jobs};
ghost use Rattle.jobfile.specs.Bytes.{over};
ghost use Rattle.jobfile_write.specs.Writing.{bytes_of, head_bytes, job_bytes, jobs_bytes, WritesTo};

use jobfile::{HEAD_BYTES, JOB_BYTES};
use jobs::{Faults, ROW, Reason, Refusal, Table, given};

// The start of a record: its length and its kind.
fn put_kind(size: u16, kind: u16, free: &mut [u8])
    requires { 4 ≤ length free.old }
    ensures { free.new ≡ over (bytes_of 2 size ++ bytes_of 2 kind) free.old }
{
    free[..2].copy_from_slice(&size.to_le_bytes());
    free[2..4].copy_from_slice(&kind.to_le_bytes());
}

// A head: length 3, kind 1, one byte k.
fn put_head(faults: Faults, free: &mut [u8])
    requires { 5 ≤ length free.old }
    ensures { free.new ≡ over (head_bytes faults.k) free.old }
{
    put_kind(3, 1, free);
    free[4] = faults.k as u8;
}

// A job: length 18, kind 2, the words of its row.
fn put_job(row: &[u32], free: &mut [u8])
    requires { (length row.now ≡ row_words) × (20 ≤ length free.old) }
    ensures { free.new ≡ over (job_bytes row.now) free.old }
{
    put_kind(18, 2, free);
    for (i, word) in row.iter().enumerate() {
        let at = 4 + 4 * i;
        free[at..at + 4].copy_from_slice(&word.to_le_bytes());
    }
}

// The jobs of a table, one record after the other.
fn put_jobs(table: &Table, free: &mut [u8])
    requires { jobs table.now * 20 ≤ length free.old }
    ensures { free.new ≡ over (jobs_bytes (jobs table.now) table.now) free.old }
{
    for (i, row) in table.words().chunks_exact(ROW).enumerate() {
        put_job(row, &mut free[i * JOB_BYTES..]);
    }
}

// Write a file: its length, with the bytes at the start of the lent buffer. A refusal is found before the buffer is touched: 1, 2, 3, 4 and 28, in this order.
pub fn write(table: &[u32], k: u32, file: &mut [u8]) -> Result<usize, Refusal>
    ensures { WritesTo table.now k file.old result file.new }
{
    let table = Table::new(table)?;
    let faults = Faults::try_from(k)?;
    let needed = HEAD_BYTES + JOB_BYTES * table.jobs();
    given(file.len() < needed, Reason::ShortFile, needed)?;
    put_head(faults, file);
    put_jobs(&table, &mut file[HEAD_BYTES..]);
    Ok(needed)
}
