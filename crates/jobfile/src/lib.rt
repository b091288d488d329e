// Reading a job file into a table and k.

#![tactic(auto)]

ghost use Rattle.std.specs.Prelude.{◌≡◌, cond, ◌+◌, ◌-◌, ◌≤◌, length};
ghost use Rattle.jobfile.specs.Bytes.{number_at};
ghost use Rattle.std.specs.Iterator.{at_most};
ghost use Rattle.jobfile.specs.Reading.{Steps};
ghost use Rattle.jobfile.specs.Meaning.{headless_k, length_of, row_of, strays, head_at, job_at, record_at, headed, meaning, answered, filled, Good, ReadsTo};

use jobs::{MOST_FAULTS, MOST_JOBS, ROW, Reason, Refusal, given, in_range};

// The k of a file without a head.
const HEADLESS_K: u32 = 2;

// A head and a job in bytes, with their length.
pub const HEAD_BYTES: usize = 5;

pub const JOB_BYTES: usize = 20;

// What stands at a record's place: a head with its k, or a job.
#[derive(Clone, Copy, Debug, PartialEq, Eq)]
pub enum Record {
    Head(u32),
    Job,
}

// The walk over the file: the lent bytes, the offset of the next record, and n and k of the records before it.
#[derive(Clone, Copy)]
pub struct Reader<'a> {
    pub file: &'a [u8],
    pub at: usize,
    pub contents: Contents,
}

// What a job file holds beside its rows: n and k.
#[derive(Clone, Copy, Debug, PartialEq, Eq)]
pub struct Contents {
    pub n: usize,
    pub k: u32,
}

// The 16-bit number at an offset.
#[tactic(auto, using(crate::proofs::Bytes::two_bytes))]
fn u16_at(bytes: &[u8], at: usize) -> u16
    requires { at + 2 ≤ length bytes.now }
    ensures { result ≡ number_at 2 at bytes.now }
{
    u16::from_le_bytes([bytes[at], bytes[at + 1]])
}

// The 32-bit number at an offset.
#[tactic(auto, using(crate::proofs::Bytes::four_bytes))]
fn u32_at(bytes: &[u8], at: usize) -> u32
    requires { at + 4 ≤ length bytes.now }
    ensures { result ≡ number_at 4 at bytes.now }
{
    u32::from_le_bytes([bytes[at], bytes[at + 1], bytes[at + 2], bytes[at + 3]])
}

// The row of the job record at the start of the bytes that are left.
fn row(left: &[u8]) -> [u32; 4]
    requires { 20 ≤ length left.now }
    ensures { result ≡ row_of left.now }
{
    [
        u32_at(left, 4),
        u32_at(left, 8),
        u32_at(left, 12),
        u32_at(left, 16),
    ]
}

// Whether a field of a row is outside its range.
fn strays(row: [u32; 4]) -> bool
    ensures { result ≡ strays row }
{
    (0..ROW).any(|field| !in_range(field, row[field]))
}

// Kind 1: 21, 23, 25.
#[tactic(auto, using(crate::proofs::Bytes::faults_is), unfolding(crate::specs::Meaning::head_at))]
fn head(left: &[u8], at: usize) -> Result<Record, Refusal>
    requires { 2 + length_of left.now ≤ length left.now }
    ensures { result ≡ head_at left.now at }
{
    given(u16_at(left, 0) != 3, Reason::WrongLength, at)?;
    given(at != 0, Reason::LateHead, at)?;
    let k = u32::from(left[4]);
    given(MOST_FAULTS < k, Reason::StrayField, at)?;
    Ok(Record::Head(k))
}

// Kind 2: 21, 24, 25.
#[tactic(auto, unfolding(crate::specs::Meaning::job_at))]
fn job(left: &[u8], at: usize, n: usize) -> Result<Record, Refusal>
    requires { 2 + length_of left.now ≤ length left.now }
    ensures { result ≡ job_at left.now at n }
{
    given(u16_at(left, 0) != 18, Reason::WrongLength, at)?;
    given(MOST_JOBS <= n, Reason::JobTooMany, at)?;
    given(strays(row(left)), Reason::StrayField, at)?;
    Ok(Record::Job)
}

// The record at the start of the bytes that are left, n jobs before it: 20, 21, 20, 22, then by its kind.
#[tactic(auto, unfolding(crate::specs::Meaning::record_at, crate::specs::Meaning::by_kind))]
fn record_of(left: &[u8], at: usize, n: usize) -> Result<Record, Refusal>
    ensures { result ≡ record_at left.now at n }
{
    given(left.len() < 2, Reason::CutRecord, at)?;
    let length = usize::from(u16_at(left, 0));
    given(length < 2, Reason::WrongLength, at)?;
    given(left.len() < 2 + length, Reason::CutRecord, at)?;
    match u16_at(left, 2) {
        1 => head(left, at),
        2 => job(left, at, n),
        _ => Err(Refusal {
            reason: Reason::UnknownKind,
            place: at,
        }),
    }
}

impl<'a> Reader<'a> {
    // A reader at an offset of the file, that has passed no record.
    fn start(file: &'a [u8], at: usize) -> Reader<'a>
        ensures place { (result.file ≡ file.entry) × (result.at ≡ at) }
        ensures tally { (result.contents.n ≡ 0) × (result.contents.k ≡ headless_k) }
    {
        Reader {
            file,
            at,
            contents: Contents {
                n: 0,
                k: HEADLESS_K,
            },
        }
    }
}

// The n and k with each record, from the reader's place to the end of the file: a record is passed, and a refused one ends the walk.
impl<'a> Iterator for Reader<'a> {
    type Item = Result<Contents, Refusal>;

    ghost next_gives = { Steps };

    ghost remaining = { λ reader. at_most (length reader.file.now - reader.at) };

    fn next(&mut self) -> Option<Result<Contents, Refusal>> {
        if self.file.len() <= self.at {
            return None;
        }
        match record_of(&self.file[self.at..], self.at, self.contents.n) {
            Ok(Record::Head(k)) => {
                self.contents.k = k;
                self.at += HEAD_BYTES;
            }
            Ok(Record::Job) => {
                self.contents.n += 1;
                self.at += JOB_BYTES;
            }
            Err(refusal) => {
                self.at = self.file.len();
                return Some(Err(refusal));
            }
        }
        Some(Ok(self.contents))
    }
}

// What reading answers, for a table buffer of so many words: the first refusal met ends it, and 26 comes after all records.
fn answer(file: &[u8], room: usize) -> Result<Contents, Refusal>
    ensures { result ≡ answered (meaning file.now) room (length file.now) }
{
    let reader = Reader::start(file, 0);
    let mut contents = reader.contents;
    for record in reader {
        contents = record?;
    }
    given(room < contents.n * ROW, Reason::ShortTable, file.len())?;
    Ok(contents)
}

// Where the jobs begin: after the head, if the file has one.
fn first_job(file: &[u8]) -> usize
    ensures { result ≡ cond (headed file.now) 5 0 }
{
    match record_of(file, 0, 0) {
        Ok(Record::Head(_)) => HEAD_BYTES,
        _ => 0,
    }
}

// The rows of a good file.
fn fill(file: &[u8], table: &mut [u32])
    requires { Good file.now (length table.old) }
    ensures { table.new ≡ filled (meaning file.now) table.old }
{
    let first = first_job(file);
    for (i, record) in file[first..].chunks_exact(JOB_BYTES).enumerate() {
        table[i * ROW..i * ROW + ROW].copy_from_slice(&row(record));
    }
}

// Read a file: n and k, with the rows in the first 4 × n words of the table buffer. A refusal is found before the buffer is touched.
pub fn read(file: &[u8], table: &mut [u32]) -> Result<Contents, Refusal>
    ensures { ReadsTo file.now table.old result table.new }
{
    let contents = answer(file, table.len())?;
    fill(file, table);
    Ok(contents)
}
