// The asks judge and pattern of one job.
ghost use Rattle.std.specs.Prelude.{◌≡◌, ◌<◌, ◌≤◌, length};
ghost use Rattle.std.proofs.Math.IntN.{sub_ℕ};
ghost use Rattle.jobs.specs.Table.{jobs, deadline};
ghost use Rattle.jobs.specs.Arrays.{values};
ghost use Rattle.frame.specs.Latest.{latest, verdict as verdict_of};
ghost use Rattle.schedule.specs.Asks.{fill};
ghost use Rattle.judge.specs.Asks.{Handed, HandedFor, Judging, Reaching};

use crate::turns::{Turns, arrivals};
use frame::Verdict;
use jobs::{Faults, Job, Reason, Refusal, Table, given};

// Fills the first n words of a lent buffer.
fn fill_from(buffer: &mut [u32], results: &[u32; 64], n: usize)
    requires { (n ≤ length buffer.old) × (n ≤ 64) }
    ensures { buffer.new ≡ fill n (values results.now) buffer.old }
{
    buffer[..n].copy_from_slice(&results[..n]);
}

// Judges a frame that is not refused.
fn judge_frame(table: &Table, faults: Faults, finishes: &mut [u32], pattern: &mut [u32]) -> Verdict
    requires { (jobs table.now ≤ length finishes.old) × (jobs table.now ≤ length pattern.old) }
    ensures value { result ≡ verdict_of table.now faults.k }
    ensures finishes_after { finishes.new ≡ fill (jobs table.now) (latest table.now faults.k) finishes.old }
    ensures handed_for { HandedFor table.now faults.k result pattern.old pattern.new }
{
    let n = table.jobs();
    let order = &arrivals(table);
    let ranking = &jobs::by_urgency(table.words());
    let turns = Turns::new(table, order, ranking);
    let late = turns.all_latest(faults);
    let verdict = turns.verdict_on(&late, faults);
    let counts = turns.counts_for(verdict, faults);
    fill_from(finishes, &late, n);
    fill_from(pattern, &counts, n);
    verdict
}

// Judge: the verdict, with the latest finishes and a pattern in the lent buffers; or the refusal, in the order 1, 2, 3, 4, 5, 6.
pub fn judge(
    table: &[u32],
    k: u32,
    finishes: &mut [u32],
    pattern: &mut [u32],
) -> Result<Verdict, Refusal>
    ensures { Judging table.now k finishes.old finishes.new pattern.old pattern.new result }
{
    let table = Table::new(table)?;
    let faults = Faults::try_from(k)?;
    let n = table.jobs();
    given(finishes.len() < n, Reason::ShortBuffer, n)?;
    given(pattern.len() < n, Reason::WrongPattern, n)?;
    Ok(judge_frame(&table, faults, finishes, pattern))
}

// The pattern of one job of a frame that is not refused.
fn hand_out(table: &Table, faults: Faults, job: Job, pattern: &mut [u32])
    requires { (job.0 < jobs table.now) × (jobs table.now ≤ length pattern.old) }
    ensures { Handed table.now faults.k job.0 pattern.old pattern.new }
{
    let order = &arrivals(table);
    let ranking = &jobs::by_urgency(table.words());
    let turns = Turns::new(table, order, ranking);
    let counts = turns.counts_of(faults, job);
    fill_from(pattern, &counts, table.jobs());
}

// Pattern of one job: a pattern that reaches that job's latest finish; or the refusal, in the order 1, 2, 3, 4, 8, 6.
pub fn pattern_of(table: &[u32], k: u32, job: u32, pattern: &mut [u32]) -> Result<(), Refusal>
    ensures { Reaching table.now k job pattern.old pattern.new result }
{
    let table = Table::new(table)?;
    let faults = Faults::try_from(k)?;
    let job = Job(job as usize);
    let n = table.jobs();
    given(n <= job.0, Reason::NoSuchJob, 0)?;
    given(pattern.len() < n, Reason::WrongPattern, n)?;
    hand_out(&table, faults, job, pattern);
    Ok(())
}

// A job's margin: its deadline minus its latest finish, signed.
pub fn margin(table: &[u32], job: Job, finish: u32) -> i64
    ensures { result ≡ sub_ℕ (deadline table.now job.0) finish }
{
    i64::from(jobs::deadline(table, job)) - i64::from(finish)
}
