// The ask delays: the most extra work just after each job's fault-free finish, over all patterns of at most k faults.
//
// It is computed by formula (6) of Liberato, Melhem and Mossé (IEEE Transactions on Computers, 2000), row by row over the jobs in the order of
// their fault-free finishes; the formula's first two cases are a first row of zeros. The paper takes the most over patterns of exactly w faults and
// argues that the formula gives it. Here it is the most over patterns of at most w faults, as 01 has it, and that the formula gives it is proved of
// the schedule's slots. The jobs are all those of the table. The paper goes on to judge by the delays' first zero; 01 does not (its case 5).

#![tactic(auto)]

mod row;

ghost use Rattle.std.specs.Prelude.{◌≡◌, ◌<◌, ◌≤◌, length, get_or};
ghost use Rattle.jobs.specs.Table.{jobs};
ghost use Rattle.jobs.specs.Orders.{the_job};
ghost use Rattle.frame.specs.Delays.{delay};
ghost use Rattle.schedule.specs.Asks.{fill};
ghost use Rattle.delays.specs.Ask.{Delayed};

use crate::row::next_row;
use jobs::{Faults, Job, Place, Reason, Refusal, Table, given, in_order, recovery};
use schedule::{fault_free, idle_between};

// The job at a finishing place.
fn job_at(order: &[Job; 64], place: Place) -> Job
    requires { place.0 < 64 }
    ensures { result ≡ get_or order.now place.0 (the_job 0) }
{
    order[place.0]
}

// The walk over the finishes in their order: each row is made from the last, and its entry for k is the delay of the job that finishes there.
fn fill_delays(table: &Table, faults: Faults, delays: &mut [u32])
    requires { jobs table.now ≤ length delays.old }
    ensures { delays.new ≡ fill (jobs table.now) (delay table.now faults.k) delays.old }
{
    let words = table.words();
    let n = table.jobs();
    let finishes = fault_free(words);
    let order = in_order(&finishes[..n]);
    let mut row = [0; 9];
    let mut last = 0;
    for p in 0..n {
        let job = job_at(&order, Place(p));
        let end = finishes[job.0];
        let free = idle_between(table, last, end);
        row = next_row(row, free, recovery(words, job));
        delays[job.0] = row[faults.k];
        last = end;
    }
}

// Delays: for a table and k, taking all its jobs, the delay for w = k at each job's fault-free finish, in job order, or the refusal: of 1, 2, 3, 4 and 5,
// in this order.
pub fn delays(table: &[u32], k: u32, delays: &mut [u32]) -> Result<(), Refusal>
    ensures { Delayed table.now k delays.old delays.new result }
{
    let table = Table::new(table)?;
    let n = table.jobs();
    let faults = Faults::try_from(k)?;
    given(delays.len() < n, Reason::ShortBuffer, n)?;
    fill_delays(&table, faults, delays);
    Ok(())
}
