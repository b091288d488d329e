// The ask schedule: the finishes under a given pattern, from event to event. An event is that a job ends or becomes ready.
ghost use Rattle.std.specs.Prelude.{ℕ, ◌≡◌, ◌<◌, ◌≤◌, ◌&&◌, [], ◌∷◌, leb, ltb, length, get_or, find};
ghost use Rattle.std.specs.List.{All};
ghost use Rattle.jobs.specs.Arrays.{Holds};
ghost use Rattle.jobs.specs.Table.{jobs, ready};
ghost use Rattle.jobs.specs.Orders.{the_job};
ghost use Rattle.jobs.specs.Refusals.{first};
ghost use Rattle.frame.specs.Schedule.{need, finish};
ghost use Rattle.frame.specs.Latest.{AtMost};
ghost use Rattle.schedule.specs.Asks.{Scheduled, fill, wrong_pattern, too_many_failures, short_buffer, fault_free_finishes};
ghost use Rattle.schedule.specs.Events.{to_come, ComesNext, waiting, Fits, Ran};

use jobs::{Job, MOST_FAULTS, Reason, Refusal, Table, given};

// No job becomes ready at this time or later.
const NEVER: u32 = 10_000_000;

// Refusal 7. What is left of 8 goes down count by count, and the sum is left as soon as it is over 8, so that it never overflows.
fn check_sum(pattern: &[u32]) -> Result<(), Refusal>
    ensures { result ≡ too_many_failures pattern.now }
{
    let mut left = MOST_FAULTS;
    for count in pattern {
        given(left < *count, Reason::TooManyFailures, 0)?;
        left -= *count;
    }
    Ok(())
}

// The refusals of schedule that come after the table's, in their order: 6, 7, 5.
fn check(table: &Table, pattern: &[u32], room: usize) -> Result<(), Refusal>
    ensures { result ≡ first (wrong_pattern table.now pattern.now ∷ too_many_failures pattern.now ∷ short_buffer table.now room ∷ []) }
{
    let n = table.jobs();
    given(pattern.len() != n, Reason::WrongPattern, n)?;
    check_sum(pattern)?;
    given(room < n, Reason::ShortBuffer, n)
}

// What a function gives for each of n jobs, by job number.
fn by_number<F: Fn(Job) -> u32>(n: usize, of_job: F) -> [u32; 64]
    requires few { n ≤ 64 }
    requires callable { (j : ℕ) → j < n → F.pre of_job (the_job j) }
    ensures long { length result ≡ 64 }
    ensures each { (j : ℕ) → j < n → F.post of_job (the_job j) (get_or result j 0) }
{
    let mut numbers = [0; 64];
    for j in 0..n {
        numbers[j] = of_job(Job(j));
    }
    numbers
}

// The ready times, which every event reads.
fn ready_times(table: &Table) -> [u32; 64]
    ensures { Holds 64 result (jobs table.now) (ready table.now) }
{
    let words = table.words();
    by_number(table.jobs(), |job| jobs::ready(words, job))
}

// A ready time, if it is still to come; else NEVER.
fn to_come(ready: u32, time: u32) -> u32
    ensures { result ≡ to_come ready time }
{
    if time < ready { ready } else { NEVER }
}

// The next time at which a job becomes ready, if there is one. Every event takes it: a least number with NEVER for none is faster here than one of options.
fn next_ready(times: &[u32], time: u32) -> Option<u32>
    ensures { ComesNext times.now time result }
{
    let mut next = NEVER;
    for ready in times {
        next = next.min(to_come(*ready, time));
    }
    (next < NEVER).then_some(next)
}

// Whether a job with this ready time and this much left waits. Both numbers are read before the test, so that it takes one branch.
fn waits(ready: u32, left: u32, time: u32) -> bool
    ensures { result ≡ leb ready time && ltb 0 left }
{
    ready <= time && 0 < left
}

// The most urgent waiting job: the first that waits of the jobs sorted by urgency. Every event takes it too, and the loop is faster than `find`.
fn pick(sorted: &[Job], times: &[u32], left: &[u32], time: u32) -> Option<Job>
    requires { All (λ job. (job.0 < length times.now) × (job.0 < length left.now)) sorted.now }
    ensures { result ≡ find (waiting times.now left.now time) sorted.now }
{
    for job in sorted {
        if waits(times[job.0], left[job.0], time) {
            return Some(*job);
        }
    }
    None
}

// A job runs to its end or up to the next ready time, whichever comes first. The time then.
fn run_on(job: Job, time: u32, next: Option<u32>, left: &mut [u32], finishes: &mut [u32]) -> u32
    requires { Fits job.0 time left.old finishes.old }
    ensures { Ran job.0 time next left.old finishes.old left.new finishes.new result }
{
    let at = job.0;
    let end = time + left[at];
    match next {
        Some(next) if next < end => {
            left[at] = end - next;
            next
        }
        _ => {
            left[at] = 0;
            finishes[at] = end;
            end
        }
    }
}

// A frame and a pattern for it, neither refused.
#[derive(Drop)]
struct Accepted<'a> {
    table: Table<'a>,
    pattern: &'a [u32],
    ghost counts: { AtMost (jobs table) 8 pattern.now },
}

impl<'a> Accepted<'a> {
    // The slots that a job needs: C + f × V.
    fn need_of(&self, job: Job) -> u32
        requires job_bound { job.0 < jobs self.now.table }
        ensures { result ≡ need self.now.table self.now.pattern.now job.0 }
    {
        let words = self.table.words();
        jobs::run(words, job) + self.pattern[job.0] * jobs::recovery(words, job)
    }

    // The slots that each job needs.
    fn needs(&self) -> [u32; 64]
        ensures { Holds 64 result (jobs self.now.table) (need self.now.table self.now.pattern.now) }
    {
        by_number(self.table.jobs(), |job| self.need_of(job))
    }

    // The schedule: each finish goes into the buffer when its job ends. No event is left when no job waits and none is still to come.
    fn walk(&self, finishes: &mut [u32])
        requires room { jobs self.now.table ≤ length finishes.old }
        ensures { finishes.new ≡ fill (jobs self.now.table) (finish self.now.table self.now.pattern.now) finishes.old }
    {
        let n = self.table.jobs();
        let ranking = jobs::by_urgency(self.table.words());
        let times = ready_times(&self.table);
        let mut left = self.needs();
        let mut time = 0;
        loop {
            let next = next_ready(&times[..n], time);
            let job = pick(&ranking.job[..n], &times, &left, time);
            time = match (job, next) {
                (Some(job), _) => run_on(job, time, next, &mut left, finishes),
                (None, Some(next)) => next,
                (None, None) => return,
            };
        }
    }
}

// Schedule: the finishes under a given pattern, or the refusal.
pub fn schedule(table: &[u32], pattern: &[u32], finishes: &mut [u32]) -> Result<(), Refusal>
    ensures { Scheduled table.now pattern.now finishes.old finishes.new result }
{
    let table = Table::new(table)?;
    check(&table, pattern, finishes.len())?;
    Accepted { table, pattern }.walk(finishes);
    Ok(())
}

// The fault-free finish of each job, by job number: the schedule under a pattern of zeros. All zeros for a table that is refused.
pub fn fault_free(table: &[u32]) -> [u32; 64]
    ensures { result ≡ fault_free_finishes table.now }
{
    let none = [0; 64];
    let mut finishes = [0; 64];
    if let Ok(table) = Table::new(table) {
        let pattern = &none[..table.jobs()];
        Accepted { table, pattern }.walk(&mut finishes);
    }
    finishes
}
