// The ask free slots: the idle slots between two times, in the schedule without faults. No slot is visited. While jobs are left the
// processor runs, so the idle slots before a time are those that the runs of the jobs that came before it do not fill.
ghost use Rattle.std.specs.Prelude.{◌≡◌, take};
ghost use Rattle.jobs.specs.Below.{count};
ghost use Rattle.jobs.specs.Table.{jobs};
ghost use Rattle.jobs.specs.Orders.{by_ready};
ghost use Rattle.frame.specs.Schedule.{idle, no_faults, free_slots};
ghost use Rattle.schedule.specs.Asks.{free_slots_answer};

use jobs::{Job, Reason, Refusal, Table, by_ready, given, ready, run};

// The latest time that may be asked.
const LAST_TIME: u32 = 10_000_000;

// The idle slots before t. The jobs ready before t, served in the order of ready times, are done at `until`; up to then, or up to t if
// that is later, the slots that their runs do not fill are idle, and none of those is after t.
fn idle_before(table: &Table, arrivals: &[Job], t: u32) -> u32
    requires { arrivals.now ≡ take (jobs table.now) (by_ready table.now).job }
    ensures { result ≡ count t (idle table.now (no_faults table.now)) }
{
    let words = table.words();
    let mut until: u32 = 0;
    let mut runs: u32 = 0;
    for job in arrivals {
        let came = ready(words, *job);
        if t <= came {
            break;
        }
        let longest = run(words, *job);
        until = until.max(came) + longest;
        runs += longest;
    }
    until.max(t) - runs
}

// The idle slots t with a ≤ t < b: those before b that are not before a.
pub fn idle_between(table: &Table, a: u32, b: u32) -> u32
    ensures { result ≡ free_slots table.now a b }
{
    if b <= a {
        return 0;
    }
    let order = by_ready(table.words());
    let arrivals = &order.job[..table.jobs()];
    idle_before(table, arrivals, b) - idle_before(table, arrivals, a)
}

// Free slots between a and b, in the schedule without faults.
pub fn free_slots(table: &[u32], a: u32, b: u32) -> Result<u32, Refusal>
    ensures { result ≡ free_slots_answer table.now a b }
{
    let table = Table::new(table)?;
    given(LAST_TIME < a || LAST_TIME < b, Reason::TooLate, 0)?;
    Ok(idle_between(&table, a, b))
}
