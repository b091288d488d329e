// The row of nine numbers: for each count of faults from 0 to 8 the latest end of the work so far.
ghost use Rattle.std.specs.Prelude.{◌≡◌, cond, suc, ◌<◌, ◌^◌, leb};
ghost use Rattle.jobs.specs.Arrays.{Holds, Fit, values};
ghost use Rattle.latest.proofs.Steps.{again, enters, spread, picks};

use crate::turns::Turn;
use std::array;

// One fault more, that costs `recovery`; an end of 0 is over and stays so.
fn once_more(recovery: u32, end: u32) -> u32
    requires { again recovery end < 2 ^ 32 }
    ensures { result ≡ again recovery end }
{
    if end == 0 { 0 } else { end + recovery }
}

// The end after a job without fault; past the judged job, over unless the job comes before it.
fn enter(past: bool, turn: Turn, end: u32) -> u32
    requires { enters past turn.ready turn.run end < 2 ^ 32 }
    ensures { result ≡ enters past turn.ready turn.run end }
{
    if past {
        if end <= turn.ready {
            return 0;
        }
        return end + turn.run;
    }
    end.max(turn.ready) + turn.run
}

// Each end of the row, after the job without fault.
pub(crate) fn entered(row: [u32; 9], past: bool, turn: Turn) -> [u32; 9]
    requires { Fit (λ w. enters past turn.ready turn.run (values row w)) }
    ensures { Holds 9 result 9 (λ w. enters past turn.ready turn.run (values row w)) }
{
    array::from_fn(|w| enter(past, turn, row[w]))
}

// The row with the faults of the job: none, or one more than with one fault less.
pub(crate) fn spread(first: [u32; 9], recovery: u32) -> [u32; 9]
    requires { Fit (spread recovery (values first)) }
    ensures { Holds 9 result 9 (spread recovery (values first)) }
{
    let mut next = first;
    for w in 1..9 {
        next[w] = first[w].max(once_more(recovery, next[w - 1]));
    }
    next
}

// None where an entry is no better with a fault more, else one more than with one fault less.
fn pick(with: u32, without: u32, fewer: u8) -> u8
    requires { fewer < 255 }
    ensures { result ≡ cond (leb with without) 0 (suc fewer) }
{
    if with <= without { 0 } else { fewer + 1 }
}

// How the faults of each entry are picked that `spread` makes of `first`.
pub(crate) fn picks_of(first: [u32; 9], next: [u32; 9], recovery: u32) -> [u8; 9]
    requires fit { Fit (spread recovery (values first)) }
    requires holds { Holds 9 next 9 (spread recovery (values first)) }
    ensures { Holds 9 result 9 (picks recovery (values first)) }
{
    let mut of = [0u8; 9];
    for w in 1..9 {
        of[w] = pick(once_more(recovery, next[w - 1]), first[w], of[w - 1]);
    }
    of
}
