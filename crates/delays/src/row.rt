// The row of nine numbers: for each count w of faults from 0 to 8 the most extra work just after a finish.
ghost use Rattle.jobs.specs.Arrays.{Holds, Fit, values};
ghost use Rattle.delays.specs.Rows.{next_row};

// The next finish's row, made from the last: with one fault more, either none of them on this job, or one recovery more.
pub(crate) fn next_row(last: [u32; 9], free: u32, recovery: u32) -> [u32; 9]
    requires { Fit (next_row free recovery (values last)) }
    ensures { Holds 9 result 9 (next_row free recovery (values last)) }
{
    let mut next = [0; 9];
    for w in 1..9 {
        next[w] = last[w].saturating_sub(free).max(next[w - 1] + recovery);
    }
    next
}
