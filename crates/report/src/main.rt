// The report program: a job file from standard input, the report on it to standard output. What cannot be read to its end gets no report, since the jobs that
// are missing could make it a miss.

#![tactic(auto)]

use report_text::MOST_TEXT;
use std::io;

fn main(rt: HostRuntime) -> io::Result<()> {
    input::answer(
        &mut rt.stdin(),
        &mut rt.stdout(),
        &mut [0; MOST_TEXT],
        report_text::report,
    )
}
