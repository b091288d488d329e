// The rewriting program: a job file of the old rule from standard input, the file with a head to standard output. What cannot be read to its end is not
// rewritten, since the jobs that are missing would be lost.

#![tactic(auto)]

use rewrite_file::MOST_FILE;
use std::io;

fn main(rt: HostRuntime) -> io::Result<()> {
    input::answer(
        &mut rt.stdin(),
        &mut rt.stdout(),
        &mut [0; MOST_FILE],
        rewrite_file::rewrite,
    )
}
