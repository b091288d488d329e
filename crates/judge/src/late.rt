// The latest finish of every job, and the verdict on them.
ghost use Rattle.std.specs.Prelude.{◌≡◌};
ghost use Rattle.jobs.specs.Table.{jobs};
ghost use Rattle.jobs.specs.Arrays.{Holds};
ghost use Rattle.frame.specs.Latest.{latest, verdict};

use crate::turns::Turns;
use frame::Verdict;
use jobs::Faults;

impl<'a, 'b> Turns<'a, 'b> {
    // The latest finish of each job, by job number.
    pub(crate) fn all_latest(&self, faults: Faults) -> [u32; 64]
        ensures { Holds 64 result (jobs self.now) (latest self.now faults.k) }
    {
        let mut late = [0; 64];
        for q in 0..self.n {
            let job = self.order.job[q];
            late[job.0] = self.latest_at(faults, q);
        }
        late
    }

    // The verdict on the latest finishes for k faults: by rank, the first job that is late is named.
    pub(crate) fn verdict_on(&self, late: &[u32; 64], faults: Faults) -> Verdict
        requires { Holds 64 late.now (jobs self.now) (latest self.now faults.k) }
        ensures { result ≡ verdict self.now faults.k }
    {
        for job in &self.ranking.job[..self.n] {
            let end = late[job.0];
            if jobs::deadline(self.words, *job) < end {
                return Verdict::Miss(*job, end);
            }
        }
        Verdict::Sound
    }
}
