// The pattern that reaches a job's latest finish: the notes of its walk, unwound from where it stops.
ghost use Rattle.std.specs.Prelude.{◌≡◌, ◌<◌, ◌==◌, position};
ghost use Rattle.jobs.specs.declared.Job.{Job};
ghost use Rattle.jobs.specs.Table.{jobs};
ghost use Rattle.frame.specs.Latest.{verdict as verdict_of};
ghost use Rattle.latest.proofs.Walk.{job_at_turn};
ghost use Rattle.judge.specs.Notes.{TrailOf, Unwound, CountsFor};

use crate::turns::{Trail, Turns};
use frame::Verdict;
use jobs::{Faults, Job};

// The index of a job in a list.
fn index_of(job: Job, list: &[Job]) -> Option<usize>
    ensures { result ≡ position (λ (other : Job). other.0 == job.0) list.now }
{
    list.iter().position(|other| *other == job)
}

impl<'a, 'b> Turns<'a, 'b> {
    // The turn of a job.
    fn turn_of(&self, job: Job) -> usize
        requires { job.0 < jobs self.now }
        ensures below { result < jobs self.now }
        ensures at { job_at_turn self.now result ≡ job.0 }
    {
        let found = index_of(job, &self.order.job[..self.n]);
        found.unwrap_or(0)
    }

    // The faults of each job, by job number: the notes unwound from where the walk stops.
    fn unwound(&self, trail: &Trail, faults: Faults, own: usize) -> [u32; 64]
        requires { TrailOf self.now faults.k (job_at_turn self.now own) trail.now }
        ensures { Unwound self.now faults.k (job_at_turn self.now own) result }
    {
        let mut counts = [0; 64];
        let mut w = faults.k;
        for p in (0..trail.stop).rev() {
            let faults = trail.picks[p][w];
            let job = self.order.job[p];
            counts[job.0] = u32::from(faults);
            w -= usize::from(faults);
        }
        counts
    }

    // The counts of a pattern that reaches a job's latest finish, by job number.
    pub(crate) fn counts_of(&self, faults: Faults, job: Job) -> [u32; 64]
        requires { job.0 < jobs self.now }
        ensures { Unwound self.now faults.k job.0 result }
    {
        let own = self.turn_of(job);
        let trail = self.walk::<true>(faults, own);
        self.unwound(&trail, faults, own)
    }

    // The counts of the pattern for a verdict: on a miss one that reaches the named job's latest finish, on sound all zeros.
    pub(crate) fn counts_for(&self, verdict: Verdict, faults: Faults) -> [u32; 64]
        requires { verdict ≡ verdict_of self.now faults.k }
        ensures { CountsFor self.now faults.k verdict result }
    {
        match verdict {
            Verdict::Sound => [0; 64],
            Verdict::Miss(job, _) => self.counts_of(faults, job),
        }
    }
}
