// The schedule of a frame is defined in specs/, and its laws are in proofs/. Nothing runs here: what computes it is in schedule, delays and judge.

#![tactic(auto)]

use jobs::Job;

// The verdict: sound, or miss with the job and its latest finish.
#[derive(Clone, Copy)]
pub enum Verdict {
    Sound,
    Miss(Job, u32),
}
