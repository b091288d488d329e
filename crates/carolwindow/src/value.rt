// The values of answers, in 64 bits.
ghost use Rattle.std.specs.Prelude.{◌≡◌, ℕ};
ghost use Rattle.carolwindow.specs.Answers.{packed, no_value, number_value, verdict_value, contents_value};

use frame::Verdict;
use jobfile::Contents;

// What an answer that is no refusal has for its value, as far as 56 bits hold it.
pub(crate) trait Value {
    ghost value: { Self → ℕ };

    fn value(self) -> u64
        ensures { packed 0 result ≡ packed 0 (value self) };
}

// Schedule, delays, pattern of one job: value 0.
impl Value for () {
    ghost value = { no_value };

    fn value(self) -> u64 {
        0
    }
}

// Free slots: the count.
impl Value for u32 {
    ghost value = { number_value };

    fn value(self) -> u64 {
        u64::from(self)
    }
}

// Write: the length.
impl Value for usize {
    ghost value = { number_value };

    fn value(self) -> u64 {
        self as u64
    }
}

// Judge: 0 sound, 1 + job for a miss.
impl Value for Verdict {
    ghost value = { verdict_value };

    fn value(self) -> u64 {
        match self {
            Verdict::Sound => 0,
            Verdict::Miss(job, _) => (job.0 as u64).saturating_add(1),
        }
    }
}

// Read: 256 × k + n.
impl Value for Contents {
    ghost value = { contents_value };

    fn value(self) -> u64 {
        256 * u64::from(self.k % 256) + (self.n % 256) as u64
    }
}
