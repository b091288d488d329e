// The number of faults that a frame must bear.
ghost use Rattle.std.specs.Prelude.{◌≡◌, ◌≤◌, Err, MatchResult};

use crate::{Refusal, check_faults};

// A number of faults that is not refused: at most eight.
#[derive(Clone, Copy)]
pub struct Faults {
    pub k: usize,
    pub ghost few: { k ≤ 8 },
}

// Refusal 4, or a number of faults.
impl TryFrom<u32> for Faults {
    type Error = Refusal;

    ghost use Rattle.jobs.specs.Refusals.{fine, too_many_faults};

    ghost try_from_gives = { λ k result. MatchResult result (λ faults. (faults.k ≡ k) × (too_many_faults k ≡ fine)) (λ refusal. too_many_faults k ≡ Err refusal) };

    fn try_from(k: u32) -> Result<Self, Refusal> {
        check_faults(k)?;
        Ok(Faults { k: k as usize })
    }
}
