// Refusals: why something that was handed in gets no other answer, and where.
ghost use Rattle.std.specs.Prelude.{◌≡◌};
ghost use Rattle.jobs.specs.Refusals.{given, number};

use std::fmt;

// Why: the reasons with 01's numbers.
#[derive(Clone, Copy, Debug, PartialEq, Eq)]
pub enum Reason {
    CutRow = 1,
    TooManyJobs = 2,
    OutOfRange = 3,
    TooManyFaults = 4,
    ShortBuffer = 5,
    WrongPattern = 6,
    TooManyFailures = 7,
    NoSuchJob = 8,
    TooLate = 9,
    CutRecord = 20,
    WrongLength = 21,
    UnknownKind = 22,
    LateHead = 23,
    JobTooMany = 24,
    StrayField = 25,
    ShortTable = 26,
    ShortFile = 28,
}

// A reason's number.
impl From<Reason> for u32 {
    ghost from_gives = { λ reason result. result ≡ number reason };

    fn from(reason: Reason) -> u32 {
        reason as u32
    }
}

// A reason, and the place that 01 gives with it.
#[derive(Clone, Copy, Debug, PartialEq, Eq)]
pub struct Refusal {
    pub reason: Reason,
    pub place: usize,
}

impl fmt::Display for Refusal {
    fn fmt<W: fmt::Write>(&self, f: &mut fmt::Formatter<W>) -> fmt::Result {
        write!(f, "refused {} at {}", u32::from(self.reason), self.place)
    }
}

impl std::error::Error for Refusal {}

// A refusal, given when its test holds.
pub fn given(test: bool, reason: Reason, place: usize) -> Result<(), Refusal>
    ensures { result ≡ given test reason place }
{
    if test {
        return Err(Refusal { reason, place });
    }
    Ok(())
}
