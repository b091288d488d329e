// What the lines are made of. Each piece starts with a space.
use frame::Verdict;
use jobfile::Contents;
use jobs::{Job, Refusal};
use std::fmt;
use std::fmt::{Display, Formatter};

// An answer, or the refusal.
#[derive(Drop)]
pub(crate) struct Answer<T>(pub(crate) Result<T, Refusal>);

impl<T: Display> Display for Answer<T> {
    fn fmt<W: fmt::Write>(&self, f: &mut Formatter<W>) -> fmt::Result {
        match &self.0 {
            Ok(answer) => write!(f, "{answer}"),
            Err(refusal) => write!(f, " {refusal}"),
        }
    }
}

// Words under their name.
#[derive(Clone, Copy)]
pub(crate) struct Words<'a>(pub(crate) &'a str, pub(crate) &'a [u32]);

impl Display for Words<'_> {
    fn fmt<W: fmt::Write>(&self, f: &mut Formatter<W>) -> fmt::Result {
        let Words(name, words) = self;
        write!(f, " {name}")?;
        for word in words.iter() {
            write!(f, " {word}")?;
        }
        Ok(())
    }
}

// Bytes, each as two hexadecimal digits.
#[derive(Clone, Copy)]
pub(crate) struct Bytes<'a>(pub(crate) &'a [u8]);

impl Display for Bytes<'_> {
    fn fmt<W: fmt::Write>(&self, f: &mut Formatter<W>) -> fmt::Result {
        for byte in self.0 {
            write!(f, " {byte:02x}")?;
        }
        Ok(())
    }
}

// The margins of a table's jobs, by their latest finishes.
#[derive(Clone, Copy)]
struct Margins<'a>(&'a [u32], &'a [u32]);

impl Display for Margins<'_> {
    fn fmt<W: fmt::Write>(&self, f: &mut Formatter<W>) -> fmt::Result {
        let Margins(table, latest) = self;
        write!(f, " margins")?;
        for (job, latest) in latest.iter().enumerate() {
            write!(f, " {}", judge::margin(table, Job(job), *latest))?;
        }
        Ok(())
    }
}

// What the judge says of a table: the jobs' latest finishes and margins, if there are jobs, and the verdict.
#[derive(Clone, Copy)]
pub(crate) struct Judging<'a> {
    pub(crate) table: &'a [u32],
    pub(crate) latest: &'a [u32],
    pub(crate) verdict: Verdict,
}

impl Display for Judging<'_> {
    fn fmt<W: fmt::Write>(&self, f: &mut Formatter<W>) -> fmt::Result {
        if !self.latest.is_empty() {
            write!(
                f,
                "{},{},",
                Words("latest", self.latest),
                Margins(self.table, self.latest)
            )?;
        }
        match self.verdict {
            Verdict::Sound => write!(f, " sound"),
            Verdict::Miss(job, latest) => write!(f, " miss, job {}, latest {latest}", job.0),
        }
    }
}

// The number of free slots.
#[derive(Clone, Copy)]
pub(crate) struct Slots(pub(crate) u32);

impl Display for Slots {
    fn fmt<W: fmt::Write>(&self, f: &mut Formatter<W>) -> fmt::Result {
        write!(f, " free slots {}", self.0)
    }
}

// Under a pattern: on a miss, the named job's finish.
#[derive(Clone, Copy)]
pub(crate) struct Shown<'a>(pub(crate) Verdict, pub(crate) &'a [u32]);

impl Display for Shown<'_> {
    fn fmt<W: fmt::Write>(&self, f: &mut Formatter<W>) -> fmt::Result {
        write!(f, " under the pattern")?;
        let Verdict::Miss(job, _) = self.0 else {
            return write!(f, " sound");
        };
        write!(f, " job {} finishes at", job.0)?;
        match self.1.get(job.0) {
            Some(finish) => write!(f, " {finish}"),
            None => Ok(()),
        }
    }
}

// What a file of at most one job holds: k, the number of jobs and the row.
#[derive(Clone, Copy)]
pub(crate) struct File<'a>(pub(crate) Contents, pub(crate) &'a [u32]);

impl Display for File<'_> {
    fn fmt<W: fmt::Write>(&self, f: &mut Formatter<W>) -> fmt::Result {
        let File(Contents { n, k }, table) = self;
        write!(f, " k {k}, jobs {n}")?;
        if 0 < *n {
            write!(f, ",{}", Words("row", table))?;
        }
        Ok(())
    }
}
