// The report on a job file, as text: the verdict, a line for each job, and on a miss the pattern.

#![tactic(auto)]

ghost use Rattle.std.specs.Prelude.{◌≡◌, ◌≤◌, ◌<◌, length, ltb};
ghost use Rattle.std.proofs.Math.IntN.{sub_ℕ};
ghost use Rattle.jobs.specs.Table.{jobs, deadline};
ghost use Rattle.jobs.specs.Arrays.{values};
ghost use Rattle.jobs.specs.Refusals.{fine, first, table_refusals};
ghost use Rattle.jobfile.specs.Meaning.{meaning};
ghost use Rattle.text.specs.Text.{labelled, each, most_bytes};
ghost use Rattle.text.specs.Growing.{Puts};
ghost use Rattle.report_text.specs.Report.{verdict_text, first_line, job_line, job_lines, pattern_line, lines, Judges, Says, Reports};
ghost use Rattle.report_text.specs.Writing.{Writes};

use frame::Verdict;
use jobfile::Contents;
use jobs::Job;
use text::{MOST_BYTES, Text};

// No report is longer.
pub const MOST_TEXT: usize = 2_048;

// What is reported on a table: k, the verdict, the fault-free and the latest finishes of its jobs, and a pattern.
#[derive(Drop)]
struct Reported<'a> {
    table: &'a [u32],
    k: u32,
    verdict: Verdict,
    early: &'a [u32; 64],
    late: &'a [u32; 64],
    pattern: &'a [u32; 64],
    ghost few_jobs: { jobs table.now ≤ 64 },
}

impl Reported<'_> {
    // The verdict and the named job, in the first line.
    fn put_verdict(&self, text: &mut Text<'_>)
        ensures { Puts (verdict_text self.now.verdict) text.old text.new }
    {
        match self.verdict {
            Verdict::Sound => text.put(b" sound"),
            Verdict::Miss(job, _) => text.put_labelled(b" miss ", job.0 as u64),
        }
    }

    // First line: k, number of jobs, verdict.
    fn put_first_line(&self, text: &mut Text<'_>)
        ensures { Puts (first_line self.now.k (jobs self.now.table.now) self.now.verdict) text.old text.new }
    {
        text.put_labelled(b"k ", u64::from(self.k));
        text.put_labelled(b" jobs ", jobs::jobs(self.table) as u64);
        self.put_verdict(text);
        text.put(b"\n");
    }

    // A job's line: its number, fault-free finish, latest finish, margin.
    fn put_job_line(&self, text: &mut Text<'_>, job: Job)
        requires { job.0 < jobs self.now.table.now }
        ensures { Puts (job_line job.0 (values self.now.early.now job.0) (values self.now.late.now job.0)
            (sub_ℕ (deadline self.now.table.now job.0) (values self.now.late.now job.0))) text.old text.new }
    {
        let early = self.early[job.0];
        let late = self.late[job.0];
        text.put_decimal(job.0 as u64);
        text.put_labelled(b" ", u64::from(early));
        text.put_labelled(b" ", u64::from(late));
        text.put(b" ");
        text.put_signed(judge::margin(self.table, job, late));
        text.put(b"\n");
    }

    // The lines of the jobs.
    fn put_job_lines(&self, text: &mut Text<'_>)
        ensures { Puts (job_lines self.now.table.now (values self.now.early.now) (values self.now.late.now) (jobs self.now.table.now)) text.old text.new }
    {
        for i in 0..jobs::jobs(self.table) {
            self.put_job_line(text, Job(i));
        }
    }

    // The counts of the pattern in job order.
    fn put_counts(&self, text: &mut Text<'_>)
        ensures { Puts (each (jobs self.now.table.now) (λ i. labelled " " (values self.now.pattern.now i))) text.old text.new }
    {
        for &count in &self.pattern[..jobs::jobs(self.table)] {
            text.put_labelled(b" ", u64::from(count));
        }
    }

    // The pattern line, on a miss.
    fn put_pattern_line(&self, text: &mut Text<'_>)
        ensures { Puts (pattern_line (jobs self.now.table.now) self.now.verdict self.now.pattern.now) text.old text.new }
    {
        if let Verdict::Miss(..) = self.verdict {
            text.put(b"pattern");
            self.put_counts(text);
            text.put(b"\n");
        }
    }

    // The lines of a report.
    fn put_lines(&self, text: &mut Text<'_>)
        ensures { Puts (lines self.now.table.now self.now.k self.now.verdict (values self.now.early.now) (values self.now.late.now) self.now.pattern.now) text.old text.new }
    {
        self.put_first_line(text);
        self.put_job_lines(text);
        self.put_pattern_line(text);
    }
}

// The report on a good table. The judge never refuses it.
fn put_judged(text: &mut Text<'_>, table: &[u32], k: u32)
    requires { (first (table_refusals table.now) ≡ fine) × (k < 9) }
    ensures { Writes (Judges table.now k) text.old text.new }
{
    let early = schedule::fault_free(table);
    let mut late = [0; 64];
    let mut pattern = [0; 64];
    if let Ok(verdict) = judge::judge(table, k, &mut late, &mut pattern) {
        let reported = Reported {
            table,
            k,
            verdict,
            early: &early,
            late: &late,
            pattern: &pattern,
        };
        reported.put_lines(text);
    }
}

// The report on an input.
fn put_report(text: &mut Text<'_>, file: &[u8])
    ensures { Writes (Says (ltb most_bytes (length file.now)) (meaning file.now)) text.old text.new }
{
    if MOST_BYTES < file.len() {
        return text.put_too_long();
    }
    let mut table = [0; 256];
    match jobfile::read(file, &mut table) {
        Err(refusal) => text.put_refusal(refusal),
        Ok(Contents { n, k }) => put_judged(text, &table[..n * jobs::ROW], k),
    }
}

// Report: the text of the report on a job file at the start of the lent buffer, and how many bytes of it are there. A buffer of
// MOST_TEXT bytes holds every report.
pub fn report(file: &[u8], buffer: &mut [u8]) -> usize
    ensures { Reports file.now buffer.old result buffer.new }
{
    let mut text = Text::new(buffer);
    put_report(&mut text, file);
    text.at
}
