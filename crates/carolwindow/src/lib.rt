// The C interface: each function calls an ask and packs its answer into 64 bits. `include/carolwindow.h` declares them for C.

#![tactic(auto)]

mod value;

ghost use Rattle.std.specs.Prelude.{◌≡◌, ℕ, Result};
ghost use Rattle.jobs.specs.Refusals.{Check};
ghost use Rattle.jobs.specs.declared.refusal.Refusal.{Refusal};
ghost use Rattle.frame.specs.declared.Verdict.{Verdict};
ghost use Rattle.schedule.specs.Asks.{Scheduled, free_slots_answer};
ghost use Rattle.delays.specs.Ask.{Delayed};
ghost use Rattle.judge.specs.Asks.{Judging, Reaching};
ghost use Rattle.jobfile.specs.Meaning.{ReadsTo};
ghost use Rattle.jobfile.specs.declared.Contents.{Contents};
ghost use Rattle.jobfile_write.specs.Writing.{WritesTo};
ghost use Rattle.carolwindow.specs.Answers.{packed, code, no_value, number_value, verdict_value, contents_value, Packs};

use crate::value::Value;
use jobs::Refusal;

// The largest value, 2⁵⁶ − 1.
const MOST: u64 = 72_057_594_037_927_935;

// A number and a value or place in 64 bits.
fn pack(number: u32, value: u64) -> u64
    ensures { result ≡ packed number value }
{
    u64::from(number % 256) * (MOST + 1) + value.min(MOST)
}

// An answer in 64 bits: its value, or the refusal's number and place.
fn code<T: Value>(answer: Result<T, Refusal>) -> u64
    ensures { result ≡ code T.value answer }
{
    match answer {
        Ok(answer) => pack(0, answer.value()),
        Err(refusal) => pack(u32::from(refusal.reason), refusal.place as u64),
    }
}

// Finishes under a given pattern: value 0.
#[unsafe(no_mangle)]
pub extern "C" fn carolwindow_schedule(table: &[u32], pattern: &[u32], finishes: &mut [u32]) -> u64
    ensures { Packs Check (code no_value) (Scheduled table.now pattern.now finishes.old finishes.new) result }
{
    code(schedule::schedule(table, pattern, finishes))
}

// Free slots from a to b: the count.
#[unsafe(no_mangle)]
pub extern "C" fn carolwindow_free_slots(table: &[u32], a: u32, b: u32) -> u64
    ensures { result ≡ code number_value (free_slots_answer table.now a b) }
{
    code(schedule::free_slots(table, a, b))
}

// The delay of each job for k faults: value 0.
#[unsafe(no_mangle)]
pub extern "C" fn carolwindow_delays(table: &[u32], k: u32, delays: &mut [u32]) -> u64
    ensures { Packs Check (code no_value) (Delayed table.now k delays.old delays.new) result }
{
    code(delays::delays(table, k, delays))
}

// Verdict, latest finishes and a pattern for k faults: 0 sound, 1 + job for a miss.
#[unsafe(no_mangle)]
pub extern "C" fn carolwindow_judge(
    table: &[u32],
    k: u32,
    finishes: &mut [u32],
    pattern: &mut [u32],
) -> u64
    ensures { Packs (Result Verdict Refusal) (code verdict_value) (Judging table.now k finishes.old finishes.new pattern.old pattern.new) result }
{
    code(judge::judge(table, k, finishes, pattern))
}

// A pattern of at most k faults that reaches a job's latest finish: value 0.
#[unsafe(no_mangle)]
pub extern "C" fn carolwindow_pattern(table: &[u32], k: u32, job: u32, pattern: &mut [u32]) -> u64
    ensures { Packs Check (code no_value) (Reaching table.now k job pattern.old pattern.new) result }
{
    code(judge::pattern_of(table, k, job, pattern))
}

// Reads a job file into a table: 256 × k + n.
#[unsafe(no_mangle)]
pub extern "C" fn carolwindow_read(file: &[u8], table: &mut [u32]) -> u64
    ensures { Packs (Result Contents Refusal) (code contents_value) (λ answer. ReadsTo file.now table.old answer table.new) result }
{
    code(jobfile::read(file, table))
}

// Writes a table and k as a job file: its length.
#[unsafe(no_mangle)]
pub extern "C" fn carolwindow_write(table: &[u32], k: u32, file: &mut [u8]) -> u64
    ensures { Packs (Result ℕ Refusal) (code number_value) (λ answer. WritesTo table.now k file.old answer file.new) result }
{
    code(jobfile_write::write(table, k, file))
}
