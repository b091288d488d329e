// The job table of a frame that is not refused.
ghost use Rattle.std.specs.Prelude.{◌≡◌, ◌≤◌, Err, MatchResult};
ghost use Rattle.jobs.specs.Table.{jobs};
ghost use Rattle.jobs.specs.Refusals.{fine, first, table_refusals};

use crate::{Refusal, check_table, jobs};
use std::marker::Model;

// A table that is not refused: its words.
#[derive(Drop)]
pub struct Table<'a> {
    words: &'a [u32],
}

impl<'a> Model for Table<'a> {
    ghost use Rattle.std.specs.Prelude.{◌≡◌, List, ℕ};
    ghost use Rattle.jobs.specs.Refusals.{fine, first, table_refusals};

    ghost Value = { List ℕ };

    ghost view = { λ table. table.words.now };

    ghost invariant = { λ table. first (table_refusals table.words.now) ≡ fine };
}

impl<'a> Table<'a> {
    // Refusals 1, 2 and 3, in this order, or a table.
    pub fn new(words: &'a [u32]) -> Result<Table<'a>, Refusal>
        ensures { MatchResult result (λ table. (table ≡ words.now) × (first (table_refusals words.now) ≡ fine)) (λ refusal. first (table_refusals words.now) ≡ Err refusal) }
    {
        check_table(words)?;
        Ok(Table { words })
    }

    // Its words.
    pub fn words(&self) -> &'a [u32]
        ensures all { result.now ≡ self.now }
        ensures good { first (table_refusals self.now) ≡ fine }
    {
        self.words
    }

    // Jobs n.
    pub fn jobs(&self) -> usize
        ensures count { result ≡ jobs self.now }
        ensures few { result ≤ 64 }
    {
        jobs(self.words)
    }
}
