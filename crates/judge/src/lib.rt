// The judge: latest finishes over all patterns of at most k faults, the verdict, and patterns that reach a latest finish.

#![tactic(auto)]

mod asks;
mod late;
mod row;
mod trail;
mod turns;

pub use asks::{judge, margin, pattern_of};
