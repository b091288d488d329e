// The asks schedule and free slots.

#![tactic(auto)]

mod events;
mod idle;

pub use events::{fault_free, schedule};
pub use idle::{free_slots, idle_between};
