// One value of a job: its refusal, or the value in its set. The tables that this takes, over lent words.
#![tactic(auto)]

mod tables;
mod values;

pub use tables::SetTables;
pub use values::{Took, take_value};
