// Groups in slots of lent words: where the tables of a merge lie, what two groups gain, and joining them.
#![tactic(auto)]

mod groups;
mod tables;

pub use groups::{join_slots, measure_all, size, weigh};
pub use tables::MergeTables;
