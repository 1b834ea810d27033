// Rows and subtables written: a set laid into its row, a subtable, the runs of a group (`write_runs`).
#![tactic(auto)]

mod block;
mod columns;
mod row;
mod sets;
mod subtable;

pub use sets::SetList;
pub use subtable::write_runs;
