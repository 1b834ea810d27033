// The way along a job's records: the axis records, for each region the first like it, the records of the sets.
#![tactic(auto)]

mod axes;
mod reading;
mod regions;

pub use axes::axes_end;
pub use reading::{SetCounts, read_sets};
pub use regions::find_firsts;
