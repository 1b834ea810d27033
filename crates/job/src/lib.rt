// A job, from its bytes to its sets: what is tested before the first record, its records whole, and the looking at it.
#![tactic(auto)]

mod checking;
mod early;
mod head;
mod whole;

pub use checking::check;
pub use early::{check_early, work_words};
pub use head::head_regions;
pub use whole::{JobCounts, read_job};
