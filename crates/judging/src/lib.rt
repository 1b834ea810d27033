// Judging a store that was built elsewhere: whether it gives every set of a job at the row that the set's word names.
#![tactic(auto)]

mod judging;
mod storing;
mod work;

pub use crate::judging::{Verdict, judge};
pub use crate::work::judge_words;
