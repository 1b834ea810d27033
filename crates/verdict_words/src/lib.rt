// A store judged, and the verdict told in a report.
#![tactic(auto)]

mod judged;
mod verdict;

pub use crate::judged::judge_told;
