// Where two sets of a job part: the job is read as a build reads it, two of its sets are compared, and the region is told
// as the job numbers it, too.
#![tactic(auto)]

mod answering;
mod naming;

pub use crate::answering::{Standing, part};
