// An answer told in a report.
#![tactic(auto)]

mod report;

pub use report::{refused_words, tell, tell_refusal, tell_refused};
