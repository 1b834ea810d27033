// The first part of a build: a job's records read into work, its sets grouped.
#![tactic(auto)]

mod opening;
mod taking;

pub use opening::{Stage, nowhere, open, open_records};
