// A look at the final groups of a job, in mode 0: the way of a build up to where it would write, and why two ids are where they are.
#![tactic(auto)]

mod closing;

pub use crate::closing::{look_close, look_stage};
