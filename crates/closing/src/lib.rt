// The last part of a build and of a forecast, once merging is over.
#![tactic(auto)]

mod closing;
mod foretelling;

pub use closing::{close, close_stage};
pub use foretelling::{foresee, foresee_stage};
