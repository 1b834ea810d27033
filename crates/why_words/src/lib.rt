// The answers to "why is this row here?" told in a report: why two ids are where they are, and the part that shows one.
#![tactic(auto)]

mod explained;
mod shown;
mod told;

pub use crate::explained::{Explained, explain};
pub use crate::shown::tell_shown;
pub use crate::told::tell_why;
