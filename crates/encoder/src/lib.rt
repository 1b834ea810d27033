// From a job's sets to its final groups: ids, groups by shape, merging, the groups' order, and each group's sets in the order of rows.
#![tactic(auto)]

mod arranging;
mod encoded;
mod owning;
mod places;
mod sharing;

pub use encoded::{Encoded, Gathered};
pub use owning::own;
pub use places::{Places, lay_out, log_words};
pub use sharing::{gather, regroup, tables};
