// Why two ids are where they are, read off the final groups that a build has in work before it writes.
#![tactic(auto)]

mod costs;
mod homes;
mod id_rows;
mod reason;

pub use crate::reason::{Reason, reason_of};
