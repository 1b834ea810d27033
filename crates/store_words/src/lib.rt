// What was made of a store, told in a report: a job (#105), or a store with only the rows in use (#112).
#![tactic(auto)]

mod counts;
mod kept;
mod recovered;

pub use crate::kept::keep_told;
pub use crate::recovered::recover_told;
