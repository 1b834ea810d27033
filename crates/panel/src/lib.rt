// The panel's profile: the records of a job that the instrument's reader would not take, looked at by their bytes alone. A job is read as
// without it, and this is a pass of its own over the records that are right.
#![tactic(auto)]

mod coordinates;
mod records_of;

pub use crate::records_of::check_records;

// What a caller builds for: any reader, or the panel's.
#[derive(Clone, Copy, Debug, PartialEq, Eq)]
pub enum Profile {
    Plain,
    Panel,
}
