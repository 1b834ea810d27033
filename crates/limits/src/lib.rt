// How much there may be of what a job holds and of what is made of it: each limit once, for code. specs/Limits has the same numbers for
// contracts and laws.
#![tactic(auto)]

#[derive(Drop)]
pub struct Limits {}

impl Limits {
    // Records of a job.
    pub const RECORDS: usize = 1048576;

    // Axes of a region, from 1 on.
    pub const AXES: u32 = 64;

    // Regions of a job.
    pub const REGIONS: usize = 32767;

    // Distinct shapes of a job's sets, in mode 0.
    pub const SHAPES: usize = 1024;

    // Rows of a subtable.
    pub const ITEMS: usize = 65535;

    // Pair records that are lent, or more.
    pub const PAIRS: usize = 1048576;
}
