// What a done build answers.

// Store bytes, subtables, regions kept, distinct ids, N, merges, pairs weighed, the modelled size before and after merging, the forecast.
#[derive(Clone, Copy, Debug, PartialEq, Eq)]
pub struct Report {
    pub bytes: usize,
    pub subtables: usize,
    pub regions: usize,
    pub ids: usize,
    pub groups: usize,
    pub merges: usize,
    pub weighed: usize,
    pub before: u64,
    pub after: u64,
    pub forecast: u64,
}
