// What a build has made of its sets.

// Distinct ids, final groups, N, merges, pairs weighed, and the modelled size before and after merging.
#[derive(Clone, Copy)]
pub struct Encoded {
    pub distinct: usize,
    pub count: usize,
    pub groups: usize,
    pub merges: usize,
    pub weighed: usize,
    pub before: u64,
    pub after: u64,
}

// How many groups there are, of how many distinct sets.
#[derive(Clone, Copy)]
pub struct Gathered {
    pub groups: usize,
    pub distinct: usize,
}
