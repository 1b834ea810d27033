// The tables of the walk along the sets: region indexes by first use, and the entries of the set that has not ended.
ghost use Rattle.std.specs.Prelude.{◌≡◌, List, ℕ, ◌+◌, ◌*◌, ◌<◌, ◌≤◌, length};
ghost use Rattle.values.specs.Lent.{Uses, UsedNow, UseKept, PutEntry};

// Where the tables stand in work: rows and entries of the sets; regions in use by index; for each region its index and one, the last set
// that named it, and the first region like it.
#[derive(Clone, Copy, Debug, PartialEq, Eq)]
pub struct SetTables {
    pub rows: usize,
    pub body: usize,
    pub used: usize,
    pub slot: usize,
    pub stamp: usize,
    pub first: usize,
    pub regions: usize,
}

// The index of region q, where `count` regions are in use: the next one at its first use.
pub fn use_region(
    work: &mut [u32],
    slot: usize,
    regions: usize,
    used: usize,
    count: usize,
    q: usize,
) -> usize
    requires q_lt_regions { (q < regions) × (slot + regions ≤ length work.old) × (used + count < slot) }
    requires count_bound { (count < 4294967295) × (q < 4294967296) }
    ensures by_index { (l : List ℕ) → length l ≡ count → Uses work.old slot used regions l → UsedNow slot used regions count q l work.old work.new result }
    ensures use_kept { UseKept slot used regions count work.old work.new result }
{
    let s = work[slot + q] as usize;
    if s != 0 {
        return s - 1;
    }
    work[slot + q] = (count + 1) as u32;
    work[used + count] = q as u32;
    count
}

// Puts an entry behind the `count` entries from `start` on: a set is sorted when it ends.
pub fn put_entry(work: &mut [u32], start: usize, count: usize, k: u32, v: u32)
    requires { start + 2 * count + 2 ≤ length work.old }
    ensures { PutEntry start count k v work.old work.new }
{
    work[start + 2 * count] = k;
    work[start + 2 * count + 1] = v;
}
