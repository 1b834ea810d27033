// An item variation store as a definition, with its laws; and what is done for one of its parts: the regions that one shape names, the
// size and the offset of one subtable, the map words of one run.
#![tactic(auto)]

ghost use Rattle.std.specs.Prelude.{◌≡◌, ◌+◌, ◌≤◌, ◌<◌, length};
ghost use Rattle.laws.specs.LentRange.{seg};
ghost use Rattle.laws.specs.Every.{All};
ghost use Rattle.limits.specs.Limits.{max_items};
ghost use Rattle.store.specs.Placing.{in_run, stored};
ghost use Rattle.store.specs.Lent.{NamedIn, spot_of, subtable_size};

// Where the final groups stand in work: `count` of them, three words each from `groups` on (where the shape is, where the numbers of
// the sets are, how many there are). A shape has a word for each of so many `regions`; the index of the sets starts at `index`.
#[derive(Clone, Copy)]
pub struct Finals {
    pub regions: usize,
    pub groups: usize,
    pub count: usize,
    pub index: usize,
}

// Where the coordinates of regions stand in a job: those of region r, on so many `axes`, start where word r from `starts` on says.
#[derive(Clone, Copy)]
pub struct Coords {
    pub axes: usize,
    pub starts: usize,
}

// Marks each region that has a width in a shape. The shape stands in work, and the marks behind it.
pub fn mark_shape(work: &mut [u32], shape: usize, regions: usize, marks: usize)
    requires regions_bound { shape + regions ≤ marks }
    requires regions_in_bounds { marks + regions ≤ length work.old }
    ensures { NamedIn shape regions marks work.old work.new }
{
    for r in 0..regions {
        if work[shape + r] != 0 {
            work[marks + r] = 1;
        }
    }
}

// The bytes of a subtable of n columns and rows of so many bytes; one of no rows has none.
#[tactic(auto, unfolding(crate::specs::Lent::subtable_size))]
pub fn table_size(n: usize, row: usize, items: usize) -> usize
    requires n_bound { n < 65536 }
    requires row_bound { row < 262144 }
    requires le_max_items { items ≤ max_items }
    ensures value { result ≡ subtable_size n row items }
    ensures upper_bound { result ≤ 34359738368 }
{
    if items == 0 {
        return 0;
    }
    6 + 2 * n + items * row
}

// The offset to write for a subtable of a size.
#[tactic(auto, unfolding(crate::specs::Lent::spot_of))]
pub fn offset(at: usize, size: usize) -> u32
    requires { at < 4294967296 }
    ensures { result ≡ spot_of at size }
{
    if size == 0 {
        return 0;
    }
    at as u32
}

// The rows of one run.
pub fn map_run(work: &[u32], ids: usize, items: usize, outer: usize, map: &mut [u32])
    requires in_bounds { ids + items ≤ length work.now }
    requires le_max_items { items ≤ max_items }
    requires outer_bound { outer < 65536 }
    requires all { All (λ x. x < length map.old) (seg ids items work.now) }
    ensures { map.new ≡ stored (in_run outer 0 (seg ids items work.now)) map.old }
{
    for i in 0..items {
        let x = work[ids + i] as usize;
        map[x] = (outer * 65536 + i) as u32;
    }
}
