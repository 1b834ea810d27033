// The shape of a set: the width of its value at each region that it names, and none at all others.
ghost use Rattle.std.specs.Prelude.{◌≡◌, ◌+◌, ◌*◌, ◌/◌, ◌≤◌, length};
ghost use Rattle.sets.specs.Lent.{Stored, entries, entries_at, count_of};
ghost use Rattle.groups.specs.Groups.{shape_of};
ghost use Rattle.shaping.specs.Lent.{ShapedAt};

use shapes::ColumnBits;

// The shape of some entries, each of two words: a region and its value's word. They are walked from the last to the first: what is left is
// then a list's end.
fn widths(pairs: &[u32], shape: &mut [u32])
    ensures { shape.new ≡ shape_of (length shape.old) (entries 0 (length pairs.now / 2) pairs.now) }
{
    shape.fill(0);
    for j in (0..pairs.len() / 2).rev() {
        let region = pairs[2 * j] as usize;
        if region < shape.len() {
            shape[region] = ColumnBits::for_val(pairs[2 * j + 1]).cost();
        }
    }
}

// Writes the shape of set x into the words from `at` on.
pub fn shape_of(work: &mut [u32], index: usize, x: usize, at: usize, regions: usize)
    requires stored { Stored work.old index x }
    requires work_bound { entries_at index x work.old + 2 * count_of index x work.old ≤ at }
    requires regions_in_bounds { at + regions ≤ length work.old }
    ensures { ShapedAt index x at regions work.old work.new }
{
    let from = work[index + 2 * x] as usize;
    let m = work[index + 2 * x + 1] as usize;
    let (front, rest) = work.split_at_mut(at);
    let (shape, _) = rest.split_at_mut(regions);
    widths(&front[from..from + 2 * m], shape);
}
