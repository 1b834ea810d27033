// Writes the region list: axis count, region count, then the coordinates of each region that is kept, as they stand in a source.
ghost use Rattle.std.specs.Prelude.{◌≡◌, map, ℕ, ◌+◌, ◌*◌, ◌≤◌, ◌<◌, length, get_or, take};
ghost use Rattle.laws.specs.LentRange.{seg};
ghost use Rattle.laws.specs.Bytes.{over};
ghost use Rattle.laws.specs.Bounded.{up_to};
ghost use Rattle.laws.specs.Sorting.{keep};
ghost use Rattle.rows.specs.Lent.{Put};
ghost use Rattle.store.specs.Lent.{Sourced, chain, coords_at, kept_bytes, list_bytes, marked_in};

use records::{COORDS_LONG, axis_coords};
use rows::{copy, put};
use store::Coords;

// The coordinates of one region, which stand in the source as in the axis records of a job.
#[tactic(auto, unfolding(store::specs::Lent::coords_at))]
fn write_region(out: &mut [u8], at: usize, src: &[u8], from: usize, axes: usize) -> usize
    requires axes_bound { axes < 65536 }
    requires sourced { Sourced axes src.now from }
    requires from_in_bounds { at + length (coords_at src.now axes from) ≤ length out.old }
    ensures { Put at (coords_at src.now axes from) out.old out.new result }
{
    let mut p = at;
    for a in 0..axes {
        let coords = axis_coords(from, a);
        p = copy(out, p, &src[coords..coords + COORDS_LONG]);
    }
    p
}

// The coordinates of each marked region.
fn write_kept(
    out: &mut [u8],
    at: usize,
    src: &[u8],
    work: &[u32],
    c: Coords,
    marks: &[u32],
    regions: usize,
) -> usize
    requires axes_bound { c.axes < 65536 }
    requires regions_in_bounds { regions ≤ length marks.now }
    requires regions_in_bounds_2 { c.starts + regions ≤ length work.now }
    requires by_index { (r : ℕ) → r < regions → Sourced c.axes src.now (get_or work.now (c.starts + r) 0) }
    requires regions_in_bounds_3 { at + length (kept_bytes src.now c.axes work.now c.starts (keep (marked_in marks.now) (up_to regions))) ≤ length out.old }
    ensures { Put at (kept_bytes src.now c.axes work.now c.starts (keep (marked_in marks.now) (up_to regions))) out.old out.new result }
{
    let mut p = at;
    for r in 0..regions {
        if marks[r] != 0 {
            let starts = c.starts;
            let from = work[starts + r] as usize;
            p = write_region(out, p, src, from, c.axes);
        }
    }
    p
}

// The whole list. What is read stands in work before the marks, and the marks a word a region.
pub fn write_list(
    out: &mut [u8],
    at: usize,
    src: &[u8],
    work: &[u32],
    c: Coords,
    marks: usize,
    regions: usize,
    kept: usize,
) -> usize
    requires axes_bound { c.axes < 65536 }
    requires kept_bound { kept < 65536 }
    requires regions_in_bounds { marks + regions ≤ length work.now }
    requires regions_bound { c.starts + regions ≤ marks }
    requires by_index { (r : ℕ) → r < regions → Sourced c.axes src.now (get_or (take marks work.now) (c.starts + r) 0) }
    requires regions_in_bounds_2 { at + length (list_bytes c.axes kept (kept_bytes src.now c.axes (take marks work.now) c.starts (keep (marked_in (seg marks regions work.now)) (up_to regions)))) ≤ length out.old }
    ensures { Put at (list_bytes c.axes kept (kept_bytes src.now c.axes (take marks work.now) c.starts (keep (marked_in (seg marks regions work.now)) (up_to regions)))) out.old out.new result }
{
    put(out, at, 2, c.axes as u32);
    put(out, at + 2, 2, kept as u32);
    write_kept(
        out,
        at + 4,
        src,
        &work[..marks],
        c,
        &work[marks..marks + regions],
        regions,
    )
}
