// The axis records: the regions of the store's list, in its order.
ghost use Rattle.std.specs.Prelude.{◌≡◌, true, ◌+◌, ◌*◌, ◌≤◌, ◌<◌, length, drop};
ghost use Rattle.reader.specs.Store.{is_header_ok, axis_count};
ghost use Rattle.rows.specs.Lent.{Put};
ghost use Rattle.stores.specs.Stores.{store_at};
ghost use Rattle.recovering.specs.Recovering.{axes_from, regions_from};

use crate::records::put_axis;
use reader::be;

// Those of region q, whose coordinates stand from `from` on.
fn write_axes(out: &mut [u8], at: usize, q: usize, s: &[u8], from: usize, axes: usize) -> usize
    requires record_fits { (q < 65536) × (axes < 256) × (from + 6 * axes ≤ length s.now) }
    requires s_in_bounds { at + length (axes_from q 0 axes (drop from s.now)) ≤ length out.old }
    ensures { Put at (axes_from q 0 axes (drop from s.now)) out.old out.new result }
{
    let mut p = at;
    for a in 0..axes {
        put_axis(out, p, q, a, s, from + 6 * a);
        p += 12;
    }
    p
}

pub fn write_regions(out: &mut [u8], s: &[u8]) -> usize
    requires s_value { (is_header_ok s.now ≡ true) × (axis_count s.now < 256) }
    requires s_in_bounds { length (regions_from (store_at s.now).axes 0 (store_at s.now).regions) ≤ length out.old }
    ensures { Put 0 (regions_from (store_at s.now).axes 0 (store_at s.now).regions) out.old out.new result }
{
    let list = be(s, 2, 4);
    let axes = be(s, list, 2);
    let n = be(s, list + 2, 2);
    let mut p: usize = 0;
    let mut from = list + 4;
    for q in 0..n {
        p = write_axes(out, p, q, s, from, axes);
        from += 6 * axes;
    }
    p
}
