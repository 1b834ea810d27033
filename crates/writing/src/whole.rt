// Writes the whole store: header, offsets, region list, subtables, with no gaps.
ghost use Rattle.std.specs.Prelude.{◌≡◌, [], ◌∷◌, ◌+◌, ◌*◌, ◌≤◌, ◌<◌, length, take};
ghost use Rattle.laws.specs.LentRange.{Only, seg};
ghost use Rattle.store.specs.Placing.{store_of};
ghost use Rattle.rows.specs.Lent.{Put, set_at};
ghost use Rattle.store.specs.Lent.{Planned, Ready, coords_in, finals_at, header_bytes};

use crate::groups::write_groups;
use crate::list::write_list;
use crate::spots::write_spots;
use planning::Plan;
use rows::put;
use store::{Coords, Finals};

fn write_header(out: &mut [u8], runs: usize) -> usize
    requires in_bounds { 8 ≤ length out.old }
    requires runs_bound { runs < 65536 }
    ensures { Put 0 (header_bytes runs) out.old out.new result }
{
    put(out, 0, 2, 1);
    put(out, 2, 4, (8 + 4 * runs) as u32);
    put(out, 6, 2, runs as u32);
    8
}

// The store of the groups over the regions whose coordinates stand in src. Everything that is read stands in work before `scratch`, and
// marks and numbers, as they were planned, from there on.
pub fn write_store(
    out: &mut [u8],
    src: &[u8],
    c: Coords,
    work: &mut [u32],
    t: Finals,
    scratch: usize,
    plan: Plan,
) -> usize
    requires regions_in_bounds { scratch + 4 * t.regions ≤ length work.old }
    requires ready { Ready src.now c.axes c.starts (take scratch work.old) t.regions t.groups t.count t.index }
    requires planned { Planned c.axes (take scratch work.old) t.regions t.groups t.count (seg scratch t.regions work.old) (seg (scratch + t.regions) t.regions work.old) plan.runs plan.kept }
    requires work_in_bounds { length (store_of c.axes (coords_in src.now c.axes (take scratch work.old) c.starts t.regions) (set_at t.index (take scratch work.old)) (finals_at t.regions t.groups t.count (take scratch work.old))) ≤ length out.old }
    ensures put { Put 0 (store_of c.axes (coords_in src.now c.axes (take scratch work.old) c.starts t.regions) (set_at t.index (take scratch work.old)) (finals_at t.regions t.groups t.count (take scratch work.old))) out.old out.new result }
    ensures only { Only ((scratch + 2 * t.regions, 2 * t.regions) ∷ []) work.old work.new }
{
    let at = write_header(out, plan.runs);
    let first = 8 + 4 * plan.runs + (4 + 6 * c.axes * plan.kept);
    let spots = write_spots(out, at, first, &work[..scratch], t);
    let list = write_list(out, spots.at, src, work, c, scratch, t.regions, plan.kept);
    write_groups(out, list, work, t, scratch)
}
