// What a store will be, before its first byte is written: the regions that it keeps, how many subtables and how many bytes it has.
ghost use Rattle.std.specs.Prelude.{◌≡◌, [], ◌∷◌, ℕ, ◌+◌, ◌*◌, ◌≤◌, ◌<◌, length, take};
ghost use Rattle.laws.specs.LentRange.{Only, seg};
ghost use Rattle.store.specs.Lent.{Drafted, Handed, Small};
ghost use Rattle.limits.specs.Limits.{most_axes, max_regions, max_shapes};

use crate::regions::{mark_groups, number};
use crate::size::size_groups;
use laws::zero_part;
use store::Finals;

#[derive(Clone, Copy)]
pub struct Plan {
    pub bytes: usize,
    pub runs: usize,
    pub kept: usize,
}

// Marks and numbers the regions of the groups, and sums the bytes of the store. The groups and their sets stand before `scratch`, marks and
// numbers from there on, a word a region each.
pub fn draft(axes: usize, work: &mut [u32], t: Finals, scratch: usize) -> Plan
    requires axes_le_most_axes { axes ≤ most_axes }
    requires regions_le_max_regions { t.regions ≤ max_regions }
    requires count_le_max_shapes { t.count ≤ max_shapes }
    requires count_bound { t.groups + 3 * t.count ≤ scratch }
    requires by_index { (g : ℕ) → g < t.count → Handed t.regions t.index (take scratch work.old) (t.groups + 3 * g) }
    requires by_index_2 { (g : ℕ) → g < t.count → Small (take scratch work.old) (t.groups + 3 * g) }
    requires regions_in_bounds { scratch + t.regions + t.regions ≤ length work.old }
    ensures drafted { Drafted axes (take scratch work.old) t.regions t.groups t.count (seg scratch t.regions work.new) (seg (scratch + t.regions) t.regions work.new) result.bytes result.runs result.kept }
    ensures only { Only ((scratch, 2 * t.regions) ∷ []) work.old work.new }
{
    let sum = size_groups(&work[..scratch], t);
    let regions = t.regions;
    zero_part(work, scratch, regions);
    mark_groups(work, t, scratch);
    let kept = number(work, scratch, scratch + regions, regions);
    let runs = sum.runs;
    Plan {
        bytes: 8 + 4 * runs + (4 + 6 * axes * kept) + sum.bytes,
        runs,
        kept,
    }
}
