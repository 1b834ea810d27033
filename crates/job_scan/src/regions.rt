// For each region the first with its coordinates: regions are written as sets, and sets are known to be found equal.
ghost use Rattle.std.specs.Prelude.{◌≡◌, ℕ, ◌+◌, ◌*◌, ◌<◌, ◌≤◌, length, drop};
ghost use Rattle.said.specs.Records.{region_length};
ghost use Rattle.said.specs.Sets.{coordinates};
ghost use Rattle.limits.specs.Limits.{most_records, most_axes};
ghost use Rattle.job_scan.specs.Lent.{RegionAt, RegionsAt, FirstsOf};

use ids::identify;
use records::{coordinate, region_long};

// Writes the coordinates of the region whose axis records begin at byte p as a set, from `at` on.
fn write_region(job: &[u8], p: usize, axes: usize, work: &mut [u32], at: usize)
    requires { (p + region_length axes ≤ length job.now) × (at + 2 * (3 * axes) ≤ length work.old) × (axes ≤ most_axes) }
    ensures { RegionAt at (3 * axes) (coordinates axes (drop p job.now)) work.old work.new }
{
    for k in 0..3 * axes {
        let v = coordinate(job, p, k);
        work[at + 2 * k] = k as u32;
        work[at + 2 * k + 1] = v;
    }
}

// Writes so many regions as sets: rows from `index` on, entries from `body` on.
fn write_regions(
    job: &[u8],
    axes: usize,
    regions: usize,
    work: &mut [u32],
    index: usize,
    body: usize,
)
    requires axes_in_bounds { (regions * region_length axes ≤ length job.now) × (body + regions * (6 * axes) ≤ length work.old) × (axes ≤ most_axes) }
    requires regions_bound { (index + 2 * regions ≤ body) × (body + regions * (6 * axes) ≤ 4294967295) }
    ensures { RegionsAt index body axes regions job.now work.old work.new }
{
    let mut p = 0;
    let mut start = body;
    for r in 0..regions {
        write_region(job, p, axes, work, start);
        work[index + 2 * r] = start as u32;
        work[index + 2 * r + 1] = (3 * axes) as u32;
        p += region_long(axes);
        start += 6 * axes;
    }
}

// For each region the first with its coordinates, from `first` on; the words from `index` on are scratch.
pub fn find_firsts(job: &[u8], axes: usize, regions: usize, work: &mut [u32], index: usize)
    requires axes_in_bounds { (regions * region_length axes ≤ length job.now) × (0 < axes) × (axes ≤ most_axes) × (regions ≤ most_records) }
    requires axes_in_bounds_2 { (index + (5 * regions + regions * (6 * axes)) ≤ length work.old) × (index + (5 * regions + regions * (6 * axes)) ≤ 4294967295) }
    ensures { FirstsOf index (index + (3 * regions + regions * (6 * axes))) axes regions job.now work.old work.new }
{
    let body = index + 2 * regions;
    write_regions(job, axes, regions, work, index, body);
    let at = body + regions * (6 * axes);
    identify(work, index, regions, at, at + regions, at + 2 * regions);
}
