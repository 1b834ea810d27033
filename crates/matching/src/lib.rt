// The regions of a store's list beside those that a job has in use: for each of them the first with its coordinates. Regions are written as sets, and
// sets are known to be found equal.
#![tactic(auto)]

ghost use Rattle.std.specs.Prelude.{◌≡◌, ℕ, ◌+◌, ◌*◌, ◌<◌, ◌≤◌, length, drop};
ghost use Rattle.limits.specs.Limits.{most_axes};
ghost use Rattle.said.specs.Records.{region_length};
ghost use Rattle.said.specs.Sets.{coordinates};
ghost use Rattle.reader.specs.Store.{words};
ghost use Rattle.job_scan.specs.Lent.{RegionAt};
ghost use Rattle.matching.specs.Lent.{side_at, total, SidesFit, Written, Matched};

use ids::identify;
use laws::wide;
use reader::be;
use records::{coordinate, region_long};

// Where both stand: in the store from byte `list` on the coordinates of so many listed regions, and in work from `used` on the numbers that the job
// has for so many regions in use. The words of work from `index` on are scratch, and hold the answer.
#[derive(Clone, Copy)]
pub struct Sides {
    pub axes: usize,
    pub list: usize,
    pub listed: usize,
    pub used: usize,
    pub uses: usize,
    pub index: usize,
}

// Writes n coordinates of a listed region, which begin at byte p, as a set, from `at` on.
fn write_listed(store: &[u8], p: usize, n: usize, work: &mut [u32], at: usize)
    requires { (p + 2 * n ≤ length store.now) × (at + 2 * n ≤ length work.old) × (n ≤ 65536) }
    ensures { RegionAt at n (words store.now p n) work.old work.new }
{
    for k in 0..n {
        let v = be(store, p + 2 * k, 2);
        work[at + 2 * k] = k as u32;
        work[at + 2 * k + 1] = v as u32;
    }
}

// The same of the job's region whose axis records begin at byte p.
fn write_used(job: &[u8], p: usize, axes: usize, work: &mut [u32], at: usize)
    requires { (p + region_length axes ≤ length job.now) × (at + 2 * (3 * axes) ≤ length work.old) × (axes ≤ most_axes) }
    ensures { RegionAt at (3 * axes) (coordinates axes (drop p job.now)) work.old work.new }
{
    for k in 0..3 * axes {
        let v = coordinate(job, p, k);
        work[at + 2 * k] = k as u32;
        work[at + 2 * k + 1] = v;
    }
}

// Writes region x of both as a set, from `at` on.
fn write_side(store: &[u8], job: &[u8], t: Sides, work: &mut [u32], x: usize, at: usize)
    requires sides_fit { SidesFit store.now job.now t work.old }
    requires x_bound { (x < total t) × (at + 6 * t.axes ≤ length work.old) }
    ensures { RegionAt at (3 * t.axes) (side_at store.now job.now work.old t x) work.old work.new }
{
    if x < t.listed {
        write_listed(store, t.list + x * (6 * t.axes), 3 * t.axes, work, at);
    } else {
        let q = wide(work[t.used + (x - t.listed)]);
        write_used(job, q * region_long(t.axes), t.axes, work, at);
    }
}

// Writes all of them: rows from `index` on, entries behind them.
fn write_sides(store: &[u8], job: &[u8], t: Sides, work: &mut [u32])
    requires { SidesFit store.now job.now t work.old }
    ensures { Written store.now job.now t work.old work.new }
{
    let all = t.listed + t.uses;
    let mut start = t.index + 2 * all;
    for x in 0..all {
        write_side(store, job, t, work, x, start);
        work[t.index + 2 * x] = start as u32;
        work[t.index + 2 * x + 1] = (3 * t.axes) as u32;
        start += 6 * t.axes;
    }
}

// For each region of both, the listed ones first, the first with its coordinates.
pub fn match_regions(store: &[u8], job: &[u8], t: Sides, work: &mut [u32])
    requires { SidesFit store.now job.now t work.old }
    ensures { Matched store.now job.now t work.old work.new }
{
    let all = t.listed + t.uses;
    write_sides(store, job, t, work);
    let at = t.index + 2 * all + all * (6 * t.axes);
    identify(work, t.index, all, at, at + all, at + 2 * all);
}
