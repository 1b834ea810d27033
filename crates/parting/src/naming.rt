// The region of an index as the job numbers it: the one that the first value record of that index names.
ghost use Rattle.std.specs.Prelude.{◌≡◌};
ghost use Rattle.parting.specs.Part.{first_region_named, user_of};
ghost use Rattle.parting.specs.LentPart.{NamedFit, UserFit};

use job_scan::find_firsts;
use records::{Kind, is_kind, region_at};

// Of so many records the first value record whose region has q for the first like it: the region that it names. For each
// region the first like it stands in work, from `first` on.
fn first_named(job: &[u8], records: usize, work: &[u32], first: usize, q: u32) -> usize
    requires { NamedFit job.now records work.now first }
    ensures { (f : NamedFit job.now records work.now first) → result ≡ first_region_named f.regions q records job.now }
{
    for i in 0..records {
        if is_kind(job, i, Kind::Value) {
            let p = region_at(job, i);
            if work[first + p] == q {
                return p;
            }
        }
    }
    0
}

// The number in the job of the region that first used an index. Work holds the regions in use; the words behind them are
// scratch.
pub fn user(
    job: &[u8],
    axes: usize,
    records: usize,
    regions: usize,
    work: &mut [u32],
    index: u32,
) -> usize
    requires { UserFit axes job.now records regions work.old index }
    ensures { (f : UserFit axes job.now records regions work.old index) → result ≡ user_of job.now f.said index }
{
    let q = work[4 * records + index as usize];
    find_firsts(job, axes, regions, work, 5 * records);
    first_named(
        job,
        records,
        work,
        5 * records + (3 * regions + regions * (6 * axes)),
        q,
    )
}
