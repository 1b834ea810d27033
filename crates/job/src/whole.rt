// A job's records, whole: axis records, first regions, sets.
ghost use Rattle.std.specs.Prelude.{◌≡◌, ℕ, ◌+◌, ◌*◌, ◌/◌, ◌%◌, ◌<◌, ◌≤◌, length};
ghost use Rattle.said.specs.Records.{record_start, region_length};
ghost use Rattle.said.specs.Sets.{region_list};
ghost use Rattle.said.specs.Job.{regions_only};
ghost use Rattle.values.specs.Lent.{Holds};
ghost use Rattle.limits.specs.Limits.{most_records, most_axes};
ghost use Rattle.job.specs.Lent.{Prepared, set_tables_at, JobRead};

use job_scan::{axes_end, find_firsts, read_sets};
use laws::zero_part;
use refusals::Refused;
use values::SetTables;

// What a job says, in numbers: its regions, its sets, its values, the regions in use.
#[derive(Clone, Copy, Debug, PartialEq, Eq)]
pub struct JobCounts {
    pub regions: usize,
    pub sets: usize,
    pub values: usize,
    pub uses: usize,
}

// The tables before the first set, where the axis records of so many regions are read.
fn prepare(job: &[u8], axes: usize, regions: usize, records: usize, work: &mut [u32])
    requires axes_in_bounds { (regions * region_length axes ≤ length job.now) × (0 < axes) × (axes ≤ most_axes) × (records ≤ most_records) }
    requires records_in_bounds { (16 * records ≤ length work.old) × (regions * (6 * axes) ≤ 6 * records) × (regions ≤ records) }
    ensures { Prepared axes regions records job.now work.old work.new }
{
    find_firsts(job, axes, regions, work, 5 * records);
    zero_part(work, 5 * records, 2 * regions);
}

// Where the tables stand for a job of so many records.
fn tables_at(records: usize, axes: usize, regions: usize) -> SetTables
    requires { (records ≤ most_records) × (axes ≤ most_axes) × (regions * (6 * axes) ≤ 6 * records) × (regions ≤ records) }
    ensures { result ≡ set_tables_at records axes regions }
{
    SetTables {
        rows: 0,
        body: 2 * records,
        used: 4 * records,
        slot: 5 * records,
        stamp: 5 * records + regions,
        first: 5 * records + (3 * regions + regions * (6 * axes)),
        regions,
    }
}

// Reads a job's records: the earliest bad one answers, or work holds its sets.
pub fn read_job(
    job: &[u8],
    axes: usize,
    mode: u32,
    records: usize,
    work: &mut [u32],
) -> Result<JobCounts, Refused>
    requires { (record_start records ≤ length job.now) × (0 < axes) × (axes ≤ most_axes) × (records ≤ most_records) × (16 * records ≤ length work.old) }
    ensures { JobRead axes mode job.now records work.old work.new result }
{
    let from = axes_end(job, axes, records)?;
    let regions = from / axes;
    prepare(job, axes, regions, records, work);
    let t = tables_at(records, axes, regions);
    let counts = read_sets(job, axes, records, from, mode, work, t)?;
    Ok(JobCounts {
        regions,
        sets: counts.sets,
        values: counts.values,
        uses: counts.uses,
    })
}
