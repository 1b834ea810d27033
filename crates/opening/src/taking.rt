// A job's records read by a profile: where the profile does not take a record before the one that answers, that record answers.
ghost use Rattle.std.specs.Prelude.{◌≡◌, ℕ, ◌*◌, ◌<◌, ◌≤◌, length};
ghost use Rattle.said.specs.Records.{record_start, record_count};
ghost use Rattle.limits.specs.Limits.{most_records, most_axes};
ghost use Rattle.opening.specs.LentTaken.{JobTaken};

use job::{JobCounts, read_job};
use panel::{Profile, check_records};
use refusals::Refused;

// Reads the records of a job, and then looks at those that are right by the profile: those before the one that is refused, or all.
pub fn take_job(
    profile: Profile,
    job: &[u8],
    axes: usize,
    mode: u32,
    records: usize,
    work: &mut [u32],
) -> Result<JobCounts, Refused>
    requires records_value { records ≡ record_count job.now }
    requires records_in_bounds { (record_start records ≤ length job.now) × (0 < axes) × (axes ≤ most_axes) × (records ≤ most_records) × (16 * records ≤ length work.old) }
    ensures { JobTaken profile axes mode job.now records work.old work.new result }
{
    match read_job(job, axes, mode, records, work) {
        Ok(counts) => {
            check_records(profile, job, records)?;
            Ok(counts)
        }
        Err(refused) => {
            check_records(profile, job, refused.place)?;
            Err(refused)
        }
    }
}
