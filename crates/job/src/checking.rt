// A job looked at and not built: where it is refused, or how much it says (RULES R1 to R9).
ghost use Rattle.std.specs.Prelude.{◌≡◌, length};
ghost use Rattle.said.specs.Job.{outcome};
ghost use Rattle.job.specs.Check.{checked, checked_of, uses_in, uses_of, work_left};

use crate::early::check_early;
use crate::whole::{JobCounts, read_job};
use records::records_in;
use refusals::Refused;

// Looks at every job, sound or not, where so many pair records are lent; work is as it was after refusals 1 to 4, else all zeros.
pub fn check(
    axes: u32,
    mode: u32,
    job: &[u8],
    work: &mut [u32],
    pairs: usize,
) -> Result<JobCounts, Refused>
    ensures value { checked result ≡ checked_of (outcome axes mode job.now (length work.old) pairs) }
    ensures uses { uses_in result ≡ uses_of (outcome axes mode job.now (length work.old) pairs) }
    ensures work_after { work.new ≡ work_left axes mode job.now pairs work.old }
{
    check_early(axes, mode, job, work.len(), pairs)?;
    let answer = read_job(job, axes as usize, mode, records_in(job.len()), work);
    work.fill(0);
    match answer {
        Ok(counts) => Ok(counts),
        Err(refused) => Err(refused),
    }
}
