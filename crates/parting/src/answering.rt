// Two sets of a job compared, by their numbers.
ghost use Rattle.std.specs.Prelude.{◌≡◌, length};
ghost use Rattle.limits.specs.Limits.{pair_records};
ghost use Rattle.job.specs.Check.{work_left};
ghost use Rattle.said.specs.LentOpen.{Open};
ghost use Rattle.said.specs.Records.{record_count};
ghost use Rattle.said.specs.Job.{records_from, in_axes};
ghost use Rattle.parting.specs.Answers.{parted};
ghost use Rattle.parting.specs.Part.{parted_in, parted_of, part_of};
ghost use Rattle.parting.specs.LentPart.{JobStands};

use crate::naming::user;
use comparing::compare;
use job::{check_early, read_job};
use limits::Limits;
use records::records_in;
use refusals::{Refusal, Refused};
use sets::Parting;

// How the first set stands to the second, and where they are not equal: the first region index where they differ, the number in the job of the
// region that first used that index, the word of the first set there and that of the second.
#[derive(Clone, Copy, Debug, PartialEq, Eq)]
pub enum Standing {
    Equal,
    Smaller(u32, usize, u32, u32),
    Larger(u32, usize, u32, u32),
}

// Of a job whose sets work holds.
fn between(
    job: &[u8],
    axes: usize,
    records: usize,
    regions: usize,
    sets: usize,
    first: usize,
    second: usize,
    work: &mut [u32],
) -> Result<Standing, Refused>
    requires { JobStands axes job.now records regions sets work.old }
    ensures { (f : JobStands axes job.now records regions sets work.old) → parted result ≡ parted_in job.now first second f.held.said }
{
    if sets <= first {
        return Err(Refused {
            refusal: Refusal::NoSet,
            place: 0,
        });
    }
    if sets <= second {
        return Err(Refused {
            refusal: Refusal::NoSet,
            place: 0,
        });
    }
    match compare(work, 0, first, second) {
        Parting::Equal => Ok(Standing::Equal),
        Parting::Smaller(r, v, u) => {
            let p = user(job, axes, records, regions, work, r);
            Ok(Standing::Smaller(r, p, v, u))
        }
        Parting::Larger(r, v, u) => {
            let p = user(job, axes, records, regions, work, r);
            Ok(Standing::Larger(r, p, v, u))
        }
    }
}

// Of a job that was not refused before its first record: work is left as it comes.
fn part_records(
    axes: u32,
    job: &[u8],
    first: u32,
    second: u32,
    work: &mut [u32],
) -> Result<Standing, Refused>
    requires { Open axes 0 job.now (length work.old) pair_records }
    ensures { parted result ≡ parted_of job.now first second (records_from axes 0 job.now job.now (record_count job.now) 0 in_axes) }
{
    let axes = axes as usize;
    let records = records_in(job.len());
    let counts = read_job(job, axes, 0, records, work)?;
    between(
        job,
        axes,
        records,
        counts.regions,
        counts.sets,
        first as usize,
        second as usize,
        work,
    )
}

// Looks at every job, sound or not; no pair records are asked for. Work is as it was after refusals 1 to 4, else all zeros.
pub fn part(
    axes: u32,
    job: &[u8],
    first: u32,
    second: u32,
    work: &mut [u32],
) -> Result<Standing, Refused>
    ensures value { parted result ≡ part_of axes job.now first second (length work.old) }
    ensures work_after { work.new ≡ work_left axes 0 job.now pair_records work.old }
{
    check_early(axes, 0, job, work.len(), Limits::PAIRS)?;
    let answer = part_records(axes, job, first, second, work);
    work.fill(0);
    answer
}
