// The words of work that judging needs, and what is tested before the first record.
ghost use Rattle.std.specs.Prelude.{◌≡◌, OnOk};
ghost use Rattle.refusals.specs.Refusals.{number_in};
ghost use Rattle.judging.specs.Judge.{judging_work, judge_refusal};
ghost use Rattle.judging.specs.LentJudge.{JudgeOpen};

use job::{check_early, head_regions, work_words};
use limits::Limits;
use records::records_in;
use refusals::Refusal;

// No slice has more bytes.
const MOST_BYTES: usize = 0x4000_0000_0000_0000;

// The words of work for a job of so many records and regions and a store of so many bytes; 0 above the record limit, and for more bytes than
// a slice has.
pub fn judge_words(records: usize, regions: usize, bytes: usize) -> usize
    ensures { result ≡ judging_work records regions bytes }
{
    if Limits::RECORDS < records {
        return 0;
    }
    if MOST_BYTES < bytes {
        return 0;
    }
    work_words(records, regions) + 3 * bytes
}

// Refusals 1, 3 and 4 in that order, of a job and a store of so many bytes.
pub fn check_judging(axes: u32, job: &[u8], store: usize, work: usize) -> Result<(), Refusal>
    ensures value { number_in result ≡ judge_refusal axes job.now store work }
    ensures judge_open { OnOk result (JudgeOpen axes job.now store work) }
{
    check_early(axes, 0, job, work, Limits::PAIRS)?;
    if work / 3 < store {
        return Err(Refusal::WorkShort);
    }
    let words = work_words(records_in(job.len()), head_regions(axes, job));
    if work - 3 * store < words {
        return Err(Refusal::WorkShort);
    }
    Ok(())
}
