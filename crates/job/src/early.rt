// What is tested before the first record, the published number of words of work.
ghost use Rattle.std.specs.Prelude.{◌≡◌, ◌≤◌, OnOk};
ghost use Rattle.refusals.specs.Refusals.{number_in};
ghost use Rattle.said.specs.Refusals.{published_work, building_work, early_refusal};
ghost use Rattle.said.specs.LentOpen.{Open};
ghost use Rattle.limits.specs.Limits.{most_records, max_regions};

use crate::head::head_regions;
use limits::Limits;
use records::{are_records, records_in};
use refusals::{Refusal, ensure};

// The words of work that a job of so many records and regions needs. A shape has a word a region, sixteen, and its planes of bits.
fn needed(records: usize, regions: usize) -> usize
    requires { (records ≤ most_records) × (regions ≤ max_regions) }
    ensures { result ≡ published_work records regions }
{
    let shape = regions + 16 + 3 * ((regions + 31) / 32);
    if records < Limits::SHAPES {
        return 16 * records + records * shape;
    }
    16 * records + Limits::SHAPES * shape
}

// The published number for so many records and regions; 0 above the record limit, and no more for more regions than there may be.
pub fn work_words(records: usize, regions: usize) -> usize
    ensures { result ≡ building_work records regions }
{
    if Limits::RECORDS < records {
        return 0;
    }
    if Limits::REGIONS < regions {
        return needed(records, Limits::REGIONS);
    }
    needed(records, regions)
}

// Refusals 1 to 4 in that order, of a job, so many words and so many pair records.
#[tactic(auto, unfolding(said::specs::Refusals::early_refusal, said::specs::Refusals::first_failed), using(crate::proofs::EarlyLaws::head_few))]
pub fn check_early(
    axes: u32,
    mode: u32,
    job: &[u8],
    work: usize,
    pairs: usize,
) -> Result<(), Refusal>
    ensures value { number_in result ≡ early_refusal axes mode job.now work pairs }
    ensures fact { OnOk result (Open axes mode job.now work pairs) }
{
    let records = records_in(job.len());
    ensure(0 < axes && axes <= Limits::AXES, Refusal::BadAxes)?;
    ensure(mode <= 1, Refusal::BadMode)?;
    ensure(
        are_records(job.len()) && records <= Limits::RECORDS,
        Refusal::BadJobLength,
    )?;
    ensure(
        needed(records, head_regions(axes, job)) <= work,
        Refusal::WorkShort,
    )?;
    ensure(Limits::PAIRS <= pairs, Refusal::WorkShort)
}
