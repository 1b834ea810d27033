// A forecast: what a build would answer, with nothing lent to write to. It goes the way of a build up to where that would write, and measures.
ghost use Rattle.std.specs.Prelude.{◌≡◌, length};
ghost use Rattle.said.specs.LentOpen.{Open};
ghost use Rattle.said.specs.Records.{record_count};
ghost use Rattle.said.specs.Job.{records_from, in_axes};
ghost use Rattle.finishing.specs.Answers.{built};
ghost use Rattle.call.specs.Foretold.{foretold_from};
ghost use Rattle.call.specs.Lending.{lending, no_buffers};
ghost use Rattle.packer.specs.Promised.{Foretells};

use closing::foresee_stage;
use encoder::tables;
use finishing::Report;
use job::check_early;
use merging::optimize;
use opening::open_records;
use pairs::{Pair, clear_pairs};
use panel::Profile;
use records::records_in;
use refusals::Refused;

// Of a job that was not refused before its first record: work and pair records are left as they come.
fn foretell_records(
    axes: u32,
    mode: u32,
    job: &[u8],
    work: &mut [u32],
    pairs: &mut [Pair],
) -> Result<Report, Refused>
    requires { Open axes mode job.now (length work.old) (length pairs.old) }
    ensures { built result ≡ foretold_from axes mode (records_from axes mode job.now job.now (record_count job.now) 0 in_axes) }
{
    let records = records_in(job.len());
    let stage = open_records(Profile::Plain, axes as usize, mode, job, records, work)?;
    let merged = optimize(pairs, work, tables(stage.places, stage.groups));
    foresee_stage(work, stage, merged)
}

// Takes every job, sound or not. Refusals 1 to 4 leave all as it was; after any other answer work and pair records are zeros.
pub fn forecast(
    axes: u32,
    mode: u32,
    job: &[u8],
    work: &mut [u32],
    pairs: &mut [Pair],
) -> Result<Report, Refused>
    ensures { Foretells (lending axes mode job.now work.old pairs.old no_buffers) (built result) work.new pairs.new }
{
    check_early(axes, mode, job, work.len(), pairs.len())?;
    let answer = foretell_records(axes, mode, job, work, pairs);
    work.fill(0);
    let all = pairs.len();
    clear_pairs(pairs, all);
    answer
}
