// Why two ids of a job are where they are: its sets are packed as a build in mode 0 would pack them, and looked at. No log is read.
#![tactic(auto)]

ghost use Rattle.std.specs.Prelude.{◌≡◌, length};
ghost use Rattle.said.specs.LentOpen.{Open};
ghost use Rattle.said.specs.Records.{record_count};
ghost use Rattle.said.specs.Job.{records_from, in_axes};
ghost use Rattle.call.specs.Lending.{lending, no_buffers};
ghost use Rattle.looking.specs.Look.{why_from};
ghost use Rattle.why.specs.Promised.{Looks};

use encoder::tables;
use job::check_early;
use looking::look_stage;
use merging::optimize;
use opening::open_records;
use pairs::{Pair, clear_pairs};
use panel::Profile;
use reasons::Reason;
use records::records_in;

// Of a job that was not refused before its first record: work and pair records are left as they come.
fn look_records(
    axes: u32,
    job: &[u8],
    work: &mut [u32],
    pairs: &mut [Pair],
    first: u32,
    second: u32,
) -> Reason
    requires { Open axes 0 job.now (length work.old) (length pairs.old) }
    ensures { result ≡ why_from (records_from axes 0 job.now job.now (record_count job.now) 0 in_axes) first second }
{
    let records = records_in(job.len());
    let Ok(stage) = open_records(Profile::Plain, axes as usize, 0, job, records, work) else {
        return Reason::None;
    };
    let merged = optimize(pairs, work, tables(stage.places, stage.groups));
    look_stage(work, stage, merged, first, second)
}

// Takes every job, sound or not. Refusals 1 to 4 leave all as it was; after any other answer work and pair records are zeros.
pub fn look(
    axes: u32,
    job: &[u8],
    work: &mut [u32],
    pairs: &mut [Pair],
    first: u32,
    second: u32,
) -> Reason
    ensures { Looks (lending axes 0 job.now work.old pairs.old no_buffers) first second result work.new pairs.new }
{
    if let Err(_) = check_early(axes, 0, job, work.len(), pairs.len()) {
        return Reason::None;
    }
    let reason = look_records(axes, job, work, pairs, first, second);
    work.fill(0);
    let all = pairs.len();
    clear_pairs(pairs, all);
    reason
}
