// One build call: it checks a job, refuses it or builds, with lent memory only.
ghost use Rattle.std.specs.Prelude.{◌≡◌, length};
ghost use Rattle.said.specs.LentOpen.{Open};
ghost use Rattle.said.specs.Records.{record_count};
ghost use Rattle.said.specs.Job.{records_from, in_axes};
ghost use Rattle.panel.specs.Panelled.{panelled};
ghost use Rattle.finishing.specs.Answers.{built};
ghost use Rattle.finishing.specs.Buffers.{buffers};
ghost use Rattle.call.specs.Lending.{lending, leaves};
ghost use Rattle.closing.specs.LentClosed.{RecordsBuilt};
ghost use Rattle.packer.specs.Promised.{ObeysBy};

use closing::close_stage;
use encoder::tables;
use finishing::Report;
use job::check_early;
use merging::optimize;
use opening::open_records;
use pairs::{Pair, clear_pairs};
use panel::Profile;
use records::records_in;
use refusals::Refused;

// A job that was not refused before its first record: work and pair records are left as they come.
fn build_records(
    profile: Profile,
    axes: u32,
    mode: u32,
    job: &[u8],
    work: &mut [u32],
    pairs: &mut [Pair],
    out: &mut [u8],
    ids: &mut [u32],
    map: &mut [u32],
    log: &mut [u32],
    origins: &mut [u32],
) -> Result<Report, Refused>
    requires { Open axes mode job.now (length work.old) (length pairs.old) }
    ensures { RecordsBuilt profile axes mode (panelled profile job.now (records_from axes mode job.now job.now (record_count job.now) 0 in_axes)) (built result) (buffers out.old ids.old map.old log.old origins.old) (buffers out.new ids.new map.new log.new origins.new) }
{
    let records = records_in(job.len());
    let stage = open_records(profile, axes as usize, mode, job, records, work)?;
    let merged = optimize(pairs, work, tables(stage.places, stage.groups));
    close_stage(
        profile, job, work, stage, merged, out, ids, map, log, origins,
    )
}

// Takes every job, sound or not, by a profile. Refusals 1 to 4 leave all as it was; after any other answer work and pair records are zeros.
pub fn build(
    profile: Profile,
    axes: u32,
    mode: u32,
    job: &[u8],
    work: &mut [u32],
    pairs: &mut [Pair],
    out: &mut [u8],
    ids: &mut [u32],
    map: &mut [u32],
    log: &mut [u32],
    origins: &mut [u32],
) -> Result<Report, Refused>
    ensures { ObeysBy profile (lending axes mode job.now work.old pairs.old (buffers out.old ids.old map.old log.old origins.old)) (built result) (leaves work.new pairs.new (buffers out.new ids.new map.new log.new origins.new)) }
{
    check_early(axes, mode, job, work.len(), pairs.len())?;
    let answer = build_records(
        profile, axes, mode, job, work, pairs, out, ids, map, log, origins,
    );
    work.fill(0);
    let all = pairs.len();
    clear_pairs(pairs, all);
    answer
}
