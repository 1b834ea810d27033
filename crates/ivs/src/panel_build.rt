// The entry point that builds for the panel's reader.
// A function for each C call, with numbers alone in and out, no Option, Result or enum: C calls it by `ivs_c`.
ghost use Rattle.finishing.specs.Buffers.{buffers};
ghost use Rattle.call.specs.Lending.{lending, leaves};
ghost use Rattle.ivs.specs.Answered.{PanelAnswered};

use packer::Profile;
use pairs::Pair;
use reporting::tell;

// One build by the panel's profile: the refusal number, 0 for done; the report has all numbers of the answer.
pub fn ivs_build_panel(
    axes: u32,
    mode: u32,
    job: &[u8],
    work: &mut [u32],
    pairs: &mut [Pair],
    out: &mut [u8],
    ids: &mut [u32],
    map: &mut [u32],
    log: &mut [u32],
    origins: &mut [u32],
    report: &mut [u64; 16],
) -> u32
    ensures { PanelAnswered (lending axes mode job.now work.old pairs.old (buffers out.old ids.old map.old log.old origins.old)) result (leaves work.new pairs.new (buffers out.new ids.new map.new log.new origins.new)) report.old report.new }
{
    let answer = packer::build(
        Profile::Panel,
        axes,
        mode,
        job,
        work,
        pairs,
        out,
        ids,
        map,
        log,
        origins,
    );
    tell(report, job, answer)
}
