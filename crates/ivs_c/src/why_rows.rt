// The entry point that tells why two ids of a job are where they are: the job is built anew in mode 0, in memory lent for it, and looked at.
// Numbers alone in and out, no Option, Result or enum: C calls these.
ghost use Rattle.finishing.specs.Buffers.{buffers};
ghost use Rattle.call.specs.Lending.{lending, leaves};
ghost use Rattle.ivs.specs.Asked.{WhyAnswered};

use pairs::Pair;

// The refusal number, 0 where there is a reason; the report has all numbers of the answer.
#[unsafe(no_mangle)]
pub extern "C" fn ivs_why(
    axes: u32,
    job: &[u8],
    store: &[u8],
    first: u32,
    second: u32,
    work: &mut [u32],
    pairs: &mut [Pair],
    out: &mut [u8],
    ids: &mut [u32],
    map: &mut [u32],
    log: &mut [u32],
    origins: &mut [u32],
    report: &mut [u64; 16],
) -> u32
    ensures { WhyAnswered (lending axes 0 job.now work.old pairs.old (buffers out.old ids.old map.old log.old origins.old)) store.now first second result (leaves work.new pairs.new (buffers out.new ids.new map.new log.new origins.new)) report.old report.new }
{
    ivs::ivs_why(
        axes, job, store, first, second, work, pairs, out, ids, map, log, origins, report,
    )
}
