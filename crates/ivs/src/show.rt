// The entry point that tells where the bytes lie that show an id: the job is built anew in mode 0, in memory lent for it. What is told is the part of job
// or store that `shown` hands back: its length is the part's own, and it starts there by `shown`'s contract.
// A function for each C call, with numbers alone in and out, no Option, Result or enum: C calls it by `ivs_c`.
ghost use Rattle.finishing.specs.Buffers.{buffers};
ghost use Rattle.call.specs.Lending.{lending, leaves};
ghost use Rattle.ivs.specs.Asked.{ShowAnswered};

use packer::Profile;
use pairs::Pair;

// The refusal number, 0 where there is a part: of the job where `what` is 0, else of the store. The report has where it starts and how long it is.
pub fn ivs_show(
    axes: u32,
    job: &[u8],
    store: &[u8],
    id: u32,
    what: u32,
    work: &mut [u32],
    pairs: &mut [Pair],
    out: &mut [u8],
    ids: &mut [u32],
    map: &mut [u32],
    log: &mut [u32],
    origins: &mut [u32],
    report: &mut [u64; 16],
) -> u32
    ensures { ShowAnswered (lending axes 0 job.now work.old pairs.old (buffers out.old ids.old map.old log.old origins.old)) store.now id what result (leaves work.new pairs.new (buffers out.new ids.new map.new log.new origins.new)) report.old report.new }
{
    let answer = packer::build(
        Profile::Plain,
        axes,
        0,
        job,
        work,
        pairs,
        out,
        ids,
        map,
        log,
        origins,
    );
    let part = showing::find(answer, job, store, out, ids, map, id, what);
    why_words::tell_shown(report, job, store, part)
}
