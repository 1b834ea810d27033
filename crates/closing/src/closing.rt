// The last part of a build, once merging is over: what is left of the groups arranged, and everything written or refused.
ghost use Rattle.std.specs.Prelude.{List, [], ℕ, ◌≤◌, Ok, IfOk};
ghost use Rattle.said.specs.Job.{Outcome};
ghost use Rattle.encoder.specs.Packed.{own};
ghost use Rattle.finishing.specs.Answers.{built};
ghost use Rattle.finishing.specs.Buffers.{buffers};
ghost use Rattle.finishing.specs.Lent.{Finished};
ghost use Rattle.limits.specs.Limits.{most_axes};
ghost use Rattle.opening.specs.LentOpened.{Read, OpenedBy};
ghost use Rattle.arranging.specs.LentArranged.{Joined, JoinedOrRefused, JoinedBy, PackFit};
ghost use Rattle.closing.specs.LentClosed.{RecordsBuilt, CloseFit, Closed};

use arranging::{arrange, is_null, null_packing};
use finishing::{Report, finish};
use merging::Merged;
use narrow::too_wide;
use opening::Stage;
use panel::Profile;
use refusals::{Refusal, Refused};
use store::Finals;

// Mode 1 without sets: the three words of its one group are these.
fn finish_none(
    job: &[u8],
    axes: usize,
    out: &mut [u8],
    ids: &mut [u32],
    map: &mut [u32],
    log: &mut [u32],
    origins: &mut [u32],
) -> Result<Report, Refused>
    requires { axes ≤ most_axes }
    ensures { Finished axes [] (own 0 []) (built result) (buffers out.old ids.old map.old log.old origins.old) (buffers out.new ids.new map.new log.new origins.new) }
{
    let mut null = [0u32; 3];
    null[1] = 3;
    finish(
        job,
        &mut null,
        null_packing(axes),
        out,
        ids,
        map,
        log,
        origins,
    )
}

// Packs the sets of a job that was opened by a profile, looks whether it takes the columns, and finishes.
pub fn close_stage(
    profile: Profile,
    job: &[u8],
    work: &mut [u32],
    s: Stage,
    m: Merged,
    out: &mut [u8],
    ids: &mut [u32],
    map: &mut [u32],
    log: &mut [u32],
    origins: &mut [u32],
) -> Result<Report, Refused>
    requires { PackFit job.now s m work.old }
    ensures { (axes mode : ℕ) (o : Outcome) (mid : List ℕ) → Read axes mode job.now o (Ok s) mid → Joined s m mid work.old → RecordsBuilt profile axes mode o (built result) (buffers out.old ids.old map.old log.old origins.old) (buffers out.new ids.new map.new log.new origins.new) }
{
    if is_null(s) {
        return finish_none(job, s.axes, out, ids, map, log, origins);
    }
    let k = arrange(work, s, m);
    let p = k.places;
    let e = k.encoded;
    let t = Finals {
        regions: p.regions,
        groups: p.finals,
        count: e.count,
        index: 0,
    };
    if too_wide(profile, work, t) {
        return Err(Refused {
            refusal: Refusal::WideSubtable,
            place: 0,
        });
    }
    finish(job, work, k, out, ids, map, log, origins)
}

// Of a job whose records were read: the same, or the refusal.
fn close_read(
    profile: Profile,
    job: &[u8],
    work: &mut [u32],
    read: Result<Stage, Refused>,
    m: Merged,
    out: &mut [u8],
    ids: &mut [u32],
    map: &mut [u32],
    log: &mut [u32],
    origins: &mut [u32],
) -> Result<Report, Refused>
    requires { IfOk read (λ s. PackFit job.now s m work.old) }
    ensures { (axes mode : ℕ) (o : Outcome) (mid : List ℕ) → Read axes mode job.now o read mid → JoinedOrRefused read m mid work.old → RecordsBuilt profile axes mode o (built result) (buffers out.old ids.old map.old log.old origins.old) (buffers out.new ids.new map.new log.new origins.new) }
{
    let s = read?;
    close_stage(profile, job, work, s, m, out, ids, map, log, origins)
}

// Answers for what `open` answered of a job by the profile, and clears work unless nothing was written there. Where that is a refusal, nothing
// was merged, and `m` is not looked at.
pub fn close(
    profile: Profile,
    job: &[u8],
    work: &mut [u32],
    opened: Result<Result<Stage, Refused>, Refused>,
    m: Merged,
    out: &mut [u8],
    ids: &mut [u32],
    map: &mut [u32],
    log: &mut [u32],
    origins: &mut [u32],
) -> Result<Report, Refused>
    requires { CloseFit job.now opened m work.old }
    ensures { (axes mode : ℕ) (old : List ℕ) (pairs : ℕ) (mid : List ℕ) → OpenedBy profile axes mode job.now old pairs mid opened → JoinedBy opened m mid work.old → Closed profile axes mode job.now old pairs (built result) (buffers out.old ids.old map.old log.old origins.old) (buffers out.new ids.new map.new log.new origins.new) work.new }
{
    let read = opened?;
    let answer = close_read(profile, job, work, read, m, out, ids, map, log, origins);
    work.fill(0);
    answer
}
