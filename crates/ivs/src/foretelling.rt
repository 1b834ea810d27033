// The entry point of the forecast: what a build would answer, with nothing lent to write to. A host asks, lends exactly, and builds.
// A function for each C call, with numbers alone in and out, no Option, Result or enum: C calls it by `ivs_c`.
ghost use Rattle.call.specs.Lending.{lending, no_buffers};
ghost use Rattle.ivs.specs.Answered.{Forecasted};

use pairs::Pair;
use reporting::tell;

// The refusal number, 0 for a job that a build takes; the report has all numbers of a done build.
pub fn ivs_forecast(
    axes: u32,
    mode: u32,
    job: &[u8],
    work: &mut [u32],
    pairs: &mut [Pair],
    report: &mut [u64; 16],
) -> u32
    ensures { Forecasted (lending axes mode job.now work.old pairs.old no_buffers) result work.new pairs.new report.old report.new }
{
    let answer = packer::forecast(axes, mode, job, work, pairs);
    tell(report, job, answer)
}
