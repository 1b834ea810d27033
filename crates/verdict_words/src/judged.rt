// A store judged by a job's sets (#106), and what came of it told in a report.
ghost use Rattle.verdict_words.specs.Told.{JudgeTold};

use crate::verdict::tell_judged;
use judging::judge;

// Looks at every job, store and list of words: the refusal number, 0 where the store was judged; the report has all that C gets.
pub fn judge_told(
    axes: u32,
    job: &[u8],
    store: &[u8],
    words: &[u32],
    work: &mut [u32],
    report: &mut [u64; 16],
) -> u32
    ensures { JudgeTold axes job.now store.now words.now work.old result work.new report.old report.new }
{
    let answer = judge(axes, job, store, words, work);
    tell_judged(report, job, answer)
}
