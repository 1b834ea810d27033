// The entry points that judge a store which another program built.
// A function for each C call, with numbers alone in and out, no Option, Result or enum: C calls it by `ivs_c`.
ghost use Rattle.std.specs.Prelude.{◌≡◌};
ghost use Rattle.judging.specs.Judge.{judging_work};
ghost use Rattle.verdict_words.specs.Told.{JudgeTold};

// The words of work for a job of so many records and head regions and a store of so many bytes; 0 above the record limit, and for more bytes
// than a slice has.
pub fn ivs_judge_words(records: usize, regions: usize, bytes: usize) -> usize
    ensures { result ≡ judging_work records regions bytes }
{
    judging::judge_words(records, regions, bytes)
}

// Whether a store gives every set of a job at the set's word: the refusal number, 0 where it was judged; the report has all numbers of the answer.
pub fn ivs_judge(
    axes: u32,
    job: &[u8],
    store: &[u8],
    words: &[u32],
    work: &mut [u32],
    report: &mut [u64; 16],
) -> u32
    ensures { JudgeTold axes job.now store.now words.now work.old result work.new report.old report.new }
{
    verdict_words::judge_told(axes, job, store, words, work, report)
}
