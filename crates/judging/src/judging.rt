// A job, a store and a word for each set: whether the store gives every set at its word.
ghost use Rattle.std.specs.Prelude.{◌≡◌, List, ℕ, ◌+◌, ◌≤◌, length, get_or};
ghost use Rattle.said.specs.Records.{record_count};
ghost use Rattle.said.specs.Job.{records_from, in_axes};
ghost use Rattle.judging.specs.Answers.{verdict_of, judged};
ghost use Rattle.judging.specs.Judge.{judged_in, judged_of, judge_of, judge_left};
ghost use Rattle.judging.specs.LentJudge.{JudgeOpen, sides_of, JudgeFit, Sided};
ghost use Rattle.stores.specs.Stores.{parse};

use crate::storing::{all_first, set_out, store_ok};
use crate::work::check_judging;
use giving::{Aims, first_failing};
use job::read_job;
use matching::{Sides, match_regions};
use reader::be;
use records::records_in;
use refusals::Refused;

// The store gives every set; or set k is the first that it does not give; or the store itself is at fault.
#[derive(Clone, Copy, Debug, PartialEq, Eq)]
pub enum Verdict {
    Right,
    WrongSet(usize),
    WrongStore,
}

// Of a store that is well formed, has the job's axes and lists no region twice; the first like each region stands in work.
fn by_sets(
    store: &[u8],
    job: &[u8],
    words: &[u32],
    sets: usize,
    work: &mut [u32],
    t: Sides,
) -> Verdict
    requires { Sided store.now job.now sets work.old t }
    ensures { (f : Sided store.now job.now sets work.old t) → verdict_of result ≡ judged_in t.axes words.now f.said (parse store.now) }
{
    let all = t.listed + t.uses;
    let first = t.index + 2 * all + all * (6 * t.axes) + all;
    let values = first + all;
    if !all_first(work, first, t.listed) {
        return Verdict::WrongStore;
    }
    set_out(store, work, values, t.listed);
    let aims = Aims {
        to: first + t.listed,
        listed: t.listed,
        values,
        zeros: values + t.listed,
    };
    let k = first_failing(store, words, sets, work, aims);
    if k < sets {
        return Verdict::WrongSet(k);
    }
    Verdict::Right
}

// Of a job whose sets work holds.
fn by_store(
    store: &[u8],
    job: &[u8],
    words: &[u32],
    axes: usize,
    records: usize,
    sets: usize,
    uses: usize,
    work: &mut [u32],
) -> Verdict
    requires { JudgeFit axes job.now records sets uses (length store.now) work.old }
    ensures { (f : JudgeFit axes job.now records sets uses (length store.now) work.old) → verdict_of result ≡ judged_in axes words.now f.held.said (parse store.now) }
{
    if !store_ok(store, work, 5 * records) {
        return Verdict::WrongStore;
    }
    let list = be(store, 2, 4);
    if be(store, list, 2) != axes {
        return Verdict::WrongStore;
    }
    let t = Sides {
        axes,
        list: list + 4,
        listed: be(store, list + 2, 2),
        used: 4 * records,
        uses,
        index: 5 * records,
    };
    match_regions(store, job, t, work);
    by_sets(store, job, words, sets, work, t)
}

// Of a job that was not refused before its first record: work is left as it comes.
fn judge_records(
    axes: u32,
    job: &[u8],
    store: &[u8],
    words: &[u32],
    work: &mut [u32],
) -> Result<Verdict, Refused>
    requires { JudgeOpen axes job.now (length store.now) (length work.old) }
    ensures { judged result ≡ judged_of axes store.now words.now (records_from axes 0 job.now job.now (record_count job.now) 0 in_axes) }
{
    let axes = axes as usize;
    let records = records_in(job.len());
    let counts = read_job(job, axes, 0, records, work)?;
    Ok(by_store(
        store,
        job,
        words,
        axes,
        records,
        counts.sets,
        counts.uses,
        work,
    ))
}

// Looks at every job, store and list of words. Work is as it was after refusals 1, 3 and 4, else all zeros.
pub fn judge(
    axes: u32,
    job: &[u8],
    store: &[u8],
    words: &[u32],
    work: &mut [u32],
) -> Result<Verdict, Refused>
    ensures value { judged result ≡ judge_of axes job.now store.now words.now (length work.old) }
    ensures work_after { work.new ≡ judge_left axes job.now (length store.now) work.old }
{
    check_judging(axes, job, store.len(), work.len())?;
    let answer = judge_records(axes, job, store, words, work);
    work.fill(0);
    answer
}
