// A store read back into a job (#105): what is refused, in its order, and the job written.
#![tactic(auto)]

ghost use Rattle.std.specs.Prelude.{◌≡◌, true, ◌≤◌, length};
ghost use Rattle.cells.specs.Lent.{Ahead};
ghost use Rattle.reader.specs.Store.{is_header_ok};
ghost use Rattle.stores.specs.Stores.{store_at, is_whole_ok};
ghost use Rattle.stores.specs.Coordinates.{once};
ghost use Rattle.refusals.specs.Refusals.{number_in};
ghost use Rattle.recoverer.specs.Answers.{recovered};
ghost use Rattle.recoverer.specs.Recover.{recovering_work, look_no, bounds_refusal, late_no, answer_for, left_for, recovered_of, job_left, work_left};

use cells::look_ahead;
use job_writing::write_job;
use limits::Limits;
use listed::list_order;
use reader::be;
use refusals::Refusal;
use stores::whole_ok;
use tallying::tally;

// How much is read back.
#[derive(Clone, Copy, Debug, PartialEq, Eq)]
pub struct RecoveredCounts {
    pub bytes: usize,
    pub axes: usize,
    pub regions: usize,
    pub sets: usize,
}

// The words of work that a store of so many bytes needs.
pub fn recover_words(bytes: usize) -> usize
    ensures { result ≡ recovering_work bytes }
{
    bytes
}

// No region is listed twice. With no axes all are equal, and there may be more than there is room to sort.
fn all_once(store: &[u8], work: &mut [u32]) -> bool
    requires { (is_header_ok store.now ≡ true) × (length store.now ≤ length work.old) }
    ensures { result ≡ once (store_at store.now).regions }
{
    let list = be(store, 2, 4);
    let axes = be(store, list, 2);
    let n = be(store, list + 2, 2);
    if axes == 0 {
        return n < 2;
    }
    list_order(store, work, 0, n)
}

// R20 and R50, with work for scratch.
#[tactic(auto, unfolding(crate::specs::Recover::look_no, said::specs::Refusals::first_failed))]
fn look(store: &[u8], work: &mut [u32]) -> Result<(), Refusal>
    requires { length store.now ≤ length work.old }
    ensures { number_in result ≡ look_no store.now }
{
    work.fill(0);
    if !whole_ok(store, work) {
        return Err(Refusal::BadStore);
    }
    if !all_once(store, work) {
        return Err(Refusal::RegionsEqual);
    }
    Ok(())
}

// R51.
#[tactic(auto, unfolding(crate::specs::Recover::bounds_refusal, said::specs::Refusals::first_failed))]
fn check_bounds(regions: usize, axes: usize) -> Result<(), Refusal>
    ensures { number_in result ≡ bounds_refusal regions axes }
{
    if Limits::REGIONS < regions {
        return Err(Refusal::RegionsOrAxes);
    }
    if axes == 0 {
        return Err(Refusal::RegionsOrAxes);
    }
    if (Limits::AXES as usize) < axes {
        return Err(Refusal::RegionsOrAxes);
    }
    Ok(())
}

// R51 to R53, and the job. Work says how many zeros follow from each byte on.
fn finish(store: &[u8], work: &[u32], out: &mut [u8]) -> Result<RecoveredCounts, Refusal>
    requires { (is_whole_ok store.now ≡ true) × Ahead store.now 0 work.now }
    ensures value { recovered result ≡ answer_for (store_at store.now) (late_no (store_at store.now) (length out.old)) }
    ensures out_after { out.new ≡ left_for (store_at store.now) (late_no (store_at store.now) (length out.old)) out.old }
{
    let list = be(store, 2, 4);
    let axes = be(store, list, 2);
    let regions = be(store, list + 2, 2);
    check_bounds(regions, axes)?;
    let t = tally(store, work);
    if Limits::RECORDS < t.records {
        return Err(Refusal::JobTooLong);
    }
    if out.len() < 12 * t.records {
        return Err(Refusal::JobShort);
    }
    write_job(out, store, work);
    Ok(RecoveredCounts {
        bytes: 12 * t.records,
        axes,
        regions,
        sets: t.sets,
    })
}

// With room for the scratch, which is left as it comes.
fn recover_in(store: &[u8], work: &mut [u32], out: &mut [u8]) -> Result<RecoveredCounts, Refusal>
    requires { recovering_work (length store.now) ≤ length work.old }
    ensures value { recovered result ≡ recovered_of store.now (length work.old) (length out.old) }
    ensures out_after { out.new ≡ job_left store.now (length work.old) out.old }
{
    look(store, work)?;
    look_ahead(store, work, 0);
    finish(store, work, out)
}

// The job of a store, whatever its bytes are. A refusal writes nothing; work is as it was where it is too short, else all zeros.
pub fn recover(store: &[u8], work: &mut [u32], out: &mut [u8]) -> Result<RecoveredCounts, Refusal>
    ensures value { recovered result ≡ recovered_of store.now (length work.old) (length out.old) }
    ensures work_after { work.new ≡ work_left (length store.now) work.old }
    ensures out_after { out.new ≡ job_left store.now (length work.old) out.old }
{
    if work.len() < recover_words(store.len()) {
        return Err(Refusal::WorkShort);
    }
    let answer = recover_in(store, work, out);
    work.fill(0);
    answer
}
