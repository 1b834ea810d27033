// A value record whose form is right: its refusal, or the value in its set.
ghost use Rattle.std.specs.Prelude.{◌≡◌, List, ℕ, ◌+◌, ◌*◌, ◌<◌, ◌≤◌, length};
ghost use Rattle.said.specs.Records.{record_start, record_at};
ghost use Rattle.said.specs.Job.{Said};
ghost use Rattle.values.specs.Lent.{Holds, ValueFits, PutValue, TookValue};

use crate::tables::{SetTables, put_entry, use_region};
use records::{region_at, word_at};
use refusals::Refusal;

// The word of zero, which sets drop.
const ZERO: u32 = 0x8000_0000;

// The regions in use with a value, and the entries of its set.
#[derive(Clone, Copy, Debug, PartialEq, Eq)]
pub struct Took {
    pub uses: usize,
    pub count: usize,
}

// The regions in use after a use by index k.
fn grown(uses: usize, k: usize) -> usize
    requires { uses < 4294967295 }
    ensures value { k ≡ uses → result ≡ uses + 1 }
    ensures value_2 { (k ≡ uses → ⊥) → result ≡ uses }
{
    if k == uses {
        return uses + 1;
    }
    uses
}

// Stamps region q, gives it an index, and puts the word of its value into the set unless it is that of zero.
fn put_value(
    work: &mut [u32],
    t: SetTables,
    q: usize,
    v: u32,
    mark: u32,
    uses: usize,
    start: usize,
    count: usize,
) -> Took
    requires value_fits { ValueFits work.old t uses start count }
    requires q_lt_regions { q < t.regions }
    ensures { (s : Said) (sets : ℕ) → mark ≡ sets + 1 → Holds work.old t s sets uses start count
        → PutValue q v t s sets uses start count work.old work.new result }
{
    let stamp = t.stamp;
    work[stamp + q] = mark;
    let k = use_region(work, t.slot, t.regions, t.used, uses, q);
    if v == ZERO {
        return Took {
            uses: grown(uses, k),
            count,
        };
    }
    put_entry(work, start, count, k as u32, v);
    Took {
        uses: grown(uses, k),
        count: count + 1,
    }
}

// Record i, a value record whose form is right: refusals 6 and 7 in their order, or the value in its set.
pub fn take_value(
    job: &[u8],
    i: usize,
    work: &mut [u32],
    t: SetTables,
    mark: u32,
    uses: usize,
    start: usize,
    count: usize,
) -> Result<Took, Refusal>
    requires i_in_bounds { record_start (i + 1) ≤ length job.now }
    requires value_fits { ValueFits work.old t uses start count }
    ensures { (s : Said) (sets : ℕ) → mark ≡ sets + 1 → Holds work.old t s sets uses start count
        → TookValue (record_at job.now i) t s sets uses start count work.old work.new result }
{
    let r = region_at(job, i);
    if t.regions <= r {
        return Err(Refusal::UnknownRegion);
    }
    let first = t.first;
    let q = work[first + r] as usize;
    let stamp = t.stamp;
    if work[stamp + q] == mark {
        return Err(Refusal::RegionTwice);
    }
    Ok(put_value(work, t, q, word_at(job, i), mark, uses, start, count))
}
