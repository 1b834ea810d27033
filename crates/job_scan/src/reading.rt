// The records of the sets: each refused at its place, or its set held in work.
ghost use Rattle.std.specs.Prelude.{◌≡◌, List, ℕ, ◌+◌, ◌*◌, ◌/◌, ◌%◌, ◌<◌, ◌≤◌, length};
ghost use Rattle.limits.specs.Limits.{most_records};
ghost use Rattle.refusals.specs.Refusals.{number_in};
ghost use Rattle.said.specs.Records.{record_start};
ghost use Rattle.said.specs.Refusals.{end_refusal};
ghost use Rattle.said.specs.Sets.{region_list};
ghost use Rattle.said.specs.Job.{Said, regions_only};
ghost use Rattle.values.specs.Lent.{Holds, EndedSet};
ghost use Rattle.job_scan.specs.Lent.{Room, EndFits, RecordFits, Reached, RecordRead, SetsRead, begun_at};

use entries::sort_entries;
use limits::Limits;
use records::{Kind, check_record, is_kind};
use refusals::{Refusal, Refused, ensure};
use values::{SetTables, take_value};

// What the records of the sets say, in numbers: the sets, the values, the regions in use.
#[derive(Clone, Copy, Debug, PartialEq, Eq)]
pub struct SetCounts {
    pub sets: usize,
    pub values: usize,
    pub uses: usize,
}

// How far the sets are read: how many have ended, the values, the regions in use; where the entries of the set that has not ended start, how
// many there are, and whether it has named a region.
#[derive(Clone, Copy, Debug, PartialEq, Eq)]
pub struct SoFar {
    pub sets: usize,
    pub values: usize,
    pub uses: usize,
    pub start: usize,
    pub count: usize,
    pub begun: bool,
}

// Before the first record of the sets.
fn begin(start: usize) -> SoFar
    ensures { result ≡ begun_at start }
{
    SoFar {
        sets: 0,
        values: 0,
        uses: 0,
        start,
        count: 0,
        begun: false,
    }
}

// Refusal 9, of an end after so many others.
#[tactic(auto, unfolding(said::specs::Refusals::end_refusal, said::specs::Refusals::first_failed))]
fn check_end(mode: u32, sets: usize) -> Result<(), Refusal>
    ensures { number_in result ≡ end_refusal mode sets }
{
    ensure(!(mode == 1 && sets == Limits::ITEMS), Refusal::SetsFull)
}

// Ends a set: its entries are sorted, with the words behind the stamps for scratch, and its row is written.
fn end_set(work: &mut [u32], t: SetTables, sets: usize, start: usize, count: usize)
    requires { EndFits work.old t sets start count }
    ensures { (s : Said) (uses : ℕ) → t.used + uses ≤ t.slot → Holds work.old t s sets uses start count
        → EndedSet t s sets uses start count work.old work.new }
{
    let spare = t.stamp + t.regions;
    sort_entries(work, start, count, spare);
    let rows = t.rows;
    work[rows + 2 * sets] = start as u32;
    work[rows + 2 * sets + 1] = count as u32;
}

// Reads record i, behind `from` axis records and behind a value or an end.
fn read_record(
    job: &[u8],
    axes: usize,
    i: usize,
    from: usize,
    mode: u32,
    work: &mut [u32],
    t: SetTables,
    f: SoFar,
) -> Result<SoFar, Refusal>
    requires axes_nonzero { (0 < axes) × (record_start (i + 1) ≤ length job.now) × (from % axes ≡ 0) }
    requires record_fits { RecordFits work.old t f }
    ensures { (s : Said) → Reached axes from work.old t s f → RecordRead axes mode job.now i from t s f work.old work.new result }
{
    check_record(job, axes, i, from, true)?;
    if is_kind(job, i, Kind::Value) {
        let mark = (f.sets + 1) as u32;
        let k = take_value(job, i, work, t, mark, f.uses, f.start, f.count)?;
        return Ok(SoFar {
            values: f.values + 1,
            uses: k.uses,
            count: k.count,
            begun: true,
            ..f
        });
    }
    check_end(mode, f.sets)?;
    end_set(work, t, f.sets, f.start, f.count);
    Ok(SoFar {
        sets: f.sets + 1,
        start: f.start + 2 * f.count,
        count: 0,
        begun: false,
        ..f
    })
}

// Reads the records from record `from` on, which follow the axis records of so many regions of `axes` axes.
pub fn read_sets(
    job: &[u8],
    axes: usize,
    records: usize,
    from: usize,
    mode: u32,
    work: &mut [u32],
    t: SetTables,
) -> Result<SetCounts, Refused>
    requires from_le_records { (from ≤ records) × (record_start records ≤ length job.now) × (0 < axes) × (from % axes ≡ 0) }
    requires room { Room t records (length work.old) }
    requires holds { Holds work.old t (regions_only (region_list axes (from / axes) job.now)) 0 0 t.body 0 }
    ensures { SetsRead axes mode job.now records from t work.old work.new result }
{
    let mut f = begin(t.body);
    for i in from..records {
        match read_record(job, axes, i, from, mode, work, t, f) {
            Ok(next) => f = next,
            Err(refusal) => return Err(Refused { refusal, place: i }),
        }
    }
    if f.begun {
        return Err(Refused {
            refusal: Refusal::Unfinished,
            place: records,
        });
    }
    Ok(SetCounts {
        sets: f.sets,
        values: f.values,
        uses: f.uses,
    })
}
