// The first part of a build: a job's records read into work by a profile, its sets grouped.
ghost use Rattle.std.specs.Prelude.{◌≡◌, true, false, ℕ, ◌+◌, ◌*◌, ◌<◌, ◌≤◌, length, get_or};
ghost use Rattle.said.specs.Records.{record_start, record_count};
ghost use Rattle.said.specs.Work.{regions_at_head, published_work};
ghost use Rattle.said.specs.Job.{records_from, in_axes};
ghost use Rattle.panel.specs.Panelled.{panelled};
ghost use Rattle.limits.specs.Limits.{most_records, most_axes, max_regions};
ghost use Rattle.opening.specs.LentCollected.{StartsAt};
ghost use Rattle.opening.specs.LentOpened.{no_places, OpenedAt, OpenedBy};

use crate::taking::take_job;
use encoder::{Gathered, Places, gather, lay_out};
use job::check_early;
use panel::Profile;
use records::{coords_start, records_in};
use refusals::{Refusal, Refused};

// Where a build stands before merging: its sets held in work, for so many axes and by a mode, in so many groups of so many distinct sets.
#[derive(Clone, Copy)]
pub struct Stage {
    pub axes: usize,
    pub mode: u32,
    pub starts: usize,
    pub places: Places,
    pub groups: usize,
    pub distinct: usize,
}

// No tables, in so many words. A group that has no rows stands in three.
pub fn nowhere(words: usize) -> Places
    ensures { result ≡ no_places words }
{
    Places {
        sets: 0,
        regions: 0,
        room: 0,
        line: 0,
        first: 0,
        ids: 0,
        kinds: 0,
        slots: 0,
        order: 0,
        counts: 0,
        homes: 0,
        place: 0,
        costs: 0,
        living: 0,
        columns: 0,
        spots: 0,
        finals: 0,
        into: 0,
        log: 0,
        rows: words,
    }
}

// Where in the job the coordinates of each region in use start: the words from `at` on are its number until now.
fn place_starts(work: &mut [u32], at: usize, n: usize, axes: usize)
    requires n_in_bounds { at + n ≤ length work.old }
    requires axes_le_most_axes { axes ≤ most_axes }
    requires by_index { (i : ℕ) → i < n → get_or work.old (at + i) 0 < max_regions }
    ensures { StartsAt at n axes work.old work.new }
{
    for i in 0..n {
        let q = work[at + i] as usize;
        work[at + i] = coords_start(axes, q) as u32;
    }
}

// Reads the records of a job that was not refused before its first record, by a profile, and groups its sets in mode 0.
pub fn open_records(
    profile: Profile,
    axes: usize,
    mode: u32,
    job: &[u8],
    records: usize,
    work: &mut [u32],
) -> Result<Stage, Refused>
    requires records_value { records ≡ record_count job.now }
    requires records_in_bounds { (record_start records ≤ length job.now) × (0 < axes) × (axes ≤ most_axes) × (records ≤ most_records) × (published_work records (regions_at_head axes job.now) ≤ length work.old) }
    ensures { OpenedAt profile axes mode job.now (panelled profile job.now (records_from axes mode job.now job.now records 0 in_axes)) work.old work.new result }
{
    let counts = take_job(profile, job, axes, mode, records, work)?;
    let starts = 4 * records;
    place_starts(work, starts, counts.uses, axes);
    let places = lay_out(starts + counts.uses, counts.sets, counts.uses);
    if mode != 0 {
        return Ok(Stage {
            axes,
            mode,
            starts,
            places,
            groups: 0,
            distinct: 0,
        });
    }
    let Some(Gathered { groups, distinct }) = gather(work, places) else {
        return Err(Refused {
            refusal: Refusal::ShapesFull,
            place: 0,
        });
    };
    Ok(Stage {
        axes,
        mode,
        starts,
        places,
        groups,
        distinct,
    })
}

// Takes every job, sound or not, with so many pair records lent. The outer error is one of refusals 1 to 4, which leave work as it was; the inner
// one is of a job whose records were read.
pub fn open(
    profile: Profile,
    axes: u32,
    mode: u32,
    job: &[u8],
    work: &mut [u32],
    pairs: usize,
) -> Result<Result<Stage, Refused>, Refused>
    ensures { OpenedBy profile axes mode job.now work.old pairs work.new result }
{
    check_early(axes, mode, job, work.len(), pairs)?;
    Ok(open_records(
        profile,
        axes as usize,
        mode,
        job,
        records_in(job.len()),
        work,
    ))
}
