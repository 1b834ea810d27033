// The last part of a build: sizes, refusals 11 to 14, 60 and 61, and only then the first word and byte written.
ghost use Rattle.std.specs.Prelude.{◌≡◌, [], ◌∷◌, ◌+◌, ◌-◌, ◌*◌, ◌≤◌, length, take};
ghost use Rattle.laws.specs.LentRange.{Only, seg};
ghost use Rattle.laws.specs.Bytes.{over};
ghost use Rattle.store.specs.Lent.{Planned, coords_in};
ghost use Rattle.encoder.specs.Packed.{Packed};
ghost use Rattle.encoder.specs.Lent.{PackedAt};
ghost use Rattle.encoder.specs.LentPlaces.{scratch_at};
ghost use Rattle.refusals.specs.Refusals.{number_in};
ghost use Rattle.finishing.specs.Answers.{built};
ghost use Rattle.finishing.specs.Buffers.{buffers};
ghost use Rattle.finishing.specs.Lent.{FinishFit, Finished, OriginsFit, RowsNamed, WordsFit, WordsWritten, origins_told, short_no, store_in};
ghost use Rattle.limits.specs.Limits.{max_shapes};

use crate::answers::Report;
use crate::measuring::{Packing, measure};
use encoder::{Encoded, Places, log_words};
use laws::copy_slice;
use planning::Plan;
use refusals::{Refusal, Refused, ensure};
use said::STORE_BYTES;
use store::{Coords, Finals};
use writing::{write_map, write_store};

// Rows are numbers of sets until now: each becomes the id of its set. Words that are no set's number belong to no row, and stay.
fn name_rows(work: &mut [u32], rows: usize, n: usize, ids: usize)
    requires n_bound { ids + n ≤ rows }
    requires n_in_bounds { rows + n ≤ length work.old }
    ensures { RowsNamed rows n ids work.old work.new }
{
    for q in 0..n {
        let x = work[rows + q] as usize;
        if x < n {
            work[rows + q] = work[ids + x];
        }
    }
}

// The n words from `from` on become the first of what is lent.
fn copy_words(work: &[u32], from: usize, n: usize, to: &mut [u32])
    requires n_in_bounds { from + n ≤ length work.now }
    requires n_in_bounds_2 { n ≤ length to.old }
    ensures { to.new ≡ over to.old 0 n (seg from n work.now) }
{
    copy_slice(&mut to[..n], &work[from..from + n]);
}

// Of each of so many starting groups its number and the place of its final group: two words, in starting order.
fn write_origins(work: &[u32], p: Places, groups: usize, to: &mut [u32])
    requires origins_fit { OriginsFit p groups work.now }
    requires groups_in_bounds { 2 * groups ≤ length to.old }
    ensures { to.new ≡ over to.old 0 (2 * groups) (origins_told p groups work.now) }
{
    for i in 0..groups {
        let slot = work[p.order + i] as usize;
        to[2 * i] = i as u32;
        to[2 * i + 1] = work[p.homes + slot];
    }
}

// Refusals 11 to 13, 61, 60 and 14, in this order.
#[tactic(auto, unfolding(crate::specs::Lent::short_no, said::specs::Refusals::first_failed))]
fn check_lent(
    p: Places,
    e: Encoded,
    bytes: usize,
    out: usize,
    ids: usize,
    map: usize,
    log: usize,
    origins: usize,
) -> Result<(), Refusal>
    requires { e.groups ≤ max_shapes }
    ensures { number_in result ≡ short_no p.sets e.distinct e.groups bytes out ids map log origins }
{
    ensure(p.sets <= ids, Refusal::IdsShort)?;
    ensure(e.distinct <= map, Refusal::MapShort)?;
    ensure(log_words(e.groups) <= log, Refusal::LogShort)?;
    ensure(2 * e.groups <= origins, Refusal::OriginsShort)?;
    ensure(bytes <= STORE_BYTES, Refusal::StoreTooBig)?;
    ensure(bytes <= out, Refusal::OutShort)
}

// Writes the store of what is packed before `scratch`, as it was measured.
fn write_out(out: &mut [u8], job: &[u8], work: &mut [u32], k: Packing, scratch: usize, done: Report)
    requires finish_fit { FinishFit k.axes k.starts job.now k.places k.encoded (take scratch work.old) }
    requires regions_in_bounds { scratch + 4 * k.places.regions ≤ length work.old }
    requires planned { Planned k.axes (take scratch work.old) k.places.regions k.places.finals k.encoded.count (seg scratch k.places.regions work.old) (seg (scratch + k.places.regions) k.places.regions work.old) done.subtables done.regions }
    requires work_in_bounds { length (store_in k.axes k.starts job.now k.places k.encoded (take scratch work.old)) ≤ length out.old }
    ensures out_after { out.new ≡ over out.old 0 (length (store_in k.axes k.starts job.now k.places k.encoded (take scratch work.old))) (store_in k.axes k.starts job.now k.places k.encoded (take scratch work.old)) }
    ensures only { Only ((scratch + 2 * k.places.regions, 2 * k.places.regions) ∷ []) work.old work.new }
{
    let p = k.places;
    let e = k.encoded;
    let c = Coords {
        axes: k.axes,
        starts: k.starts,
    };
    let t = Finals {
        regions: p.regions,
        groups: p.finals,
        count: e.count,
        index: 0,
    };
    let plan = Plan {
        bytes: done.bytes,
        runs: done.subtables,
        kept: done.regions,
    };
    write_store(out, job, c, work, t, scratch, plan);
}

// Writes ids, log, origins and map. The map comes last: its words stand at ids, and the rows, which are numbers of sets until then, become ids for it.
fn write_words(
    work: &mut [u32],
    p: Places,
    e: Encoded,
    ids: &mut [u32],
    map: &mut [u32],
    log: &mut [u32],
    origins: &mut [u32],
)
    requires words_fit { WordsFit p e work.old }
    requires sets_in_bounds { p.sets ≤ length ids.old }
    requires distinct_in_bounds { e.distinct ≤ length map.old }
    requires merges_in_bounds { 3 * e.merges ≤ length log.old }
    requires groups_in_bounds { 2 * e.groups ≤ length origins.old }
    ensures { WordsWritten p e work.old ids.old map.old log.old origins.old ids.new map.new log.new origins.new }
{
    copy_words(work, p.ids, p.sets, ids);
    copy_words(work, p.log, 3 * e.merges, log);
    write_origins(work, p, e.groups, origins);
    name_rows(work, p.rows, p.sets, p.ids);
    let t = Finals {
        regions: p.regions,
        groups: p.finals,
        count: e.count,
        index: 0,
    };
    write_map(work, t, map);
}

// Finishes a build whose sets are packed in work. All is measured before anything is written, so that a refusal leaves what is lent as it
// was; and the store comes before the words, which rename the rows in work. What is read stands before the rows' end; behind it stand the
// tables of a word a region by which the store is planned and written.
pub fn finish(
    job: &[u8],
    work: &mut [u32],
    k: Packing,
    out: &mut [u8],
    ids: &mut [u32],
    map: &mut [u32],
    log: &mut [u32],
    origins: &mut [u32],
) -> Result<Report, Refused>
    requires finish_fit { FinishFit k.axes k.starts job.now k.places k.encoded work.old }
    requires regions_in_bounds { scratch_at k.places + 4 * k.places.regions ≤ length work.old }
    ensures { (x : Packed) → PackedAt x k.places k.encoded work.old → Finished k.axes (coords_in job.now k.axes work.old k.starts k.places.regions) x (built result) (buffers out.old ids.old map.old log.old origins.old) (buffers out.new ids.new map.new log.new origins.new) }
{
    let p = k.places;
    let e = k.encoded;
    let scratch = p.rows + p.sets;
    let done = measure(work, k, scratch);
    check_lent(
        p,
        e,
        done.bytes,
        out.len(),
        ids.len(),
        map.len(),
        log.len(),
        origins.len(),
    )?;
    write_out(out, job, work, k, scratch, done);
    write_words(&mut work[..scratch], p, e, ids, map, log, origins);
    Ok(done)
}
