// Writes the subtables of the final groups. A group stands in work as three words: where its shape is, where the ids of its sets are,
// and how many there are. Groups and sets stand before `scratch`; from there on stand four tables of a word a region: marks, numbers, and
// for each group in turn its columns and their places.
ghost use Rattle.std.specs.Prelude.{◌≡◌, true, [], ◌∷◌, ℕ, ◌+◌, ◌*◌, ◌≤◌, ◌<◌, length, take};
ghost use Rattle.laws.specs.LentRange.{Only, seg};
ghost use Rattle.laws.specs.Every.{All};
ghost use Rattle.reader.specs.Store.{are_columns_ok};
ghost use Rattle.rows.specs.Lent.{Placed, Put, Stored, number_in, runs_bytes, set_at, table_bytes};
ghost use Rattle.store.specs.Lent.{Handed, chain, final_at, group_bytes, subtable_of};
ghost use Rattle.limits.specs.Limits.{max_regions};

use rows::{Form, columns, place};
use store::Finals;
use subtables::{SetList, write_runs};

// The subtables of one group whose columns and their places are laid into the last two tables.
fn write_laid(
    out: &mut [u8],
    at: usize,
    form: Form,
    work: &[u32],
    scratch: usize,
    regions: usize,
    sets: SetList,
) -> usize
    requires word_bound { (form.word < 65536) × (form.count ≤ regions) × (regions ≤ max_regions) }
    requires regions_in_bounds { scratch + 4 * regions ≤ length work.now }
    requires placed { Placed (seg (scratch + regions + regions) form.count work.now) (seg (scratch + regions + regions + regions) regions work.now) }
    requires work_value { are_columns_ok regions (seg (scratch + regions + regions) form.count work.now) ≡ true }
    requires count_bound { sets.count < 4294967296 }
    requires count_bound_2 { sets.ids + sets.count ≤ scratch }
    requires all { All (Stored sets.index (take scratch work.now)) (seg sets.ids sets.count (take scratch work.now)) }
    requires work_in_bounds { at + length (runs_bytes (table_bytes (number_in (seg (scratch + regions) regions work.now)) form.word (seg (scratch + regions + regions) form.count work.now) (set_at sets.index (take scratch work.now))) (seg sets.ids sets.count (take scratch work.now))) ≤ length out.old }
    ensures { Put at (runs_bytes (table_bytes (number_in (seg (scratch + regions) regions work.now)) form.word (seg (scratch + regions + regions) form.count work.now) (set_at sets.index (take scratch work.now))) (seg sets.ids sets.count (take scratch work.now))) out.old out.new result }
{
    let numbers = scratch + regions;
    let cols = numbers + regions;
    let places = cols + regions;
    let n = form.count;
    write_runs(
        out,
        at,
        form.word,
        &work[cols..cols + n],
        &work[places..places + regions],
        &work[numbers..numbers + regions],
        &work[..scratch],
        sets,
    )
}

// The subtables of one group, whose shape stands at `shape`.
fn write_group(
    out: &mut [u8],
    at: usize,
    work: &mut [u32],
    scratch: usize,
    regions: usize,
    shape: usize,
    sets: SetList,
) -> usize
    requires regions_le_max_regions { regions ≤ max_regions }
    requires regions_in_bounds { scratch + 4 * regions ≤ length work.old }
    requires regions_bound { shape + regions ≤ scratch }
    requires count_bound { sets.count < 4294967296 }
    requires count_bound_2 { sets.ids + sets.count ≤ scratch }
    requires all { All (Stored sets.index (take scratch work.old)) (seg sets.ids sets.count (take scratch work.old)) }
    requires work_in_bounds { at + length (runs_bytes (subtable_of (number_in (seg (scratch + regions) regions work.old)) (set_at sets.index (take scratch work.old)) (seg shape regions work.old)) (seg sets.ids sets.count (take scratch work.old))) ≤ length out.old }
    ensures put { Put at (runs_bytes (subtable_of (number_in (seg (scratch + regions) regions work.old)) (set_at sets.index (take scratch work.old)) (seg shape regions work.old)) (seg sets.ids sets.count (take scratch work.old))) out.old out.new result }
    ensures only { Only ((scratch + 2 * regions, 2 * regions) ∷ []) work.old work.new }
{
    let cols = scratch + regions + regions;
    let form = columns(work, shape, regions, cols);
    place(work, cols, form.count, cols + regions, regions);
    write_laid(out, at, form, work, scratch, regions, sets)
}

// The subtables of the group whose three words stand at group.
fn write_one(
    out: &mut [u8],
    at: usize,
    work: &mut [u32],
    t: Finals,
    scratch: usize,
    group: usize,
) -> usize
    requires regions_le_max_regions { t.regions ≤ max_regions }
    requires regions_in_bounds { scratch + 4 * t.regions ≤ length work.old }
    requires handed { Handed t.regions t.index (take scratch work.old) group }
    requires group_in_bounds { at + length (group_bytes (number_in (seg (scratch + t.regions) t.regions work.old)) (set_at t.index (take scratch work.old)) (final_at t.regions (take scratch work.old) group)) ≤ length out.old }
    ensures put { Put at (group_bytes (number_in (seg (scratch + t.regions) t.regions work.old)) (set_at t.index (take scratch work.old)) (final_at t.regions (take scratch work.old) group)) out.old out.new result }
    ensures only { Only ((scratch + 2 * t.regions, 2 * t.regions) ∷ []) work.old work.new }
{
    let shape = work[group] as usize;
    let sets = SetList {
        index: t.index,
        ids: work[group + 1] as usize,
        count: work[group + 2] as usize,
    };
    write_group(out, at, work, scratch, t.regions, shape, sets)
}

// The subtables of all groups.
pub fn write_groups(out: &mut [u8], at: usize, work: &mut [u32], t: Finals, scratch: usize) -> usize
    requires regions_le_max_regions { t.regions ≤ max_regions }
    requires regions_in_bounds { scratch + 4 * t.regions ≤ length work.old }
    requires count_bound { t.groups + 3 * t.count ≤ scratch }
    requires by_index { (g : ℕ) → g < t.count → Handed t.regions t.index (take scratch work.old) (t.groups + 3 * g) }
    requires count_in_bounds { at + length (chain (λ g. group_bytes (number_in (seg (scratch + t.regions) t.regions work.old)) (set_at t.index (take scratch work.old)) (final_at t.regions (take scratch work.old) (t.groups + 3 * g))) t.count) ≤ length out.old }
    ensures put { Put at (chain (λ g. group_bytes (number_in (seg (scratch + t.regions) t.regions work.old)) (set_at t.index (take scratch work.old)) (final_at t.regions (take scratch work.old) (t.groups + 3 * g))) t.count) out.old out.new result }
    ensures only { Only ((scratch + 2 * t.regions, 2 * t.regions) ∷ []) work.old work.new }
{
    let mut a = at;
    for g in 0..t.count {
        a = write_one(out, a, work, t, scratch, t.groups + 3 * g);
    }
    a
}
