// Writes where each subtable begins.
ghost use Rattle.std.specs.Prelude.{ℕ, ◌+◌, ◌*◌, ◌≤◌, ◌<◌, length};
ghost use Rattle.store.specs.Lent.{Handed, Small, Spotted, final_at, group_sizes, run_sizes, sizes_at, spots_of, sum_of};
ghost use Rattle.limits.specs.Limits.{most_records, max_regions};

use planning::form_of;
use reader::column_at;
use rows::{put, run_count, run_items};
use store::{Finals, offset, table_size};

// Where the offsets end, and where the next subtable begins.
#[derive(Clone, Copy)]
pub struct Spot {
    pub at: usize,
    pub next: usize,
}

// The offsets of a group's subtables.
fn write_run_spots(
    out: &mut [u8],
    at: usize,
    first: usize,
    n: usize,
    row: usize,
    count: usize,
) -> Spot
    requires n_bound { n < 65536 }
    requires row_bound { row < 262144 }
    requires count_le_most_records { count ≤ most_records }
    requires count_in_bounds { at + length (spots_of first (run_sizes n row count)) ≤ length out.old }
    requires count_bound { first + sum_of (run_sizes n row count) < 4294967296 }
    ensures { Spotted at first (run_sizes n row count) out.old out.new result.at result.next }
{
    let runs = run_count(count);
    let mut p = at;
    let mut next = first;
    for k in 0..runs {
        let size = table_size(n, row, run_items(count, k));
        put(out, p, 4, offset(next, size));
        p += 4;
        next += size;
    }
    Spot { at: p, next }
}

// Of one group.
fn write_group_spots(
    out: &mut [u8],
    at: usize,
    first: usize,
    work: &[u32],
    t: Finals,
    group: usize,
) -> Spot
    requires regions_le_max_regions { t.regions ≤ max_regions }
    requires handed { Handed t.regions t.index work.now group }
    requires small { Small work.now group }
    requires group_in_bounds { at + length (spots_of first (group_sizes (final_at t.regions work.now group))) ≤ length out.old }
    requires group_bound { first + sum_of (group_sizes (final_at t.regions work.now group)) < 4294967296 }
    ensures { Spotted at first (group_sizes (final_at t.regions work.now group)) out.old out.new result.at result.next }
{
    let form = form_of(work, t, group);
    let n = form.count;
    let row = column_at(form.word, n);
    let count = work[group + 2] as usize;
    write_run_spots(out, at, first, n, row, count)
}

// Of all groups.
#[tactic(auto, unfolding(store::specs::Lent::sizes_at))]
pub fn write_spots(out: &mut [u8], at: usize, first: usize, work: &[u32], t: Finals) -> Spot
    requires regions_le_max_regions { t.regions ≤ max_regions }
    requires count_in_bounds { t.groups + 3 * t.count ≤ length work.now }
    requires by_index { (g : ℕ) → g < t.count → Handed t.regions t.index work.now (t.groups + 3 * g) }
    requires by_index_2 { (g : ℕ) → g < t.count → Small work.now (t.groups + 3 * g) }
    requires work_in_bounds { at + length (spots_of first (sizes_at t.regions t.groups t.count work.now)) ≤ length out.old }
    requires work_bound { first + sum_of (sizes_at t.regions t.groups t.count work.now) < 4294967296 }
    ensures { Spotted at first (sizes_at t.regions t.groups t.count work.now) out.old out.new result.at result.next }
{
    let mut p = at;
    let mut next = first;
    for g in 0..t.count {
        let s = write_group_spots(out, p, next, work, t, t.groups + 3 * g);
        p = s.at;
        next = s.next;
    }
    Spot { at: p, next }
}
