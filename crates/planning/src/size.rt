// How many bytes the subtables take, worked out without writing.
ghost use Rattle.std.specs.Prelude.{◌≡◌, ℕ, ◌+◌, ◌*◌, ◌≤◌, ◌<◌, length};
ghost use Rattle.store.specs.Lent.{FormOf, Handed, Small, Summed, final_at, group_sizes, run_sizes, sizes_at};
ghost use Rattle.limits.specs.Limits.{most_records, max_regions, max_shapes};

use reader::column_at;
use rows::{Form, form_alone, run_count, run_items};
use store::{Finals, table_size};

// How many bytes, and in how many subtables.
#[derive(Clone, Copy)]
pub struct Sum {
    pub bytes: usize,
    pub runs: usize,
}

// Of a group of count sets.
fn size_runs(n: usize, row: usize, count: usize) -> Sum
    requires n_bound { n < 65536 }
    requires row_bound { row < 262144 }
    requires count_le_most_records { count ≤ most_records }
    ensures summed { Summed (run_sizes n row count) result.bytes result.runs }
    ensures bytes_bound { (result.bytes ≤ 584115552256) × (result.runs ≤ 17) }
{
    let runs = run_count(count);
    let mut bytes = 0;
    for k in 0..runs {
        bytes += table_size(n, row, run_items(count, k));
    }
    Sum { bytes, runs }
}

// The form of a group's rows.
pub fn form_of(work: &[u32], t: Finals, group: usize) -> Form
    requires regions_le_max_regions { t.regions ≤ max_regions }
    requires handed { Handed t.regions t.index work.now group }
    ensures { FormOf (final_at t.regions work.now group) result.word result.count }
{
    let shape = work[group] as usize;
    form_alone(&work[shape..shape + t.regions])
}

// Of one group.
fn size_group(work: &[u32], t: Finals, group: usize) -> Sum
    requires regions_le_max_regions { t.regions ≤ max_regions }
    requires handed { Handed t.regions t.index work.now group }
    requires small { Small work.now group }
    ensures summed { Summed (group_sizes (final_at t.regions work.now group)) result.bytes result.runs }
    ensures bytes_bound { (result.bytes ≤ 584115552256) × (result.runs ≤ 17) }
{
    let form = form_of(work, t, group);
    let n = form.count;
    let row = column_at(form.word, n);
    let count = work[group + 2] as usize;
    size_runs(n, row, count)
}

// Of all groups.
#[tactic(auto, unfolding(store::specs::Lent::sizes_at))]
pub fn size_groups(work: &[u32], t: Finals) -> Sum
    requires regions_le_max_regions { t.regions ≤ max_regions }
    requires count_le_max_shapes { t.count ≤ max_shapes }
    requires count_in_bounds { t.groups + 3 * t.count ≤ length work.now }
    requires by_index { (g : ℕ) → g < t.count → Handed t.regions t.index work.now (t.groups + 3 * g) }
    requires by_index_2 { (g : ℕ) → g < t.count → Small work.now (t.groups + 3 * g) }
    ensures summed { Summed (sizes_at t.regions t.groups t.count work.now) result.bytes result.runs }
    ensures bytes_bound { (result.bytes ≤ 598134325510144) × (result.runs ≤ 17408) }
{
    let mut bytes = 0;
    let mut runs = 0;
    for g in 0..t.count {
        let s = size_group(work, t, t.groups + 3 * g);
        bytes += s.bytes;
        runs += s.runs;
    }
    Sum { bytes, runs }
}
