// The map from an id to its row: outer, the run's position, times 65,536, plus inner, the row's.
ghost use Rattle.std.specs.Prelude.{◌≡◌, ℕ, ◌+◌, ◌*◌, ◌≤◌, ◌<◌, length};
ghost use Rattle.shapes.specs.Shape.{Shape};
ghost use Rattle.laws.specs.Every.{All};
ghost use Rattle.store.specs.Placing.{all_runs, id_words, runs_of, stored};
ghost use Rattle.store.specs.Lent.{Handed, IdsBelow, Mapped, Small, final_at, finals_at};
ghost use Rattle.limits.specs.Limits.{most_records, max_shapes};

use rows::{run_count, run_items};
use shapes::Encoding;
use store::{Finals, map_run};

// The runs of these ids; answers the position of what follows.
fn map_runs(ids: &[u32], first: usize, map: &mut [u32]) -> usize
    requires ids_le_most_records { length ids.now ≤ most_records }
    requires first_bound { first + 17 ≤ 65536 }
    requires all { All (λ x. x < length map.old) ids.now }
    ensures mapped { (s : Shape) → Mapped first (runs_of (record { shape = s; ids = ids.now })) map.old map.new result }
    ensures upper_bound { result ≤ first + 17 }
{
    let runs = run_count(ids.len());
    for k in 0..runs {
        let from = Encoding::MAX_ITEMS * k;
        map_run(ids, from, run_items(ids.len(), k), first + k, map);
    }
    first + runs
}

// The runs of one group, the first of them at position first; answers the position of the next group's first.
#[tactic(auto, unfolding(store::specs::Lent::final_at))]
fn map_group(work: &[u32], t: Finals, group: usize, first: usize, map: &mut [u32]) -> usize
    requires handed { Handed t.regions t.index work.now group }
    requires small { Small work.now group }
    requires ids_below { IdsBelow (length map.old) work.now group }
    requires first_bound { first + 17 ≤ 65536 }
    ensures mapped { Mapped first (runs_of (final_at t.regions work.now group)) map.old map.new result }
    ensures upper_bound { result ≤ first + 17 }
{
    let ids = work[group + 1] as usize;
    let count = work[group + 2] as usize;
    map_runs(&work[ids..ids + count], first, map)
}

// All ids of the groups.
#[tactic(auto, unfolding(store::specs::Lent::finals_at))]
pub fn write_map(work: &[u32], t: Finals, map: &mut [u32])
    requires count_le_max_shapes { t.count ≤ max_shapes }
    requires count_in_bounds { t.groups + 3 * t.count ≤ length work.now }
    requires by_index { (g : ℕ) → g < t.count → Handed t.regions t.index work.now (t.groups + 3 * g) }
    requires by_index_2 { (g : ℕ) → g < t.count → Small work.now (t.groups + 3 * g) }
    requires by_index_3 { (g : ℕ) → g < t.count → IdsBelow (length map.old) work.now (t.groups + 3 * g) }
    ensures { map.new ≡ stored (id_words 0 (all_runs (finals_at t.regions t.groups t.count work.now))) map.old }
{
    let mut first = 0;
    for g in 0..t.count {
        first = map_group(work, t, t.groups + 3 * g, first, map);
    }
}
