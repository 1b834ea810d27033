// Which regions a store keeps: those that some subtable names, renumbered in order.
ghost use Rattle.std.specs.Prelude.{◌≡◌, [], ◌∷◌, ℕ, ◌+◌, ◌*◌, ◌≤◌, ◌<◌, length, take};
ghost use Rattle.laws.specs.LentRange.{Only, seg};
ghost use Rattle.store.specs.Lent.{Handed, Marks, NumberedIn, finals_at};

use store::{Finals, mark_shape};

// Marks each region that some group names; nothing is marked before. The groups stand before the marks.
pub fn mark_groups(work: &mut [u32], t: Finals, marks: usize)
    requires count_bound { t.groups + 3 * t.count ≤ marks }
    requires regions_in_bounds { marks + t.regions ≤ length work.old }
    requires by_index { (g : ℕ) → g < t.count → Handed t.regions t.index (take marks work.old) (t.groups + 3 * g) }
    requires marks { Marks (finals_at t.regions t.groups 0 (take marks work.old)) (seg marks t.regions work.old) }
    ensures marks_2 { Marks (finals_at t.regions t.groups t.count (take marks work.old)) (seg marks t.regions work.new) }
    ensures only { Only ((marks, t.regions) ∷ []) work.old work.new }
{
    for g in 0..t.count {
        let groups = t.groups;
        let shape = work[groups + 3 * g] as usize;
        mark_shape(work, shape, t.regions, marks);
    }
}

// The new number of each region, and how many are kept. The marks stand in work, and the numbers behind them.
pub fn number(work: &mut [u32], marks: usize, numbers: usize, regions: usize) -> usize
    requires regions_bound { regions < 32768 }
    requires regions_bound_2 { marks + regions ≤ numbers }
    requires regions_in_bounds { numbers + regions ≤ length work.old }
    ensures { NumberedIn marks numbers regions work.old work.new result }
{
    let mut n: usize = 0;
    for r in 0..regions {
        work[numbers + r] = n as u32;
        if work[marks + r] != 0 {
            n += 1;
        }
    }
    n
}
