// The regions that the subtables left name, and their new numbers. In work a word for each region of the store, behind what is chosen: 0
// where nobody names it, else one more than its number.
ghost use Rattle.std.specs.Prelude.{◌≡◌, ℕ, ◌+◌, ◌*◌, ◌≤◌, ◌<◌, length, get_or};
ghost use Rattle.laws.specs.Bytes.{be};
ghost use Rattle.reader.specs.Store.{region_count};
ghost use Rattle.cutting.specs.LentCut.{StoreFit, ColumnsMarked, TablesMarked, NumberedAt};

use crate::cut::cut_of;
use reader::be;

// Marks the regions of n columns, whose numbers stand in the store from `from` on.
fn mark_columns(store: &[u8], from: usize, n: usize, work: &mut [u32], marks: usize)
    requires n_bound { (n < 65536) × (from + 2 * n ≤ length store.now) }
    requires by_index { (j : ℕ) → j < n → marks + be 2 store.now (from + 2 * j) < length work.old }
    ensures { ColumnsMarked store.now from n marks work.old work.new }
{
    for j in 0..n {
        let r = be(store, from + 2 * j, 2);
        work[marks + r] = 1;
    }
}

// Of all t subtables; nothing is marked before.
pub fn mark_tables(store: &[u8], work: &mut [u32], n: usize, t: usize)
    requires store_fit { StoreFit store.now n work.old t }
    requires by_index { (r : ℕ) → r < region_count store.now → get_or work.old (3 * n + 1 + r) 0 ≡ 0 }
    ensures { TablesMarked store.now n t work.old work.new }
{
    for g in 0..t {
        let c = cut_of(store, work, n, g);
        mark_columns(store, c.at + 6, c.columns, work, 3 * n + 1);
    }
}

// The new number of each of so many regions; answers how many are marked.
pub fn number(work: &mut [u32], marks: usize, regions: usize) -> usize
    requires { (regions < 65536) × (marks + regions ≤ length work.old) }
    ensures { NumberedAt marks regions work.old work.new result }
{
    let mut k: u32 = 0;
    for mark in work[marks..marks + regions].iter_mut() {
        if *mark != 0 {
            k += 1;
            *mark = k;
        }
    }
    k as usize
}
