// How many records the job of a store takes (#105): its rows' values that are not zero are counted, and no more rows are looked at than a job may have
// records. Rows of no bytes are never walked to be counted past that, and columns that are zero are jumped over: what is lent says how many zeros
// follow from each byte on.
#![tactic(auto)]

ghost use Rattle.std.specs.Prelude.{◌≡◌, true, ℕ, ◌+◌, ◌*◌, ◌≤◌, ◌<◌, length};
ghost use Rattle.laws.specs.Bag.{weigh};
ghost use Rattle.cells.specs.Lent.{Ahead};
ghost use Rattle.limits.specs.Limits.{most_records};
ghost use Rattle.stores.specs.Stores.{slot_at, store_at, is_whole_ok};
ghost use Rattle.tallying.specs.LentTally.{entries_in, rows_in, RowIn, TableIn, SlotIn, Added, Tallied};

use cells::next_cell;
use limits::Limits;
use reader::{be, column_at};

// How many columns of a row are not zero: the row begins at `row`, its subtable at `at`.
fn row_values(s: &[u8], work: &[u32], at: usize, row: usize) -> usize
    requires { RowIn s.now at row × Ahead s.now 0 work.now }
    ensures value { result ≡ length (entries_in s.now at row) }
    ensures upper_bound { result < 65536 }
{
    let word = be(s, at + 2, 2);
    let n = be(s, at + 4, 2);
    let mut count: usize = 0;
    let mut j = next_cell(s, work, 0, row, word, n, 0);
    // No `for`: `next_cell` jumps over the columns that are zero.
    while j < n {
        count += 1;
        j = next_cell(s, work, 0, row, word, n, j + 1);
    }
    count
}

// The same of all rows of the subtable at `at`.
fn table_values(s: &[u8], work: &[u32], at: usize) -> usize
    requires { TableIn s.now at × Ahead s.now 0 work.now }
    ensures value { result ≡ weigh length (rows_in s.now at) }
    ensures upper_bound { result ≤ 65536 * 65536 }
{
    let items = be(s, at, 2);
    let word = be(s, at + 2, 2);
    let n = be(s, at + 4, 2);
    let long = column_at(word, n);
    let mut row = at + 6 + 2 * n;
    let mut count: usize = 0;
    for i in 0..items {
        count += row_values(s, work, at, row);
        row += long;
    }
    count
}

// Records and sets, counted so far.
#[derive(Clone, Copy)]
pub struct Count {
    pub records: usize,
    pub sets: usize,
}

// With the rows of one more subtable, null at 0. Past the limit of records its values are not looked at.
fn add_slot(s: &[u8], work: &[u32], at: usize, t: Count) -> Count
    requires slot_in { SlotIn s.now at × Ahead s.now 0 work.now }
    requires records_le_most_records { (t.records ≤ most_records) × (t.sets ≤ t.records) }
    ensures { Added (slot_at s.now at) t.records t.sets result.records result.sets }
{
    if at == 0 {
        return t;
    }
    let items = be(s, at, 2);
    let records = t.records + items;
    let sets = t.sets + items;
    if Limits::RECORDS < records {
        return Count { records, sets };
    }
    let values = table_values(s, work, at);
    Count {
        records: records + values,
        sets,
    }
}

// Of a store that is well formed throughout. Past the limit of records it stops.
pub fn tally(s: &[u8], work: &[u32]) -> Count
    requires { (is_whole_ok s.now ≡ true) × Ahead s.now 0 work.now }
    ensures { Tallied (store_at s.now) result.records result.sets }
{
    let list = be(s, 2, 4);
    let axes = be(s, list, 2);
    let regions = be(s, list + 2, 2);
    let n = be(s, 6, 2);
    let mut t = Count {
        records: regions * axes,
        sets: 0,
    };
    for o in 0..n {
        if Limits::RECORDS < t.records {
            return t;
        }
        t = add_slot(s, work, be(s, 8 + 4 * o, 4), t);
    }
    t
}
