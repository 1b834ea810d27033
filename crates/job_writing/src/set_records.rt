// The sets: a row each, in outer and inner order, with the values that are not zero.
ghost use Rattle.std.specs.Prelude.{◌≡◌, true, [], ◌∷◌, ◌+◌, ◌≤◌, ◌<◌, length};
ghost use Rattle.cells.specs.Lent.{Ahead};
ghost use Rattle.reader.specs.Store.{column_start, column_width, Word};
ghost use Rattle.rows.specs.Lent.{Put};
ghost use Rattle.stores.specs.Stores.{slot_at, store_at, is_whole_ok};
ghost use Rattle.recovering.specs.Recovering.{rows_of, set_bytes, sets_bytes};
ghost use Rattle.tallying.specs.LentTally.{entries_in, rows_in, RowIn, TableIn, SlotIn};

use crate::records::{in_four, put_end, put_value};
use cells::next_cell;
use reader::{be, column_at, column_bytes};

// The number that the bytes of column j are, in the row that begins at `row`.
fn cell(s: &[u8], row: usize, word: usize, j: usize) -> usize
    requires word_bound { (word < 65536) × (j < 65536) }
    requires j_in_bounds { row + column_start word j + column_width word j ≤ length s.now }
    ensures { Word (column_width word j) s.now (row + column_start word j) result }
{
    let k = column_bytes(word, j);
    be(s, row + column_at(word, j), k)
}

// The set of the row that begins at `row`, of the subtable at `table`.
fn write_set(out: &mut [u8], at: usize, s: &[u8], work: &[u32], table: usize, row: usize) -> usize
    requires row_in { RowIn s.now table row × Ahead s.now 0 work.now }
    requires row_in_bounds { at + length (set_bytes (entries_in s.now table row)) ≤ length out.old }
    ensures { Put at (set_bytes (entries_in s.now table row)) out.old out.new result }
{
    let word = be(s, table + 2, 2);
    let n = be(s, table + 4, 2);
    let mut p = at;
    let mut j = next_cell(s, work, 0, row, word, n, 0);
    // No `for`: `next_cell` jumps over the columns that are zero.
    while j < n {
        let q = be(s, table + 6 + 2 * j, 2);
        let x = cell(s, row, word, j);
        put_value(out, p, q, in_four(column_bytes(word, j), x));
        p += 12;
        j = next_cell(s, work, 0, row, word, n, j + 1);
    }
    put_end(out, p);
    p + 12
}

// Those of a subtable.
fn write_table(out: &mut [u8], at: usize, s: &[u8], work: &[u32], table: usize) -> usize
    requires table_in { TableIn s.now table × Ahead s.now 0 work.now }
    requires table_in_bounds { at + length (sets_bytes (rows_in s.now table)) ≤ length out.old }
    ensures { Put at (sets_bytes (rows_in s.now table)) out.old out.new result }
{
    let items = be(s, table, 2);
    let word = be(s, table + 2, 2);
    let n = be(s, table + 4, 2);
    let long = column_at(word, n);
    let mut row = table + 6 + 2 * n;
    let mut p = at;
    for i in 0..items {
        p = write_set(out, p, s, work, table, row);
        row += long;
    }
    p
}

// Those of a subtable that may be null, at 0.
fn write_slot(out: &mut [u8], at: usize, s: &[u8], work: &[u32], table: usize) -> usize
    requires slot_in { SlotIn s.now table × Ahead s.now 0 work.now }
    requires table_in_bounds { at + length (sets_bytes (rows_of (slot_at s.now table ∷ []))) ≤ length out.old }
    ensures { Put at (sets_bytes (rows_of (slot_at s.now table ∷ []))) out.old out.new result }
{
    if table == 0 {
        return at;
    }
    write_table(out, at, s, work, table)
}

pub fn write_sets(out: &mut [u8], at: usize, s: &[u8], work: &[u32]) -> usize
    requires s_value { (is_whole_ok s.now ≡ true) × Ahead s.now 0 work.now }
    requires s_in_bounds { at + length (sets_bytes (rows_of (store_at s.now).tables)) ≤ length out.old }
    ensures { Put at (sets_bytes (rows_of (store_at s.now).tables)) out.old out.new result }
{
    let n = be(s, 6, 2);
    let mut p = at;
    for o in 0..n {
        p = write_slot(out, p, s, work, be(s, 8 + 4 * o, 4));
    }
    p
}
