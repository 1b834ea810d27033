// Lays a set into its row. The row's writer gets the part of the output that starts at its row, and nothing else of the store.
ghost use Rattle.std.specs.Prelude.{◌≡◌, List, [], ◌++◌, ◌+◌, ◌*◌, ◌≤◌, ◌<◌, length, take, drop, replicate};
ghost use Rattle.laws.specs.Signed.{twos, value};
ghost use Rattle.reader.specs.Store.{column_start};
ghost use Rattle.rows.specs.Lent.{entries_at, row_bytes, cell_words};

use crate::columns::Columns;
use reader::{Column, column_at, column_bytes};
use rows::{column_of, put};

// A word of work as two's complement.
fn twos(word: u32) -> u32
    ensures { result ≡ twos 4 (value word) }
{
    word.wrapping_add(0x8000_0000)
}

fn clear_row(row: &mut [u8], n: usize)
    requires { n ≤ length row.old }
    ensures { row.new ≡ replicate n 0 ++ drop n row.old }
{
    row[..n].fill(0);
}

// Puts each value of the set of count entries from start on into its column; a region with no column is skipped.
fn lay(row: &mut [u8], columns: Columns, work: &[u32], start: usize, count: usize)
    requires row_in_bounds { column_start columns.word (length columns.regions.now) ≤ length row.old }
    requires row_value { take (column_start columns.word (length columns.regions.now)) row.old ≡ row_bytes columns.word 0 (cell_words [] columns.regions.now) }
    requires count_in_bounds { start + 2 * count ≤ length work.now }
    ensures { row.new ≡ row_bytes columns.entry.word 0 (cell_words (entries_at start count work.now) columns.entry.regions.now) ++ drop (column_start columns.entry.word (length columns.entry.regions.now)) row.old }
{
    for i in (0..count).rev() {
        let region = work[start + 2 * i] as usize;
        let value = work[start + 2 * i + 1];
        let Column::At(j) = column_of(columns.places, region) else {
            continue;
        };
        let word = columns.word;
        put(row, column_at(word, j), column_bytes(word, j), twos(value));
    }
}

// Writes one row at the start of the part: the values of a set at their columns, zeros elsewhere.
pub fn write_row(row: &mut [u8], columns: Columns, work: &[u32], start: usize, count: usize)
    requires row_in_bounds { column_start columns.word (length columns.regions.now) ≤ length row.old }
    requires count_in_bounds { start + 2 * count ≤ length work.now }
    ensures { row.new ≡ row_bytes columns.entry.word 0 (cell_words (entries_at start count work.now) columns.entry.regions.now) ++ drop (column_start columns.entry.word (length columns.entry.regions.now)) row.old }
{
    clear_row(row, columns.row());
    lay(row, columns, work, start, count);
}
