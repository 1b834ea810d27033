// The rows of many sets, one behind the other, in blocks.
ghost use Rattle.std.specs.Prelude.{◌≡◌, ◌++◌, ◌+◌, ◌*◌, ◌≤◌, ◌<◌, length, drop};
ghost use Rattle.laws.specs.LentRange.{seg};
ghost use Rattle.reader.specs.Store.{column_start};
ghost use Rattle.rows.specs.Lent.{Put, Stored, cell_words, row_bytes, rows_bytes, set_at};

use crate::columns::Columns;
use crate::row::write_row;
use crate::sets::{SetList, Sets};

// A block has at most so many rows.
const BLOCK: usize = 16;

// The row of set x.
#[tactic(auto, unfolding(rows::specs::Lent::set_at))]
fn write_set(row: &mut [u8], columns: Columns, work: &[u32], index: usize, x: usize)
    requires row_in_bounds { column_start columns.word (length columns.regions.now) ≤ length row.old }
    requires stored { Stored index work.now x }
    ensures { row.new ≡ row_bytes columns.entry.word 0 (cell_words (set_at index work.now x) columns.entry.regions.now) ++ drop (column_start columns.entry.word (length columns.entry.regions.now)) row.old }
{
    let start = work[index + 2 * x] as usize;
    let entries = work[index + 2 * x + 1] as usize;
    write_row(row, columns, work, start, entries);
}

// Whether the first entry of set x is of region 4,294,967,295, which none is.
fn odd(work: &[u32], index: usize, x: usize) -> bool
    requires { Stored index work.now x }
{
    if work[index + 2 * x + 1] == 0 {
        return false;
    }
    let start = work[index + 2 * x] as usize;
    work[start] == 0xffff_ffff
}

// Where the block of rows from row i on ends: behind 16 rows, or before. Sets lie far apart in work. Each of a block is looked at here, before a
// row of it is written, so that they are fetched side by side; each row would wait for its own. It may end anywhere: all blocks together are the rows.
fn block_end(sets: Sets, i: usize) -> usize
    requires i_lt_count { i < sets.list.count }
    ensures { (i < result) × (result ≤ sets.entry.list.count) }
{
    let list = sets.list;
    let end = list.count.min(i + BLOCK);
    for j in i..end {
        let x = sets.work[list.ids + j] as usize;
        if odd(sets.work, list.index, x) {
            return j + 1;
        }
    }
    end
}

// One row for each of the sets of a block, each written into its own part of the output.
fn write_block(out: &mut [u8], at: usize, columns: Columns, sets: Sets) -> usize
    requires rows_in_bounds { at + sets.list.count * column_start columns.word (length columns.regions.now) ≤ length out.old }
    ensures { Put at (rows_bytes columns.entry.word columns.entry.regions.now (set_at sets.entry.list.index sets.entry.work.now) (seg sets.entry.list.ids sets.entry.list.count sets.entry.work.now)) out.old out.new result }
{
    let list = sets.list;
    let n = columns.row();
    let mut a = at;
    for i in 0..list.count {
        let x = sets.work[list.ids + i] as usize;
        write_set(&mut out[a..], columns, sets.work, list.index, x);
        a += n;
    }
    a
}

// One row for each of the sets, block by block. No `for`: where the next block begins is known when this one is looked at.
pub fn write_rows(out: &mut [u8], at: usize, columns: Columns, sets: Sets) -> usize
    requires rows_in_bounds { at + sets.list.count * column_start columns.word (length columns.regions.now) ≤ length out.old }
    ensures { Put at (rows_bytes columns.entry.word columns.entry.regions.now (set_at sets.entry.list.index sets.entry.work.now) (seg sets.entry.list.ids sets.entry.list.count sets.entry.work.now)) out.old out.new result }
{
    let mut a = at;
    let mut i = 0;
    while i < sets.list.count {
        let j = block_end(sets, i);
        let block = SetList {
            ids: sets.list.ids + i,
            count: j - i,
            ..sets.list
        };
        a = write_block(
            out,
            a,
            columns,
            Sets {
                work: sets.work,
                list: block,
            },
        );
        i = j;
    }
    a
}
