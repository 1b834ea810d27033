// Writes one subtable: item count, word count, region count, region indexes, rows. Each function puts its bytes from a place on and
// answers where they end.
ghost use Rattle.std.specs.Prelude.{◌≡◌, true, ◌+◌, ◌*◌, ◌≤◌, ◌<◌, length};
ghost use Rattle.laws.specs.LentRange.{seg};
ghost use Rattle.laws.specs.Every.{All};
ghost use Rattle.reader.specs.Store.{are_columns_ok};
ghost use Rattle.rows.specs.Lent.{Placed, Put, Stored, head_bytes, index_bytes, number_in, runs_bytes, set_at, table_bytes};

use crate::block::write_rows;
use crate::columns::Columns;
use crate::sets::{SetList, Sets};
use rows::{put, run_count, run_items};
use shapes::Encoding;

fn write_head(out: &mut [u8], at: usize, items: usize, word: usize, count: usize) -> usize
    requires at_in_bounds { at + 6 ≤ length out.old }
    requires bound { items < 65536 }
    requires word_bound { word < 65536 }
    requires count_bound { count < 65536 }
    ensures { Put at (head_bytes items word count) out.old out.new result }
{
    put(out, at, 2, items as u32);
    put(out, at + 2, 2, word as u32);
    put(out, at + 4, 2, count as u32);
    at + 6
}

// The region indexes, by the regions' new numbers.
fn write_indexes(out: &mut [u8], at: usize, cols: &[u32], numbers: &[u32]) -> usize
    requires cols_len_bound { length cols.now < 65536 }
    requires cols_value { are_columns_ok (length numbers.now) cols.now ≡ true }
    requires cols_in_bounds { at + 2 * length cols.now ≤ length out.old }
    ensures { Put at (index_bytes (number_in numbers.now) cols.now) out.old out.new result }
{
    for (j, region) in cols.iter().enumerate() {
        put(out, at + 2 * j, 2, numbers[*region as usize]);
    }
    at + 2 * cols.len()
}

// One subtable of the sets' rows. One of no rows is null, and has no bytes.
fn write_table(out: &mut [u8], at: usize, columns: Columns, numbers: &[u32], sets: Sets) -> usize
    requires regions_value { are_columns_ok (length numbers.now) columns.regions.now ≡ true }
    requires count_bound { sets.list.count < 65536 }
    requires table_in_bounds { at + length (table_bytes (number_in numbers.now) columns.word columns.regions.now (set_at sets.list.index sets.work.now) (seg sets.list.ids sets.list.count sets.work.now)) ≤ length out.old }
    ensures { Put at (table_bytes (number_in numbers.now) columns.entry.word columns.entry.regions.now (set_at sets.entry.list.index sets.entry.work.now) (seg sets.entry.list.ids sets.entry.list.count sets.entry.work.now)) out.old out.new result }
{
    if sets.list.count == 0 {
        return at;
    }
    let a = write_head(
        out,
        at,
        sets.list.count,
        columns.word,
        columns.regions.len(),
    );
    let b = write_indexes(out, a, columns.regions, numbers);
    write_rows(out, b, columns, sets)
}

// The subtables of a group, whose sets are cut into runs.
pub fn write_runs(
    out: &mut [u8],
    at: usize,
    word: usize,
    cols: &[u32],
    places: &[u32],
    numbers: &[u32],
    work: &[u32],
    sets: SetList,
) -> usize
    requires word_bound { word < 65536 }
    requires cols_len_bound { length cols.now < 65536 }
    requires placed { Placed cols.now places.now }
    requires cols_value { are_columns_ok (length numbers.now) cols.now ≡ true }
    requires count_bound { sets.count < 4294967296 }
    requires count_in_bounds { sets.ids + sets.count ≤ length work.now }
    requires all { All (Stored sets.index work.now) (seg sets.ids sets.count work.now) }
    requires work_in_bounds { at + length (runs_bytes (table_bytes (number_in numbers.now) word cols.now (set_at sets.index work.now)) (seg sets.ids sets.count work.now)) ≤ length out.old }
    ensures { Put at (runs_bytes (table_bytes (number_in numbers.now) word cols.now (set_at sets.index work.now)) (seg sets.ids sets.count work.now)) out.old out.new result }
{
    let columns = Columns {
        word,
        regions: cols,
        places,
    };
    let runs = run_count(sets.count);
    let mut a = at;
    for k in 0..runs {
        let run = SetList {
            ids: sets.ids + Encoding::MAX_ITEMS * k,
            count: run_items(sets.count, k),
            ..sets
        };
        a = write_table(out, a, columns, numbers, Sets { work, list: run });
    }
    a
}
