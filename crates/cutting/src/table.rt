// Writes one subtable: its head, its columns by the regions' new numbers, and its chosen rows as they are.
ghost use Rattle.std.specs.Prelude.{◌≡◌, ℕ, ◌+◌, ◌*◌, ◌%◌, ◌≤◌, ◌<◌, length, get_or};
ghost use Rattle.laws.specs.LentRange.{seg};
ghost use Rattle.laws.specs.Bytes.{be};
ghost use Rattle.rows.specs.Lent.{Put, head_bytes};
ghost use Rattle.cutting.specs.LentCut.{TableFit, NamesFit, TableNamed, columns_put, rows_put, cut_bytes};

use crate::cut::cut_of;
use laws::{copy_slice, wide};
use reader::{be, column_at};
use rows::put;

// Copies n bytes.
pub fn copy(out: &mut [u8], at: usize, src: &[u8], from: usize, n: usize) -> usize
    requires { (at + n ≤ length out.old) × (from + n ≤ length src.now) }
    ensures { Put at (seg from n src.now) out.old out.new result }
{
    copy_slice(&mut out[at..at + n], &src[from..from + n]);
    at + n
}

fn write_head(out: &mut [u8], at: usize, rows: usize, word: usize, columns: usize) -> usize
    requires { (at + 6 ≤ length out.old) × (rows < 65536) × (word < 65536) × (columns < 65536) }
    ensures { Put at (head_bytes rows word columns) out.old out.new result }
{
    put(out, at, 2, rows as u32);
    put(out, at + 2, 2, word as u32);
    put(out, at + 4, 2, columns as u32);
    at + 6
}

// The new numbers of the regions that n columns name.
fn write_columns(
    out: &mut [u8],
    at: usize,
    store: &[u8],
    from: usize,
    n: usize,
    work: &[u32],
    marks: usize,
) -> usize
    requires n_bound { (n < 65536) × (from + 2 * n ≤ length store.now) × (at + 2 * n ≤ length out.old) }
    requires names_fit { NamesFit store.now from n work.now marks }
    ensures { Put at (columns_put store.now from n work.now marks) out.old out.new result }
{
    let mut p = at;
    for j in 0..n {
        let r = be(store, from + 2 * j, 2);
        put(out, p, 2, work[marks + r] - 1);
        p += 2;
    }
    p
}

// The rows that count words from `from` on name, of rows of so many bytes that begin at first.
fn write_rows(
    out: &mut [u8],
    at: usize,
    store: &[u8],
    first: usize,
    long: usize,
    work: &[u32],
    from: usize,
    count: usize,
) -> usize
    requires long_bound { (long < 262144) × (from + count ≤ length work.now) × (at + count * long ≤ length out.old) }
    requires by_index { (i : ℕ) → i < count → first + get_or work.now (from + i) 0 % 65536 * long + long ≤ length store.now }
    ensures { Put at (rows_put store.now first long work.now from count) out.old out.new result }
{
    let mut p = at;
    for i in 0..count {
        let row = wide(work[from + i]) % 65536;
        p = copy(out, p, store, first + row * long, long);
    }
    p
}

// The subtable of the g-th group.
pub fn write_table(
    out: &mut [u8],
    at: usize,
    store: &[u8],
    work: &[u32],
    n: usize,
    g: usize,
) -> usize
    requires table_fit { TableFit store.now n work.now g }
    requires table_named { TableNamed store.now n work.now g }
    requires g_in_bounds { at + length (cut_bytes store.now n work.now g) ≤ length out.old }
    ensures { Put at (cut_bytes store.now n work.now g) out.old out.new result }
{
    let c = cut_of(store, work, n, g);
    let p = write_head(out, at, c.rows, c.word, c.columns);
    let from = c.at + 6;
    let q = write_columns(out, p, store, from, c.columns, work, 3 * n + 1);
    let first = from + 2 * c.columns;
    let long = column_at(c.word, c.columns);
    write_rows(out, q, store, first, long, work, c.from, c.rows)
}
