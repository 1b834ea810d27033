// A subtable that is left: where it stands in the old store, its form, which of the chosen rows are its own; and its size.
ghost use Rattle.std.specs.Prelude.{◌≡◌, ℕ, ◌+◌, ◌*◌, ◌≤◌, ◌<◌, length};
ghost use Rattle.laws.specs.Bag.{sum};
ghost use Rattle.reader.specs.Store.{column_start};
ghost use Rattle.cutting.specs.LentCut.{table_of, TableFit, CutIs, cut_size};

use laws::wide;
use reader::{be, column_at};

// Where it stands, its word count, how many columns it has, the first of its chosen rows and how many there are.
#[derive(Clone, Copy)]
pub struct Cut {
    pub at: usize,
    pub word: usize,
    pub columns: usize,
    pub from: usize,
    pub rows: usize,
}

// Where the subtable of the g-th group stands in the store.
fn table_at(store: &[u8], work: &[u32], n: usize, g: usize) -> usize
    requires { TableFit store.now n work.now g }
    ensures { (result ≡ table_of store.now n work.now g) × (result < 4294967296) }
{
    let j = wide(work[2 * n + g]);
    let o = wide(work[j]) / 65536;
    be(store, 8 + 4 * o, 4)
}

// Store, work and n stay three parameters: of a slice in a struct's field a proof no longer knows that its bytes are below 256, as it must here.
pub fn cut_of(store: &[u8], work: &[u32], n: usize, g: usize) -> Cut
    requires { TableFit store.now n work.now g }
    ensures { CutIs store.now n work.now g result.at result.word result.columns result.from result.rows }
{
    let at = table_at(store, work, n, g);
    let word = be(store, at + 2, 2);
    let columns = be(store, at + 4, 2);
    let from = wide(work[2 * n + g]);
    let rows = wide(work[2 * n + g + 1]) - from;
    Cut {
        at,
        word,
        columns,
        from,
        rows,
    }
}

// Its bytes.
pub fn size_of(word: usize, columns: usize, rows: usize) -> usize
    requires { (word < 65536) × (columns < 65536) × (rows < 65536) }
    ensures { (result ≡ 6 + 2 * columns + rows * column_start word columns) × (result < 34359738368) }
{
    6 + 2 * columns + rows * column_at(word, columns)
}

// Those of all t subtables.
pub fn tables_size(store: &[u8], work: &[u32], n: usize, t: usize) -> usize
    requires { (t < 65536) × ((g : ℕ) → g < t → TableFit store.now n work.now g) }
    ensures { (result ≡ sum (cut_size store.now n work.now) t) × (result < 2251799813685248) }
{
    let mut size: usize = 0;
    for g in 0..t {
        let c = cut_of(store, work, n, g);
        size += size_of(c.word, c.columns, c.rows);
    }
    size
}
