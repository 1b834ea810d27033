// Columns of a row: where one begins, and how many bytes it has.
ghost use Rattle.std.specs.Prelude.{◌≡◌, ◌≤◌, ◌<◌};
ghost use Rattle.reader.specs.Store.{column_start, column_width};

// The column of a region, counted from 0. No Option: that callers take it by `let .. else` on `Column` may not change.
#[derive(Clone, Copy)]
pub enum Column {
    At(usize),
    Missing,
}

// Where column j begins in a row; of the column count, how long a row is.
#[tactic(auto, unfolding(crate::specs::Store::column_start))]
pub fn column_at(word: usize, j: usize) -> usize
    requires word_bound { word < 65536 }
    requires j_bound { j < 65536 }
    ensures value { result ≡ column_start word j }
    ensures upper_bound { result < 262144 }
{
    let w = word % 32768;
    if word < 32768 {
        if j < w {
            return 2 * j;
        }
        return 2 * w + 1 * (j - w);
    }
    if j < w {
        return 4 * j;
    }
    4 * w + 2 * (j - w)
}

// The bytes of column j.
#[tactic(auto, unfolding(crate::specs::Store::column_width))]
pub fn column_bytes(word: usize, j: usize) -> usize
    ensures value { result ≡ column_width word j }
    ensures upper_bound { result ≤ 4 }
{
    let w = word % 32768;
    if word < 32768 {
        if j < w {
            return 2;
        }
        return 1;
    }
    if j < w {
        return 4;
    }
    2
}
