// The next column of a row that is not zero.
ghost use Rattle.std.specs.Prelude.{◌<◌};
ghost use Rattle.cells.specs.Lent.{RunEnd, CellsFit, NextCell};

use laws::wide;
use reader::{column_at, column_bytes};

// Where the columns of column i's width end, of n columns.
fn run_end(word: usize, n: usize, i: usize) -> usize
    requires { i < n }
    ensures { RunEnd word n i result }
{
    let w = word % 32768;
    if w <= i {
        return n;
    }
    if w < n {
        return w;
    }
    n
}

// The first of n columns from j on whose cell is not zero, in the row that begins at `row`; n where there is none. It is found in three steps at the
// most: all zeros up to the next byte that is not zero, or to the end of the columns of one width, are one.
pub fn next_cell(
    s: &[u8],
    work: &[u32],
    at: usize,
    row: usize,
    word: usize,
    n: usize,
    j: usize,
) -> usize
    requires { CellsFit s.now work.now at row word n j }
    ensures { NextCell s.now row word n j result }
{
    // No `for`: how far a step goes depends on the zeros that stand there.
    let mut i = j;
    while i < n {
        let k = column_bytes(word, i);
        let zeros = wide(work[at + row + column_at(word, i)]);
        if zeros < k {
            return i;
        }
        let cells = zeros / k;
        let end = run_end(word, n, i);
        if cells < end - i {
            i += cells;
        } else {
            i = end;
        }
    }
    n
}
