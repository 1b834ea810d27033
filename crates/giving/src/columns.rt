// The cells of one row that are not zero, each compared with the word of its column's region.
ghost use Rattle.std.specs.Prelude.{◌≡◌, ◌+◌, ◌≤◌, ◌^◌, length};
ghost use Rattle.laws.specs.Bytes.{be};
ghost use Rattle.laws.specs.Signed.{signed, value};
ghost use Rattle.giving.specs.Lent.{ColumnsFit, Passed};

use crate::entries::{Aims, ZERO};
use cells::next_cell;
use reader::{be, column_at, column_bytes};

// The word of the number that the k bytes from p are as two's complement.
#[tactic(auto, using(crate::proofs::PassLaws::span_is, crate::proofs::PassLaws::span_low))]
fn cell(store: &[u8], p: usize, k: usize) -> u32
    requires { (k ≤ 4) × (p + k ≤ length store.now) }
    ensures { value result ≡ signed k (be k store.now p) }
{
    let x = be(store, p, k);
    // As many numbers as k bytes have.
    let m = 1usize << (8 * k);
    if 2 * x < m {
        return (0x8000_0000 + x) as u32;
    }
    (0x8000_0000 + x - m) as u32
}

// Whether each of n columns whose cell is not zero has the word of its region. Those regions have zero's afterwards; no other cell is looked at. The
// subtable's region indexes are at `at`, and the row at `row`.
pub fn pass(
    store: &[u8],
    at: usize,
    row: usize,
    word: usize,
    n: usize,
    work: &mut [u32],
    t: Aims,
) -> bool
    requires { ColumnsFit store.now at row word n work.old t }
    ensures { Passed store.now at row word n t work.old work.new result }
{
    let mut j = 0;
    // No `for`: `next_cell` jumps over the cells that are zero.
    while j < n {
        let i = next_cell(store, work, t.zeros, row, word, n, j);
        if n <= i {
            return true;
        }
        let q = be(store, at + 2 * i, 2);
        let v = cell(store, row + column_at(word, i), column_bytes(word, i));
        if work[t.values + q] != v {
            return false;
        }
        work[t.values + q] = ZERO;
        j = i + 1;
    }
    true
}
