// Blocks of sorted numbers, whose sets are looked at ahead.
ghost use Rattle.std.specs.Prelude.{ℕ, ◌+◌, ◌≤◌, ◌<◌, length, get_or};
ghost use Rattle.sets.specs.Lent.{Stored};

use laws::wide;

// A block has at most so many numbers.
const BLOCK: usize = 16;

// Whether the first entry of set x is of region 4,294,967,295, which none is.
fn odd(work: &[u32], index: usize, x: usize) -> bool
    requires { Stored work.now index x }
{
    if work[index + 2 * x + 1] == 0 {
        return false;
    }
    let start = wide(work[index + 2 * x]);
    work[start] == 0xffff_ffff
}

// Where the block from the i-th of n numbers on ends: behind 16 numbers, or before. Sets lie far apart in work. Each of a block is looked at here,
// before one of it is compared, so that they are fetched side by side; each comparison would wait for its own. It may end anywhere: all blocks
// together are the numbers.
pub fn block_end(work: &[u32], index: usize, at: usize, i: usize, n: usize) -> usize
    requires n_in_bounds { at + n ≤ length work.now }
    requires by_index { (p : ℕ) → p < n → Stored work.now index (get_or work.now (at + p) 0) }
    requires i_lt_n { i < n }
    ensures { (i < result) × (result ≤ n) }
{
    let end = n.min(i + BLOCK);
    for j in i..end {
        if odd(work, index, wide(work[at + j])) {
            return j + 1;
        }
    }
    end
}
