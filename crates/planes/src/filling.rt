// The planes of a shape that stands a word a region.
ghost use Rattle.std.specs.Prelude.{◌≡◌, ℕ, ◌+◌, ◌*◌, ◌<◌, get_or};
ghost use Rattle.planes.specs.Lent.{FillFit, Filled};

use crate::putting::put;
use laws::zero_part;

// Puts each of the m regions from x on into the planes at a, whose words are 0. A region of None needs no bit.
fn put_all(work: &mut [u32], x: usize, m: usize, a: usize, words: usize)
    requires fill_fit { FillFit x m a words work.old }
    requires by_index { (k : ℕ) → k < 3 * words → get_or work.old (a + k) 0 ≡ 0 }
    ensures { Filled x m a words work.old work.new }
{
    for r in 0..m {
        let cost = work[x + r];
        if cost != 0 {
            put(work, a, words, r, cost);
        }
    }
}

// Writes the planes of the shape of m words from x on to a.
pub fn fill(work: &mut [u32], x: usize, m: usize, a: usize, words: usize)
    requires { FillFit x m a words work.old }
    ensures { Filled x m a words work.old work.new }
{
    zero_part(work, a, 3 * words);
    put_all(work, x, m, a, words);
}
